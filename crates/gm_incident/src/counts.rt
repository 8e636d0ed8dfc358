//! How often a node of a rule has each label on a side.

ghost use Rattle.std.specs.Prelude.{◌≡◌, ◌+◌, ◌<◌, ◌≤◌, ℕ, length, slice_index};
ghost use Rattle.std.specs.List.{count_by};
ghost use Rattle.gm_model.specs.Rules.{rule_of, is_end, is_label};
ghost use Rattle.gm_model.specs.Structure.{arcs_at};
ghost use Rattle.gm_incident.specs.inner.Ranges.{HasLinkLabels, HasWordLabels, HasLabels};
ghost use Rattle.gm_model.specs.declared.limit.TheConstants.{MOST_LABELS};

use gm_model::{Letter, Link, MOST_LABELS, RuleTable, Side, Word};

/// How often a node has each label on a side.
pub type Counts = [u16; MOST_LABELS];

/// How often the node has each label on the side, letters and links counted together. A link from
/// the node to itself counts once.
pub fn arc_counts(rule: &RuleTable, side: Side, node: u8) -> Counts
    requires { HasLabels (rule_of rule.now) }
    ensures { (i : ℕ) → i < MOST_LABELS → slice_index result i ≡ arcs_at (rule_of rule.now) side node i }
{
    let mut counts = link_counts(rule.links(side), node);
    if let Some(word) = rule.word(side, node) {
        count_letters(&mut counts, &word);
    }
    counts
}

/// How many links with each label end at the node.
fn link_counts(links: &[Link], node: u8) -> Counts
    requires { HasLinkLabels links.now }
    ensures { (i : ℕ) → i < MOST_LABELS → slice_index result i ≡ count_by (is_end node i) links.now }
{
    let mut counts = [0; MOST_LABELS];
    for link in links {
        if link.from == node || link.to == node {
            counts[link.label as usize] += 1;
        }
    }
    counts
}

/// Counts the letters of the word too.
fn count_letters(counts: &mut Counts, word: &Word)
    requires room { (i : ℕ) → i < MOST_LABELS → slice_index counts.old i ≤ 256 }
    requires labels { HasWordLabels word.now }
    ensures { (i : ℕ) → i < MOST_LABELS → slice_index counts.new i ≡ slice_index counts.old i + count_by (is_label i) word.now }
{
    for place in 0..word.len() {
        if let Letter::At(label) = word.letter(place) {
            counts[label as usize] += 1;
        }
    }
}
