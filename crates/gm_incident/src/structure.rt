//! The structure of a rule: its hooks, their words, the lengths of words, and what joins the left
//! nodes.

ghost use Rattle.std.specs.Prelude.{◌≡◌, ◌<◌, ◌≤◌, ℕ, ◌↔◌, IsTrue, length, slice_index, MatchResult, MatchOption};
ghost use Rattle.std.specs.List.{All};
ghost use Rattle.gm_model.specs.declared.rule.Side.TheVariants.{Left};
ghost use Rattle.gm_model.specs.Rules.{rule_of, letters, width as width_of};
ghost use Rattle.gm_model.specs.Structure.{AreGood, HasHook, IsPlainWord, HasPlainHook, HasWidth, IsConnected, IsStructured, IsStructureFault};
ghost use Rattle.gm_incident.specs.inner.Faults.{IsFirstFault};
ghost use Rattle.gm_incident.specs.inner.Ranges.{HasEndsBelow32, HasLeftFirst};
ghost use Rattle.gm_incident.specs.inner.Words.{StandsBefore};
ghost use Rattle.gm_model.specs.declared.limit.TheConstants.{MOST_NODES};

use crate::joined::joined_to;
use gm_model::{Letter, RuleFault, RuleTable, Side, Word};

/// The first fault of the structure of a rule.
pub fn check_structure(rule: &RuleTable) -> Result<(), RuleFault>
    requires left_first { HasLeftFirst (rule_of rule.now) }
    requires nodes { length (rule_of rule.now).nodes ≤ MOST_NODES }
    requires hooks { All (λ h. h < MOST_NODES) rule.now.hooks }
    requires ends { HasEndsBelow32 rule.now.left_links }
    ensures { MatchResult result (λ _. IsStructured (rule_of rule.now)) (λ fault. IsStructureFault (rule_of rule.now) fault) }
{
    check_hooks(rule)?;
    check_hook_words(rule)?;
    check_widths(rule)?;
    check_connected(rule)
}

/// Whether a rule with left nodes has a hook, and a creation rule none.
fn check_hooks(rule: &RuleTable) -> Result<(), RuleFault>
    requires { HasLeftFirst (rule_of rule.now) }
    ensures { MatchResult result (λ _. HasHook (rule_of rule.now)) (λ fault. (fault ≡ RuleFault.Hooks) × (HasHook (rule_of rule.now) → ⊥)) }
{
    let has_left_nodes = rule.word(Side::Left, 0).is_some();
    if rule.hooks.as_slice().is_empty() == has_left_nodes {
        return Err(RuleFault::Hooks);
    }
    Ok(())
}

/// The first hook whose left word isn't plain.
fn check_hook_words(rule: &RuleTable) -> Result<(), RuleFault>
    ensures { MatchResult result
        (λ _. AreGood (HasPlainHook (rule_of rule.now)) (length rule.now.hooks))
        (λ fault. IsFirstFault (HasPlainHook (rule_of rule.now)) (length rule.now.hooks)
        (λ t. RuleFault.HookWord (slice_index rule.now.hooks t)) fault) }
{
    for hook in rule.hooks.as_slice() {
        if !has_plain_word(rule, *hook) {
            return Err(RuleFault::HookWord { node: *hook });
        }
    }
    Ok(())
}

/// Whether the left word of the node is plain, where it has one.
fn has_plain_word(rule: &RuleTable, node: u8) -> bool
    ensures { IsTrue result ↔ IsPlainWord (letters (rule_of rule.now) Left node) }
{
    match rule.word(Side::Left, node) {
        Some(word) => is_plain(&word),
        None => true,
    }
}

/// Whether each letter is a label, and no two are the same.
fn is_plain(word: &Word) -> bool
    ensures { IsTrue result ↔ IsPlainWord word.now }
{
    for place in 0..word.len() {
        let letter = word.letter(place);
        if letter == Letter::Gone || stands_before(word, place, letter) {
            return false;
        }
    }
    true
}

/// Whether the letter stands at an earlier place.
fn stands_before(word: &Word, place: u8, letter: Letter) -> bool
    requires { place ≤ length word.now }
    ensures { IsTrue result ↔ StandsBefore word.now place letter }
{
    for earlier in 0..place {
        if word.letter(earlier) == letter {
            return true;
        }
    }
    false
}

/// The first node with a word of another length than the first hook's.
fn check_widths(rule: &RuleTable) -> Result<(), RuleFault>
    requires { length (rule_of rule.now).nodes ≤ MOST_NODES }
    ensures { MatchResult result
        (λ _. AreGood (HasWidth (rule_of rule.now)) (length (rule_of rule.now).nodes))
        (λ fault. IsFirstFault (HasWidth (rule_of rule.now)) (length (rule_of rule.now).nodes) (λ x. RuleFault.WordLength x) fault) }
{
    let width = width(rule);
    for node in 0..rule.node_count() {
        if !has_width(rule, node, width) {
            return Err(RuleFault::WordLength { node });
        }
    }
    Ok(())
}

/// The length of the first hook's word, or 0.
fn width(rule: &RuleTable) -> u8
    ensures { result ≡ width_of (rule_of rule.now) }
{
    match rule.hook_word() {
        Some(word) => word.len(),
        None => 0,
    }
}

/// Whether each word of the node has this length.
fn has_width(rule: &RuleTable, node: u8, width: u8) -> bool
    requires { width ≡ width_of (rule_of rule.now) }
    ensures { IsTrue result ↔ HasWidth (rule_of rule.now) node }
{
    has_length(rule.word(Side::Left, node), width)
        && has_length(rule.word(Side::Right, node), width)
}

/// Whether the word has this length, where there is one.
fn has_length(word: Option<Word>, wanted: u8) -> bool
    ensures { IsTrue result ↔ MatchOption word (Unit {0}) (λ letters. length letters ≡ wanted) }
{
    match word {
        Some(word) => word.len() == wanted,
        None => true,
    }
}

/// The first left node that isn't joined to a hook.
fn check_connected(rule: &RuleTable) -> Result<(), RuleFault>
    requires nodes { length (rule_of rule.now).nodes ≤ MOST_NODES }
    requires hooks { All (λ h. h < MOST_NODES) rule.now.hooks }
    requires ends { HasEndsBelow32 rule.now.left_links }
    ensures { MatchResult result
        (λ _. AreGood (IsConnected (rule_of rule.now)) (length (rule_of rule.now).nodes))
        (λ fault. IsFirstFault (IsConnected (rule_of rule.now)) (length (rule_of rule.now).nodes) (λ x. RuleFault.NotConnected x) fault) }
{
    let joined = joined_to(rule.hooks.as_slice(), rule.left_links.as_slice());
    for node in 0..rule.node_count() {
        if rule.word(Side::Left, node).is_some() && !joined[node as usize] {
            return Err(RuleFault::NotConnected { node });
        }
    }
    Ok(())
}
