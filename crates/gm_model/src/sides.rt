//! What a rule has on one of its sides: links, words, and the steps that they make.

ghost use Rattle.std.specs.Prelude.{◌≡◌, ◌<◌, ℕ, List, [], length, slice_index_or, slice_set};
ghost use Rattle.gm_model.specs.Rules.{step_in};
ghost use Rattle.gm_model.specs.inner.NodeSteps.{step_or, letter_step};
ghost use Rattle.gm_model.specs.declared.limit.TheConstants.{MOST_LABELS};

use crate::limit::MOST_LABELS;
use crate::rule::{Link, RuleTable, Side};
use crate::step::Step;
use crate::word::{Letter, Word};

impl RuleTable {
    ghost use Rattle.gm_model.specs.declared.limit.TheConstants.{MOST_LABELS};
    ghost use Rattle.std.specs.Prelude.{◌≡◌, ◌<◌, ◌≤◌, ℕ, Some, length, slice_get};
    ghost use Rattle.std.specs.Option.{option_and_then};
    ghost use Rattle.gm_model.specs.declared.rule.Side.TheVariants.{Left};
    ghost use Rattle.gm_model.specs.Rules.{rule_of, links_on, word_at, first_hook, step};

    /// The number of nodes.
    pub fn node_count(&self) -> u8
        requires { length (rule_of self.now).nodes ≤ 255 }
        ensures { result ≡ length (rule_of self.now).nodes }
    {
        self.nodes.as_slice().len() as u8
    }

    /// The links of the side.
    pub fn links(&self, side: Side) -> &[Link]
        ensures { result.now ≡ links_on (rule_of self.now) side }
    {
        match side {
            Side::Left => self.left_links.as_slice(),
            Side::Right => self.right_links.as_slice(),
        }
    }

    /// The word of a node on the side; none where it is no node of the side.
    pub fn word(&self, side: Side, node: u8) -> Option<Word>
        ensures { result ≡ word_at (rule_of self.now) side node }
    {
        let node = self.nodes.as_slice().get(node as usize)?;
        match side {
            Side::Left => node.left,
            Side::Right => node.right,
        }
    }

    /// The left word of the first hook; none in a creation rule.
    pub fn hook_word(&self) -> Option<Word>
        ensures { result ≡ option_and_then (word_at (rule_of self.now) Left) (first_hook (rule_of self.now)) }
    {
        let hook = *self.hooks.as_slice().first()?;
        self.word(Side::Left, hook)
    }

    /// What the node has at each label on the side.
    pub fn steps(&self, side: Side, node: u8) -> [Step; MOST_LABELS]
        ensures { (i : ℕ) → i < MOST_LABELS → slice_get result i ≡ Some (step (rule_of self.now) side node i) }
    {
        let mut steps = link_steps(self.links(side), node);
        if let Some(word) = self.word(side, node) {
            add_letters(&mut steps, &word);
        }
        steps
    }
}

/// What the links give the node at each label.
fn link_steps(links: &[Link], node: u8) -> [Step; MOST_LABELS]
    ensures { (i : ℕ) → i < MOST_LABELS → slice_index_or result i Step.Absent ≡ step_in links.now [] node i }
{
    let mut steps = [Step::Absent; MOST_LABELS];
    for link in links {
        if link.from == node {
            fill(&mut steps, link.label, Step::Exp(link.to));
        } else if link.to == node {
            fill(&mut steps, link.label, Step::Exp(link.from));
        }
    }
    steps
}

/// Adds the word's letters, at the labels where no link stands.
fn add_letters(steps: &mut [Step; MOST_LABELS], word: &Word)
    ensures { (i : ℕ) → i < MOST_LABELS → slice_index_or steps.new i Step.Absent ≡ step_or (slice_index_or steps.old i Step.Absent) (letter_step word.now i) }
{
    for place in 0..word.len() {
        if let Letter::At(label) = word.letter(place) {
            fill(steps, label, Step::Imp(place));
        }
    }
}

/// Writes the step at the label, where there is none yet.
fn fill(steps: &mut [Step; MOST_LABELS], label: u8, step: Step)
    ensures after { steps.new ≡ slice_set steps.old label (step_or (slice_index_or steps.old label Step.Absent) step) }
    ensures len { length steps.new ≡ 8 }
{
    let place = label as usize;
    if place < MOST_LABELS && matches!(steps[place], Step::Absent) {
        steps[place] = step;
    }
}
