//! The places at which the words of a component join positions.
ghost use Rattle.std.specs.Prelude.{◌≡◌, ◌↔◌, IsTrue, MatchOption};
ghost use Rattle.gm_model.specs.Components.{HasLetterIn};
ghost use Rattle.gm_model.specs.Labels.{has};
ghost use Rattle.gm_model.specs.Rules.{rule_of, width as width_of};
ghost use Rattle.gm_model.specs.Structure.{AreGood, IsFirstBad};
ghost use Rattle.gm_embcheck.specs.inner.Bounds.{HasBounds};
ghost use Rattle.gm_embcheck.specs.inner.NodeSets.{HasLetterAmong, IsCovered};

use crate::component::NodeSet;
use gm_model::{Letter, Mask, RuleTable, Side};

/// The first place at which a node of the component has a right letter of the type, and no node of
/// the left component has a left letter of it.
pub fn first_uncovered(
    rule: &RuleTable,
    mask: Mask,
    component: &NodeSet,
    left: &NodeSet,
) -> Option<u8>
    requires { HasBounds (rule_of rule.now) }
    ensures { MatchOption result
        (AreGood (IsCovered (rule_of rule.now) (has mask) component.now left.now) (width_of (rule_of rule.now)))
        (IsFirstBad (IsCovered (rule_of rule.now) (has mask) component.now left.now) (width_of (rule_of rule.now))) }
{
    for place in 0..width(rule) {
        if !is_covered(rule, mask, component, left, place) {
            return Some(place);
        }
    }
    None
}

/// Whether a node of the left component has a left letter of the type at the place, where a node of
/// the component has a right one.
fn is_covered(rule: &RuleTable, mask: Mask, component: &NodeSet, left: &NodeSet, place: u8) -> bool
    requires { HasBounds (rule_of rule.now) }
    ensures { IsTrue result ↔ IsCovered (rule_of rule.now) (has mask) component.now left.now place }
{
    !has_letter_among(rule, Side::Right, mask, component, place)
        || has_letter_among(rule, Side::Left, mask, left, place)
}

/// The length of the first hook's word, or 0.
fn width(rule: &RuleTable) -> u8
    ensures { result ≡ width_of (rule_of rule.now) }
{
    match rule.hook_word() {
        Some(word) => word.len(),
        None => 0,
    }
}

/// Whether a node of the set has a letter of the type at the place.
fn has_letter_among(rule: &RuleTable, side: Side, mask: Mask, nodes: &NodeSet, place: u8) -> bool
    requires { HasBounds (rule_of rule.now) }
    ensures { IsTrue result ↔ HasLetterAmong (rule_of rule.now) side (has mask) nodes.now place }
{
    for node in 0..rule.node_count() {
        if nodes[node as usize] && has_letter(rule, side, mask, node, place) {
            return true;
        }
    }
    false
}

/// Whether the node has a letter of the type at the place.
fn has_letter(rule: &RuleTable, side: Side, mask: Mask, node: u8, place: u8) -> bool
    requires { HasBounds (rule_of rule.now) }
    ensures { IsTrue result ↔ HasLetterIn (rule_of rule.now) side (has mask) node place }
{
    match rule.word(side, node) {
        Some(word) if place < word.len() => match word.letter(place) {
            Letter::At(label) => mask.has(label),
            Letter::Gone => false,
        },
        _ => false,
    }
}
