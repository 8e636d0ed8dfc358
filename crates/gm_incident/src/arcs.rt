//! The arcs at the nodes of a rule: which label is there twice, missing, or on one side alone.

ghost use Rattle.std.specs.Prelude.{◌≡◌, ◌+◌, ◌<◌, ◌≤◌, ℕ, ◌↔◌, length, slice_index, MatchResult};
ghost use Rattle.gm_model.specs.Rules.{rule_of};
ghost use Rattle.gm_model.specs.Structure.{AreGood, HasArcs, IsArcFault, IsNodeArcFault};
ghost use Rattle.gm_incident.specs.inner.Faults.{IsFirstFault};
ghost use Rattle.gm_incident.specs.inner.Ranges.{HasLabels, HasSomeWord};
ghost use Rattle.gm_model.specs.declared.limit.TheConstants.{MOST_DIMENSION, MOST_NODES};

use crate::counts::{Counts, arc_counts};
use gm_model::{RuleFault, RuleTable, Side};

/// The first fault of the arcs at the nodes of a rule, with labels up to the greatest.
pub fn check_arcs(top: u8, rule: &RuleTable) -> Result<(), RuleFault>
    requires top { top ≤ MOST_DIMENSION }
    requires nodes { length (rule_of rule.now).nodes ≤ MOST_NODES }
    requires some_word { (x : ℕ) → x < length (rule_of rule.now).nodes → HasSomeWord (rule_of rule.now) x }
    requires labels { HasLabels (rule_of rule.now) }
    ensures { MatchResult result
        (λ _. AreGood (HasArcs top (rule_of rule.now)) (length (rule_of rule.now).nodes))
        (λ fault. IsArcFault top (rule_of rule.now) fault) }
{
    for node in 0..rule.node_count() {
        check_node(top, rule, node)?;
    }
    Ok(())
}

/// The first fault of the arcs at the node, up to the greatest label.
fn check_node(top: u8, rule: &RuleTable, node: u8) -> Result<(), RuleFault>
    requires top { top ≤ MOST_DIMENSION }
    requires some_word { HasSomeWord (rule_of rule.now) node }
    requires labels { HasLabels (rule_of rule.now) }
    ensures { MatchResult result
        (λ _. HasArcs top (rule_of rule.now) node)
        (λ fault. IsNodeArcFault top (rule_of rule.now) node fault) }
{
    let left = arc_counts(rule, Side::Left, node);
    let right = arc_counts(rule, Side::Right, node);
    check_once(top, node, Side::Left, &left)?;
    check_once(top, node, Side::Right, &right)?;
    match (rule.word(Side::Left, node), rule.word(Side::Right, node)) {
        (Some(_), Some(_)) => check_both(top, node, &left, &right),
        (Some(_), None) => check_each(top, node, &left),
        (None, _) => check_each(top, node, &right),
    }
}

/// The first label that stands twice on the side.
fn check_once(top: u8, node: u8, side: Side, counts: &Counts) -> Result<(), RuleFault>
    requires { top ≤ MOST_DIMENSION }
    ensures { MatchResult result
        (λ _. AreGood (λ i. slice_index counts.now i ≤ 1) (top + 1))
        (λ fault. IsFirstFault (λ i. slice_index counts.now i ≤ 1) (top + 1) (λ i. RuleFault.ArcTwice node i side) fault) }
{
    for label in 0..top + 1 {
        if counts[label as usize] > 1 {
            return Err(RuleFault::ArcTwice { node, label, side });
        }
    }
    Ok(())
}

/// The first label that is missing at a node with one word.
fn check_each(top: u8, node: u8, counts: &Counts) -> Result<(), RuleFault>
    requires { top ≤ MOST_DIMENSION }
    ensures { MatchResult result
        (λ _. AreGood (λ i. 0 < slice_index counts.now i) (top + 1))
        (λ fault. IsFirstFault (λ i. 0 < slice_index counts.now i) (top + 1) (λ i. RuleFault.ArcMissing node i) fault) }
{
    for label in 0..top + 1 {
        if counts[label as usize] == 0 {
            return Err(RuleFault::ArcMissing { node, label });
        }
    }
    Ok(())
}

/// The first label that a node with two words has on one side alone.
fn check_both(top: u8, node: u8, left: &Counts, right: &Counts) -> Result<(), RuleFault>
    requires { top ≤ MOST_DIMENSION }
    ensures { MatchResult result
        (λ _. AreGood (λ i. (0 < slice_index left.now i) ↔ (0 < slice_index right.now i)) (top + 1))
        (λ fault. IsFirstFault (λ i. (0 < slice_index left.now i) ↔ (0 < slice_index right.now i)) (top + 1) (λ i. RuleFault.ArcSetDiffers node i) fault) }
{
    for label in 0..top + 1 {
        if (left[label as usize] == 0) != (right[label as usize] == 0) {
            return Err(RuleFault::ArcSetDiffers { node, label });
        }
    }
    Ok(())
}
