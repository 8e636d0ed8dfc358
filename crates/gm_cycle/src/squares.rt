//! The cycle condition tested at one right node, label by label.

ghost use Rattle.std.specs.Prelude.{◌≡◌, ◌↔◌, ◌+◌, ◌<◌, ◌≤◌, ℕ, IsTrue, length, MatchResult};
ghost use Rattle.gm_model.specs.declared.rule.Side.TheVariants.{Right};
ghost use Rattle.gm_model.specs.Rules.{rule_of, has_word};
ghost use Rattle.gm_model.specs.Squares.{IsSquareGood};
ghost use Rattle.gm_cycle.specs.inner.NodeSquares.{TellsStays, HasLabelSquares, HasNodeSquares, IsLabelFault, IsNodeFault};
ghost use Rattle.gm_cycle.specs.inner.StepRows.{HasRows, HasEnds};
ghost use Rattle.gm_model.specs.declared.limit.TheConstants.{MOST_DIMENSION, MOST_LABELS, MOST_NODES};

use crate::steps::{StepRows, closes, step_at};
use gm_model::{MOST_LABELS, RuleFault, RuleTable, Side};

/// The first bad square at the right node, of labels up to the greatest.
pub fn check_node(top: u8, rule: &RuleTable, right: &StepRows, node: u8) -> Result<(), RuleFault>
    requires top { top ≤ MOST_DIMENSION }
    requires right { HasRows (rule_of rule.now) right.now (length (rule_of rule.now).nodes) }
    requires ends { HasEnds right.now (length (rule_of rule.now).nodes) }
    requires nodes { length (rule_of rule.now).nodes ≤ MOST_NODES }
    requires node { node < length (rule_of rule.now).nodes }
    requires on_right { IsTrue (has_word (rule_of rule.now) Right node) }
    ensures { MatchResult result
        (λ _. HasNodeSquares (rule_of rule.now) node (top + 1) (top + 1))
        (λ fault. IsNodeFault (rule_of rule.now) node (top + 1) fault) }
{
    let stays = steps_that_stay(rule, right, node);
    for label in 0..top + 1 {
        check_label(top, rule, right, &stays, node, label)?;
    }
    Ok(())
}

/// The first bad square at the node of label `i` and a greater one.
fn check_label(
    top: u8,
    rule: &RuleTable,
    right: &StepRows,
    stays: &[bool; MOST_LABELS],
    node: u8,
    i: u8,
) -> Result<(), RuleFault>
    requires top { top ≤ MOST_DIMENSION }
    requires i { i ≤ top }
    requires right { HasRows (rule_of rule.now) right.now (length (rule_of rule.now).nodes) }
    requires ends { HasEnds right.now (length (rule_of rule.now).nodes) }
    requires stays { TellsStays (rule_of rule.now) node stays.now }
    requires nodes { length (rule_of rule.now).nodes ≤ MOST_NODES }
    requires node { node < length (rule_of rule.now).nodes }
    requires on_right { IsTrue (has_word (rule_of rule.now) Right node) }
    ensures { MatchResult result
        (λ _. HasLabelSquares (rule_of rule.now) node i (top + 1))
        (λ fault. IsLabelFault (rule_of rule.now) node i (top + 1) fault) }
{
    for j in i + 2..top + 1 {
        if !is_good(rule, right, stays, node, i, j) {
            return Err(RuleFault::Square { node, i, j });
        }
    }
    Ok(())
}

/// Whether the square at the node is as it was, or closes.
fn is_good(
    rule: &RuleTable,
    right: &StepRows,
    stays: &[bool; MOST_LABELS],
    node: u8,
    i: u8,
    j: u8,
) -> bool
    requires i { i < MOST_LABELS }
    requires j { j < MOST_LABELS }
    requires right { HasRows (rule_of rule.now) right.now (length (rule_of rule.now).nodes) }
    requires ends { HasEnds right.now (length (rule_of rule.now).nodes) }
    requires stays { TellsStays (rule_of rule.now) node stays.now }
    requires nodes { length (rule_of rule.now).nodes ≤ MOST_NODES }
    requires node { node < length (rule_of rule.now).nodes }
    requires on_right { IsTrue (has_word (rule_of rule.now) Right node) }
    ensures { IsTrue result ↔ IsSquareGood (rule_of rule.now) node i j }
{
    let is_excused = stays[i as usize] && stays[j as usize];
    is_excused || closes(rule, right, node, i, j)
}

/// At which labels the step of the node is the same on both sides, where it is preserved.
fn steps_that_stay(rule: &RuleTable, right: &StepRows, node: u8) -> [bool; MOST_LABELS]
    requires right { HasRows (rule_of rule.now) right.now (length (rule_of rule.now).nodes) }
    requires nodes { length (rule_of rule.now).nodes ≤ MOST_NODES }
    requires node { node < length (rule_of rule.now).nodes }
    requires on_right { IsTrue (has_word (rule_of rule.now) Right node) }
    ensures { TellsStays (rule_of rule.now) node result }
{
    let mut stays = [false; MOST_LABELS];
    if rule.word(Side::Left, node).is_some() {
        let left = rule.steps(Side::Left, node);
        for label in 0..MOST_LABELS {
            stays[label] = left[label] == step_at(right, node, label as u8);
        }
    }
    stays
}
