//! The steps of a rule whose arcs an application writes, and the nodes that it removes.
ghost use Rattle.std.specs.Prelude.{◌≡◌, ℕ, ◌<◌, ◌≤◌, ◌↔◌, length, IfOk, IsTrue};
ghost use Rattle.gm_model.specs.declared.rule.Side.TheVariants.{Left, Right};
ghost use Rattle.gm_model.specs.Rules.{rule_of, has_word, is_removed};
ghost use Rattle.gm_plan.specs.inner.Changes.{AreMadeLabels, AreRemovedNodes, MakesNone, freed_step, is_steady, made_step};
ghost use Rattle.gm_plan.specs.inner.Plans.{AreRows, AreSteps};
ghost use Rattle.gm_model.specs.declared.limit.TheConstants.{MOST_LABELS, MOST_NODES};

use crate::sides::Sides;
use crate::table::{Row, StepAt, rows_of};
use gm_model::{MOST_LABELS, Mask, OutOfMemory, RuleTable, Side, Step};
use std::alloc::Global;

/// The steps that an application frees. The rows have the left steps.
#[derive(Clone, Copy)]
pub struct Freed<'a> {
    pub rule: &'a RuleTable,
    pub left: &'a [Row],
}

impl<'a> StepAt for Freed<'a> {
    ghost can_step = { λ freed node. AreSteps (rule_of freed.rule.now) Left (length (rule_of freed.rule.now).nodes) freed.left.now × node < length (rule_of freed.rule.now).nodes };

    ghost step = { λ freed. freed_step (rule_of freed.rule.now) };

    /// The left step, where it leads to darts that are removed.
    fn step_at(&self, node: u8, label: u8) -> Step {
        if !has_word(self.rule, Side::Left, node) {
            return Step::Absent;
        }
        let step = self.left[node as usize][label as usize];
        let is_freed = match step {
            Step::Absent => false,
            Step::Exp(other) => is_removed(self.rule, other),
            Step::Imp(_) => is_removed(self.rule, node),
        };
        if is_freed { step } else { Step::Absent }
    }
}

/// The steps that an application makes. The rows have the steps of both sides. Those of the right
/// side have a lifetime of their own, since nothing after this table reads them.
#[derive(Clone, Copy)]
pub struct Made<'a, 'b> {
    pub rule: &'a RuleTable,
    pub left: &'a [Row],
    pub right: &'b [Row],
}

impl<'a, 'b> StepAt for Made<'a, 'b> {
    ghost can_step = { λ made node.
        AreSteps (rule_of made.rule.now) Left (length (rule_of made.rule.now).nodes) made.left.now
        × AreSteps (rule_of made.rule.now) Right (length (rule_of made.rule.now).nodes) made.right.now
        × node < length (rule_of made.rule.now).nodes };

    ghost step = { λ made. made_step (rule_of made.rule.now) };

    /// The right step, unless it is steady.
    fn step_at(&self, node: u8, label: u8) -> Step {
        if has_word(self.rule, Side::Right, node)
            && !is_steady(self.rule, self.left, self.right, node, label)
        {
            self.right[node as usize][label as usize]
        } else {
            Step::Absent
        }
    }
}

/// Whether the step is the same on both sides.
fn is_steady(rule: &RuleTable, left: &[Row], right: &[Row], node: u8, label: u8) -> bool
    requires left { AreSteps (rule_of rule.now) Left (length (rule_of rule.now).nodes) left.now }
    requires right { AreSteps (rule_of rule.now) Right (length (rule_of rule.now).nodes) right.now }
    requires node { node < length (rule_of rule.now).nodes }
    requires label { label < MOST_LABELS }
    ensures { result ≡ is_steady (rule_of rule.now) node label }
{
    has_word(rule, Side::Left, node)
        && left[node as usize][label as usize] == right[node as usize][label as usize]
}

/// The steps that an application makes and frees, by node and by label.
#[derive(Drop)]
pub struct Changes {
    pub made: Vec<Row>,
    pub freed: Vec<Row>,
}

/// The steps that an application makes and frees, by those of both sides.
pub fn changes_of(alloc: Global, rule: &RuleTable, sides: &Sides) -> Result<Changes, OutOfMemory>
    requires few { length (rule_of rule.now).nodes ≤ MOST_NODES }
    requires left { AreSteps (rule_of rule.now) Left (length (rule_of rule.now).nodes) sides.now.left.items }
    requires right { AreSteps (rule_of rule.now) Right (length (rule_of rule.now).nodes) sides.now.right.items }
    ensures { IfOk result (λ changes. AreRows (made_step (rule_of rule.now)) (length (rule_of rule.now).nodes) changes.made.items
        × AreRows (freed_step (rule_of rule.now)) (length (rule_of rule.now).nodes) changes.freed.items) }
{
    let nodes = rule.node_count();
    let left = sides.left.as_slice();
    let right = sides.right.as_slice();
    let made = rows_of(alloc, &Made { rule, left, right }, nodes)?;
    let freed = rows_of(alloc, &Freed { rule, left }, nodes)?;
    Ok(Changes { made, freed })
}

/// Which nodes are removed: bit `x` stands for node `x`.
pub fn nodes_removed(rule: &RuleTable) -> u32
    requires { length (rule_of rule.now).nodes ≤ MOST_NODES }
    ensures { AreRemovedNodes (rule_of rule.now) result }
{
    let mut goes = 0;
    for node in 0..rule.node_count() {
        if is_removed(rule, node) {
            goes |= 1 << node;
        }
    }
    goes
}

/// The labels at which some node has a made step, by the rows of these.
pub fn labels_made(rule: &RuleTable, made: &[Row]) -> Mask
    requires few { length (rule_of rule.now).nodes ≤ MOST_NODES }
    requires made { AreRows (made_step (rule_of rule.now)) (length (rule_of rule.now).nodes) made.now }
    ensures { AreMadeLabels (rule_of rule.now) result }
{
    let mut bits = 0;
    for label in 0..MOST_LABELS as u8 {
        if !makes_none(rule, made, label) {
            bits |= 1 << label;
        }
    }
    Mask { bits }
}

/// Whether no node has a made step at the label.
fn makes_none(rule: &RuleTable, made: &[Row], label: u8) -> bool
    requires few { length (rule_of rule.now).nodes ≤ MOST_NODES }
    requires made { AreRows (made_step (rule_of rule.now)) (length (rule_of rule.now).nodes) made.now }
    requires label { label < MOST_LABELS }
    ensures { IsTrue result ↔ MakesNone (rule_of rule.now) label }
{
    for node in 0..rule.node_count() {
        match made[node as usize][label as usize] {
            Step::Absent => {}
            _ => return false,
        }
    }
    true
}

fn is_removed(rule: &RuleTable, node: u8) -> bool
    ensures { result ≡ is_removed (rule_of rule.now) node }
{
    has_word(rule, Side::Left, node) && !has_word(rule, Side::Right, node)
}

fn has_word(rule: &RuleTable, side: Side, node: u8) -> bool
    ensures { result ≡ has_word (rule_of rule.now) side node }
{
    rule.word(side, node).is_some()
}
