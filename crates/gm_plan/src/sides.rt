//! The steps of a rule's nodes on both sides, in tables, and counts of its nodes.

ghost use Rattle.std.specs.Prelude.{◌≡◌, ℕ, ◌<◌, ◌≤◌, length, IfOk, IsTrue};
ghost use Rattle.gm_model.specs.declared.rule.Side.TheVariants.{Left, Right};
ghost use Rattle.gm_model.specs.Rules.{rule_of, has_word};
ghost use Rattle.gm_model.specs.Unfolding.{added_nodes};
ghost use Rattle.gm_plan.specs.inner.Counts.{removed_nodes};
ghost use Rattle.gm_plan.specs.inner.Plans.{AreSteps, IsLeftCount};
ghost use Rattle.gm_model.specs.declared.limit.TheConstants.{MOST_NODES};

use crate::table::Row;
use gm_model::{OutOfMemory, RuleTable, Side};
use std::alloc::Global;

/// The steps of each node on the side.
fn side_steps(alloc: Global, rule: &RuleTable, side: Side) -> Result<Vec<Row>, OutOfMemory>
    requires { length (rule_of rule.now).nodes ≤ MOST_NODES }
    ensures { IfOk result (λ rows. AreSteps (rule_of rule.now) side (length (rule_of rule.now).nodes) rows.items) }
{
    let mut rows = Vec::new(alloc);
    for node in 0..rule.node_count() {
        rows.push(rule.steps(side, node))?;
    }
    Ok(rows)
}

/// The steps of each node, by side.
#[derive(Drop)]
pub struct Sides {
    pub left: Vec<Row>,
    pub right: Vec<Row>,
}

/// The steps of each node on both sides.
pub fn sides_of(alloc: Global, rule: &RuleTable) -> Result<Sides, OutOfMemory>
    requires { length (rule_of rule.now).nodes ≤ MOST_NODES }
    ensures { IfOk result (λ sides. AreSteps (rule_of rule.now) Left (length (rule_of rule.now).nodes) sides.left.items
        × AreSteps (rule_of rule.now) Right (length (rule_of rule.now).nodes) sides.right.items) }
{
    let left = side_steps(alloc, rule, Side::Left)?;
    let right = side_steps(alloc, rule, Side::Right)?;
    Ok(Sides { left, right })
}

/// How many left nodes the rule has.
pub fn count_left(rule: &RuleTable) -> u8
    requires within { length (rule_of rule.now).nodes ≤ MOST_NODES }
    requires left_first { (x y : ℕ) → x < y → IsTrue (has_word (rule_of rule.now) Left y) → IsTrue (has_word (rule_of rule.now) Left x) }
    ensures { IsLeftCount (rule_of rule.now) result }
{
    for node in 0..rule.node_count() {
        if rule.word(Side::Left, node).is_none() {
            return node;
        }
    }
    rule.node_count()
}

/// How many nodes the rule adds.
pub fn count_added(rule: &RuleTable) -> u8
    requires { length (rule_of rule.now).nodes ≤ MOST_NODES }
    ensures { result ≡ added_nodes (rule_of rule.now) }
{
    let mut added = 0;
    for node in 0..rule.node_count() {
        if rule.word(Side::Left, node).is_none() && rule.word(Side::Right, node).is_some() {
            added += 1;
        }
    }
    added
}

/// How many nodes the rule removes.
pub fn count_removed(rule: &RuleTable) -> u8
    requires { length (rule_of rule.now).nodes ≤ MOST_NODES }
    ensures { result ≡ removed_nodes (rule_of rule.now) }
{
    let mut removed = 0;
    for node in 0..rule.node_count() {
        if rule.word(Side::Left, node).is_some() && rule.word(Side::Right, node).is_none() {
            removed += 1;
        }
    }
    removed
}
