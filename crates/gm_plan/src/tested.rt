//! The left steps of a rule that a match has to test.
ghost use Rattle.std.specs.Prelude.{◌≡◌, ◌+◌, ◌<◌, ◌≤◌, length, IfOk, OnOk};
ghost use Rattle.std.specs.List.{list_any};
ghost use Rattle.gm_model.specs.declared.rule.Side.TheVariants.{Left};
ghost use Rattle.gm_model.specs.Rules.{rule_of};
ghost use Rattle.gm_plan.specs.inner.Paths.{ArePaths};
ghost use Rattle.gm_plan.specs.inner.Plans.{AreRows, AreSteps, IsPlanned};
ghost use Rattle.gm_plan.specs.inner.Searches.{row_step};
ghost use Rattle.gm_plan.specs.inner.Tested.{AreListed, AreTests, is_end, is_step, is_walked, tested_step};
ghost use Rattle.gm_model.specs.declared.limit.TheConstants.{MOST_LABELS, MOST_NODES};

use crate::paths::{Paths, least_paths};
use crate::table::{Row, StepAt, rows_of};
use gm_model::{Link, OutOfMemory, RuleTable, Schema, Step};
use std::alloc::Global;

/// A left step that a match has to test.
#[derive(Clone, Copy)]
pub struct Test {
    pub node: u8,
    pub label: u8,
    pub step: Step,
}

/// The steps that the rows have at the first labels, by node and label.
fn tests_of(alloc: Global, rows: &[Row], labels: u8) -> Result<Vec<Test>, OutOfMemory>
    requires few { length rows.now ≤ MOST_NODES }
    requires labels { labels ≤ MOST_LABELS }
    ensures { IfOk result (λ tests. AreListed (row_step rows.now) labels (length rows.now) 0 tests.items) }
{
    let mut tests = Vec::new(alloc);
    for node in 0..rows.len() as u8 {
        list_row(&mut tests, rows, node, labels)?;
    }
    Ok(tests)
}

/// Puts the steps of the node's row after those of the rows before it.
fn list_row(tests: &mut Vec<Test>, rows: &[Row], node: u8, labels: u8) -> Result<(), OutOfMemory>
    requires node { node < length rows.now }
    requires labels { labels ≤ MOST_LABELS }
    requires before { AreListed (row_step rows.now) labels node 0 tests.old.items }
    ensures { OnOk result (AreListed (row_step rows.now) labels (node + 1) 0 tests.new.items) }
{
    for label in 0..labels {
        match rows[node as usize][label as usize] {
            Step::Absent => {}
            step => tests.push(Test { node, label, step })?,
        }
    }
    Ok(())
}

/// The left steps that a match has to test. The rows have the left steps, and the links are those
/// that the least paths end with.
#[derive(Clone, Copy)]
pub struct Tested<'a> {
    pub rule: &'a RuleTable,
    pub left: &'a [Row],
    pub links: &'a [Link],
}

impl<'a> StepAt for Tested<'a> {
    ghost can_step = { λ tested node. AreSteps (rule_of tested.rule.now) Left (length (rule_of tested.rule.now).nodes) tested.left.now × node < length (rule_of tested.rule.now).nodes };

    ghost step = { λ tested. tested_step (rule_of tested.rule.now) tested.links.now };

    /// The left step, unless the candidate meets it as it is made.
    fn step_at(&self, node: u8, label: u8) -> Step {
        let step = self.left[node as usize][label as usize];
        if is_walked(self.rule, node, step) || is_on_path(self.links, node, label) {
            Step::Absent
        } else {
            step
        }
    }
}

/// What a match tests, and by what it needs not test the rest.
#[derive(Drop)]
pub struct Testing {
    /// The last links of the least paths, along which a candidate is made.
    pub paths: Paths,
    /// The steps to test, by node and by label.
    pub rows: Vec<Row>,
    /// The same, one after another.
    pub tests: Vec<Test>,
}

/// What a match tests. The rows have the left steps.
pub fn testing_of(
    alloc: Global,
    schema: &Schema,
    rule: &RuleTable,
    left: &[Row],
) -> Result<Testing, OutOfMemory>
    requires planned { IsPlanned schema.now (rule_of rule.now) }
    requires left { AreSteps (rule_of rule.now) Left (length (rule_of rule.now).nodes) left.now }
    ensures { IfOk result (λ testing. ArePaths (rule_of rule.now) testing.paths.items
        × AreRows (tested_step (rule_of rule.now) testing.paths.items) (length (rule_of rule.now).nodes) testing.rows.items
        × AreTests schema.now.dim (rule_of rule.now) testing.tests.items) }
{
    let paths = least_paths(alloc, schema, rule, left)?;
    let links = paths.as_slice();
    let rows = rows_of(alloc, &Tested { rule, left, links }, rule.node_count())?;
    let tests = tests_of(alloc, rows.as_slice(), schema.dim.top() + 1)?;
    Ok(Testing { paths, rows, tests })
}

/// Whether the node is the first hook and turns at the step, as the walk does.
fn is_walked(rule: &RuleTable, node: u8, step: Step) -> bool
    ensures { result ≡ is_walked (rule_of rule.now) node step }
{
    let hooks = rule.hooks.as_slice();
    match step {
        Step::Absent | Step::Exp(_) => false,
        Step::Imp(_) => !hooks.is_empty() && hooks[0] == node,
    }
}

/// Whether one of the links, with the label, leads to the node or from it.
fn is_on_path(paths: &[Link], node: u8, label: u8) -> bool
    ensures { result ≡ list_any (is_end node label) paths.now }
{
    paths.iter().any(|link| link.label == label && (link.from == node || link.to == node))
}

/// Whether the row has a step.
pub fn has_step(row: &[Step]) -> bool
    ensures { result ≡ list_any is_step row.now }
{
    row.iter().any(|step| !matches!(step, Step::Absent))
}
