//! The right steps of a rule in a table, and whether a square of labels closes there.

ghost use Rattle.std.specs.Prelude.{◌≡◌, ◌<◌, ◌≤◌, ◌↔◌, ℕ, length, IsTrue};
ghost use Rattle.gm_model.specs.Rules.{rule_of, hook_label};
ghost use Rattle.gm_model.specs.Squares.{Closes, IsApart};
ghost use Rattle.gm_cycle.specs.inner.StepRows.{step_of, HasEnds, HasRows};
ghost use Rattle.gm_model.specs.declared.limit.TheConstants.{MOST_LABELS, MOST_NODES};

use gm_model::{Letter, MOST_LABELS, MOST_NODES, RuleTable, Side, Step};

/// The steps of the nodes of a rule on one side, by node and label.
pub type StepRows = [[Step; MOST_LABELS]; MOST_NODES];

/// The right steps of the nodes of the rule.
pub fn right_steps(rule: &RuleTable) -> StepRows
    requires { length (rule_of rule.now).nodes ≤ MOST_NODES }
    ensures { HasRows (rule_of rule.now) result (length (rule_of rule.now).nodes) }
{
    let mut rows = [[Step::Absent; MOST_LABELS]; MOST_NODES];
    for node in 0..rule.node_count() {
        rows[node as usize] = rule.steps(Side::Right, node);
    }
    rows
}

/// What the node has at the label.
pub fn step_at(rows: &StepRows, node: u8, label: u8) -> Step
    requires node { node < MOST_NODES }
    requires label { label < MOST_LABELS }
    ensures { result ≡ step_of rows.now node label }
{
    rows[node as usize][label as usize]
}

/// The label at the place of the first hook's word; 0 where there is none.
fn label_at(rule: &RuleTable, place: u8) -> u8
    ensures { result ≡ hook_label (rule_of rule.now) place }
{
    match rule.hook_word() {
        Some(word) if place < word.len() => match word.letter(place) {
            Letter::At(label) => label,
            Letter::Gone => 0,
        },
        _ => 0,
    }
}

/// Whether the labels differ by two or more.
fn are_apart(i: u8, j: u8) -> bool
    ensures { IsTrue result ↔ IsApart i j }
{
    i.abs_diff(j) >= 2
}

/// Whether the square of the labels closes at the node.
pub fn closes(rule: &RuleTable, rows: &StepRows, node: u8, i: u8, j: u8) -> bool
    requires nodes { length (rule_of rule.now).nodes ≤ MOST_NODES }
    requires node { node < length (rule_of rule.now).nodes }
    requires i { i < MOST_LABELS }
    requires j { j < MOST_LABELS }
    requires ends { HasEnds rows.now (length (rule_of rule.now).nodes) }
    ensures { IsTrue result ↔ Closes (step_of rows.now) (hook_label (rule_of rule.now)) node i j }
{
    match (step_at(rows, node, i), step_at(rows, node, j)) {
        (Step::Exp(y), Step::Exp(z)) => {
            let end = step_at(rows, y, j);
            matches!(end, Step::Exp(_)) && end == step_at(rows, z, i)
        }
        (Step::Exp(y), Step::Imp(place)) => step_at(rows, y, j) == Step::Imp(place),
        (Step::Imp(place), Step::Exp(z)) => step_at(rows, z, i) == Step::Imp(place),
        (Step::Imp(place), Step::Imp(other)) => are_apart(
            label_at(rule, place),
            label_at(rule, other),
        ),
        _ => false,
    }
}
