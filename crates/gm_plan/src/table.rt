//! The table that has a step for each node at each label.
ghost use Rattle.std.specs.Prelude.{◌≡◌, ℕ, ◌<◌, Some, slice_get, IfOk};
ghost use Rattle.gm_model.specs.declared.step.Step.{Step};
ghost use Rattle.gm_plan.specs.inner.Plans.{AreRows};
ghost use Rattle.gm_model.specs.declared.limit.TheConstants.{MOST_LABELS};

use gm_model::{MOST_LABELS, OutOfMemory, Step};
use std::alloc::Global;

/// The steps of one node, by label.
pub type Row = [Step; MOST_LABELS];

/// What gives nodes their steps. Contracts see which nodes it may be asked for, and the steps.
pub trait StepAt {
    ghost can_step: { Self → ℕ → Type 0 };

    ghost step: { Self → ℕ → ℕ → Step };

    /// The step of the node at the label.
    fn step_at(&self, node: u8, label: u8) -> Step
        requires node { can_step self.now node }
        requires label { label < MOST_LABELS }
        ensures { result ≡ step self.now node label };
}

/// The rows of the first nodes.
pub fn rows_of<S: StepAt>(alloc: Global, steps: &S, count: u8) -> Result<Vec<Row>, OutOfMemory>
    requires { (node : ℕ) → node < count → S.can_step steps.now node }
    ensures { IfOk result (λ rows. AreRows (S.step steps.now) count rows.items) }
{
    let mut rows = Vec::new(alloc);
    for node in 0..count {
        rows.push(row_of(steps, node))?;
    }
    Ok(rows)
}

/// What the node has at each label.
fn row_of<S: StepAt>(steps: &S, node: u8) -> Row
    requires { S.can_step steps.now node }
    ensures { (i : ℕ) → i < MOST_LABELS → slice_get result i ≡ Some (S.step steps.now node i) }
{
    let mut row = [Step::Absent; MOST_LABELS];
    for label in 0..MOST_LABELS as u8 {
        row[label as usize] = steps.step_at(node, label);
    }
    row
}
