//! The changes that make an application's result, with the memory that they take.

ghost use Rattle.std.specs.Prelude.{◌≡◌, ℕ, ◌+◌, ◌*◌, ◌<◌, ◌≤◌, length, IfOk};
ghost use Rattle.gm_commit.specs.inner.InstanceEdits.{AreAlike, told_by, rewrite_of};
ghost use Rattle.gm_commit.specs.inner.EditLists.{AreEditsOf, IsReachedSumIn};
ghost use Rattle.gm_pending.specs.inner.Results.{AllGiven, rule_in};

use crate::new_darts::added_values;
use crate::rewrite::Rewrite;
use gm_arena::{Slot, Steps};
use gm_model::{OutOfMemory, Value};
use gm_pending::{OrbitsByEmbed, Pending};
use std::alloc::Global;
use std::marker::Model;
use std::sync::ledger::Ledger;

/// That the dart at the slot has the value of the embedding.
#[derive(Clone, Copy)]
pub(crate) struct ValueAt {
    pub(crate) slot: Slot,
    pub(crate) embed: u8,
    pub(crate) value: Value,
}

/// The changes that make an application's result of its arena. They hold all the memory that the
/// commit needs, and borrow what tells them: the plan, and the instances of its rule.
#[derive(Drop)]
pub struct Changes<'a> {
    pub(crate) rewrite: Rewrite<'a>,
    pub(crate) added: usize,
    /// The values of the new darts: those of one dart after those of another, by their number, one
    /// for each embedding.
    pub(crate) added_values: Vec<Value>,
    /// What decides the values that darts of the old map get.
    pub(crate) orbits: OrbitsByEmbed,
    /// The slots of the left nodes, by node and then by position, and room for those of the new
    /// darts after them.
    pub(crate) slots: Vec<Slot>,
}

impl<'a> Model for Changes<'a> {
    ghost use Rattle.std.specs.Prelude.{◌≡◌, ◌+◌, ◌≤◌, length};
    ghost use Rattle.std.specs.Vec.{vec_capacity};
    ghost use Rattle.gm_commit.specs.inner.InstanceEdits.{told_by, left_slots};
    ghost use Rattle.gm_commit.specs.inner.EditLists.{EditLists, AreDistinct};
    ghost use Rattle.gm_commit.specs.inner.OldDartValues.{lists_told, values_told};

    ghost Value = { EditLists };

    ghost view = { λ c. lists_told (told_by c.rewrite) c.added c.added_values.items (values_told c.orbits.items) };

    ghost invariant = { λ c. (c.slots.items ≡ left_slots (told_by c.rewrite)) × (length c.slots.items + c.added ≤ vec_capacity c.slots) × AreDistinct c.slots.items × (length c.orbits.items ≤ 255) };
}

impl<'a> Changes<'a> {
    /// Gathers the changes that make the arena the result. Each embedding was asked for, and each of its
    /// deciding instances has a value. The vector is taken for its room alone.
    #[inline]
    pub fn gather<L: Ledger>(
        alloc: Global,
        pending: Pending<'a, '_>,
        mut slots: Vec<Slot>,
        steps: &mut Steps<L>,
    ) -> Result<Changes<'a>, OutOfMemory>
        requires given { AllGiven pending }
        ensures edits { IfOk result (λ edits. AreEditsOf pending.entry edits) }
        ensures cost { (reached : ℕ) → IsReachedSumIn pending.entry reached → steps.new ≤ steps.old + 6 * (pending.entry.map.schema.dim + 1) * (length (rule_in pending.entry).nodes * pending.entry.placed.positions + reached + 1) }
        ensures least { steps.old ≤ steps.new }
    {
        let new_nodes = pending.plan().added();
        let added = new_nodes as usize * pending.positions() as usize;
        let rewrite = rewrite_of(&pending);
        rewrite.left_slots(pending.left_nodes(), new_nodes, &mut slots)?;
        let added_values = added_values(alloc, &pending, added, steps)?;
        let orbits = pending.into_orbits();
        Ok(Changes {
            rewrite,
            added,
            added_values,
            orbits,
            slots,
        })
    }
}

/// What the rule of a pending result changes, at its instances.
#[inline]
fn rewrite_of<'a>(pending: &Pending<'a, '_>) -> Rewrite<'a>
    ensures { AreAlike (told_by result) (rewrite_of pending.now) }
{
    let plan = pending.plan();
    Rewrite {
        dim: plan.schema().dim.top(),
        removes: plan.removed() > 0,
        goes: plan.nodes_that_go(),
        freed: plan.freed_rows(),
        made: plan.made_rows(),
        found: pending.found(),
    }
}
