//! Where expressions are read, and the darts that they name there.

ghost use Rattle.std.specs.Prelude.{◌≡◌, ◌+◌, ◌≤◌, length};
ghost use Rattle.gm_arena.specs.inner.ArenaMap.{IsAt};
ghost use Rattle.gm_model.specs.Expressions.{HasValue, dart_at};
ghost use Rattle.gm_model.specs.Trees.{Field, Same};
ghost use Rattle.gm_model.specs.declared.value.Value.TheVariants.{Bool as Truth};
ghost use Rattle.gm_eval.specs.inner.Places.{IsWithinUnits};
ghost use Rattle.gm_eval.specs.inner.Readers.{IsHere, IsReady, IsTermHere, reading_of};

use gm_arena::{Arena, Slot, Steps};
use gm_model::{DartTerm, Value};
use gm_plan::Instances;
use std::sync::ledger::Ledger;

/// A position of an application, in the map as it is, with values for the parameters.
#[derive(Clone, Copy)]
pub(crate) struct Reader<'a> {
    pub(crate) arena: &'a Arena,
    pub(crate) found: &'a Instances,
    pub(crate) position: u32,
    pub(crate) params: &'a [Value],
}

impl Reader<'_> {
    /// The slot of the dart that the term names.
    #[inline(always)]
    pub(crate) fn slot<L: Ledger>(&self, term: &DartTerm, steps: &mut Steps<L>) -> Slot
        requires here { IsHere self.now }
        requires term { IsTermHere self.now term.now }
        ensures slot { IsAt self.now.arena.now result.at (dart_at (reading_of self.now) term.now) }
        ensures cost { steps.new ≡ steps.old + length term.now.path }
    {
        let mut slot = self.found.slot(term.node, self.position);
        for label in term.path.as_slice() {
            slot = self.arena.alpha(slot, *label, steps);
        }
        slot
    }

    /// The value of the embedding at the dart that the term names.
    #[inline(always)]
    pub(crate) fn field<L: Ledger>(&self, term: &DartTerm, embed: u8, steps: &mut Steps<L>) -> Value
        requires ready { IsReady self.now (Field term.now embed) }
        ensures value { HasValue (reading_of self.now) (Field term.now embed) result }
        ensures cost { IsWithinUnits (reading_of self.now) (Field term.now embed) steps.old steps.new }
        ensures least { steps.old ≤ steps.new }
    {
        let slot = self.slot(term, steps);
        self.arena.value(slot, embed, steps)
    }

    /// Whether both terms name one dart.
    #[inline(never)]
    pub(crate) fn same<L: Ledger>(
        &self,
        term: &DartTerm,
        other: &DartTerm,
        steps: &mut Steps<L>,
    ) -> bool
        requires ready { IsReady self.now (Same term.now other.now) }
        ensures value { HasValue (reading_of self.now) (Same term.now other.now) (Truth result) }
        ensures cost { IsWithinUnits (reading_of self.now) (Same term.now other.now) steps.old steps.new }
        ensures least { steps.old ≤ steps.new }
    {
        self.slot(term, steps) == self.slot(other, steps)
    }
}
