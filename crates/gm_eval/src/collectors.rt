//! What is collected over an orbit: how many darts it has, and sums and extremes of values.

ghost use Rattle.std.specs.Prelude.{◌≡◌, ◌↔◌, ◌+◌, ◌*◌, ◌<◌, ◌≤◌, ℕ, [], ◌∷◌, ◌++◌, IsSome, IsTrue, MatchOption, Some, false, length};
ghost use Rattle.std.specs.List.{Contains};
ghost use Rattle.gm_model.specs.Expressions.{HasValue};
ghost use Rattle.gm_model.specs.Trees.{Count, Sum, Least, Greatest};
ghost use Rattle.gm_arena.specs.declared.slot.Slot.{Slot};
ghost use Rattle.gm_plan.specs.inner.Placed.{slot_at};
ghost use Rattle.gm_walk.specs.inner.Lent.{bound_of, lender_of, slots_of};
ghost use Rattle.gm_walk.specs.inner.Room.{Fits};
ghost use Rattle.gm_eval.specs.inner.Keeping.{AreKept, collector_at, own_term, tree_of_collector};
ghost use Rattle.gm_eval.specs.inner.Made.{IsNone};
ghost use Rattle.gm_eval.specs.inner.Places.{IsWithinUnits};
ghost use Rattle.gm_eval.specs.inner.Readers.{AddsOnly, AreLeft, IsOfMean, IsOrbit, IsReady, IsValueThere, IsWithin, MeanUnits, OwnUnits, reading_of};
ghost use Rattle.gm_eval.specs.inner.Sharing.{IsOwn, StillKept, own_collector};
ghost use Rattle.gm_eval.specs.declared.kept.Form.TheVariants as forms;
ghost use Rattle.gm_model.specs.declared.value.Value.TheVariants.{Int};

use crate::kept::{Collector, Entries, Form};
use crate::numbers::int;
use crate::reader::Reader;
use crate::totals::{add_up, extremes};
use gm_arena::Steps;
use gm_model::{DartTerm, Mask, Value};
use gm_walk::{Scratch, Walk, walk_mask};
use std::sync::ledger::Ledger;

impl Reader<'_> {
    /// What is collected over the orbit of the term's dart; none where that has no value. It is kept
    /// where it is the same at each position.
    pub(crate) fn collected<L: Ledger>(
        &self,
        form: Form,
        mask: Mask,
        term: &DartTerm,
        embed: u8,
        kept: &mut Entries,
        scratch: &mut Scratch,
        steps: &mut Steps<L>,
    ) -> Option<Value>
        requires ready { IsReady self.now (collector_at form mask term.now embed) }
        requires fits { Fits scratch.old self.now.arena.now }
        requires kept { AreKept self.now.arena.now self.now.found.now self.now.params.now kept.old }
        ensures value { IsValueThere self.now (collector_at form mask term.now embed) result }
        ensures cost { IsWithin self.now (OwnUnits self.now kept.old form mask term.now embed) steps.old steps.new }
        ensures least { steps.old ≤ steps.new }
        ensures room { scratch.new.bound ≡ scratch.old.bound }
        ensures kept { AreKept self.now.arena.now self.now.found.now self.now.params.now kept.new }
        ensures stays { StillKept kept.old kept.new }
        ensures adds { AddsOnly (own_collector form mask term.now embed) kept.old kept.new }
        ensures left { AreLeft self.now (IsOwn form mask term.now embed) kept.new }
    {
        if is_keepable(term, kept) {
            self.kept_or_computed(form, mask, term, embed, kept, scratch, steps)
        } else {
            self.computed(form, mask, term, embed, scratch, steps)
        }
    }

    /// What is collected over the orbit of a node's own dart. It isn't walked where the value is kept.
    fn kept_or_computed<L: Ledger>(
        &self,
        form: Form,
        mask: Mask,
        term: &DartTerm,
        embed: u8,
        kept: &mut Entries,
        scratch: &mut Scratch,
        steps: &mut Steps<L>,
    ) -> Option<Value>
        requires ready { IsReady self.now (collector_at form mask term.now embed) }
        requires fits { Fits scratch.old self.now.arena.now }
        requires kept { AreKept self.now.arena.now self.now.found.now self.now.params.now kept.old }
        requires open { IsSome kept.old }
        requires own { term.now.path ≡ [] }
        ensures value { IsValueThere self.now (collector_at form mask term.now embed) result }
        ensures cost { IsWithin self.now (OwnUnits self.now kept.old form mask term.now embed) steps.old steps.new }
        ensures least { steps.old ≤ steps.new }
        ensures room { scratch.new.bound ≡ scratch.old.bound }
        ensures kept { AreKept self.now.arena.now self.now.found.now self.now.params.now kept.new }
        ensures stays { StillKept kept.old kept.new }
        ensures adds { AddsOnly (own_collector form mask term.now embed) kept.old kept.new }
        ensures left { AreLeft self.now (IsOwn form mask term.now embed) kept.new }
    {
        let collector = Collector {
            form,
            mask,
            node: term.node,
            embed,
        };
        if let Some(value) = kept.find(collector) {
            return value;
        }
        let value = self.computed(form, mask, term, embed, scratch, steps);
        self.keep(collector, value, kept, scratch);
        value
    }

    /// The sum of the embedding's values over the orbit of the term's dart, and how many darts the
    /// orbit has, as `collected` gives them. The orbit is walked once.
    pub(crate) fn mean_parts<L: Ledger>(
        &self,
        mask: Mask,
        term: &DartTerm,
        embed: u8,
        kept: &mut Entries,
        scratch: &mut Scratch,
        steps: &mut Steps<L>,
    ) -> (Option<Value>, Option<Value>)
        requires ready { IsReady self.now (Sum mask term.now embed) }
        requires fits { Fits scratch.old self.now.arena.now }
        requires kept { AreKept self.now.arena.now self.now.found.now self.now.params.now kept.old }
        ensures sum { IsValueThere self.now (Sum mask term.now embed) result.0 }
        ensures count { IsValueThere self.now (Count mask term.now) result.1 }
        ensures cost { IsWithin self.now (MeanUnits self.now kept.old mask term.now embed) steps.old steps.new }
        ensures once { IsWithinUnits (reading_of self.now) (Sum mask term.now embed) steps.old steps.new }
        ensures least { steps.old ≤ steps.new }
        ensures room { scratch.new.bound ≡ scratch.old.bound }
        ensures kept { AreKept self.now.arena.now self.now.found.now self.now.params.now kept.new }
        ensures stays { StillKept kept.old kept.new }
        ensures adds { AddsOnly (own_collector forms.Sum mask term.now embed ++ own_collector forms.Count mask term.now 0) kept.old kept.new }
        ensures left { AreLeft self.now (IsOfMean mask term.now embed) kept.new }
    {
        if is_keepable(term, kept) {
            self.kept_mean_parts(mask, term, embed, kept, scratch, steps)
        } else {
            self.sum_and_count(mask, term, embed, scratch, steps)
        }
    }

    /// The parts of a mean over the orbit of a node's own dart. It isn't walked where both are kept.
    fn kept_mean_parts<L: Ledger>(
        &self,
        mask: Mask,
        term: &DartTerm,
        embed: u8,
        kept: &mut Entries,
        scratch: &mut Scratch,
        steps: &mut Steps<L>,
    ) -> (Option<Value>, Option<Value>)
        requires ready { IsReady self.now (Sum mask term.now embed) }
        requires fits { Fits scratch.old self.now.arena.now }
        requires kept { AreKept self.now.arena.now self.now.found.now self.now.params.now kept.old }
        requires open { IsSome kept.old }
        requires own { term.now.path ≡ [] }
        ensures sum { IsValueThere self.now (Sum mask term.now embed) result.0 }
        ensures count { IsValueThere self.now (Count mask term.now) result.1 }
        ensures cost { IsWithin self.now (MeanUnits self.now kept.old mask term.now embed) steps.old steps.new }
        ensures once { IsWithinUnits (reading_of self.now) (Sum mask term.now embed) steps.old steps.new }
        ensures least { steps.old ≤ steps.new }
        ensures room { scratch.new.bound ≡ scratch.old.bound }
        ensures kept { AreKept self.now.arena.now self.now.found.now self.now.params.now kept.new }
        ensures stays { StillKept kept.old kept.new }
        ensures adds { AddsOnly (own_collector forms.Sum mask term.now embed ++ own_collector forms.Count mask term.now 0) kept.old kept.new }
        ensures left { AreLeft self.now (IsOfMean mask term.now embed) kept.new }
    {
        let sum_of = Collector {
            form: Form::Sum,
            mask,
            node: term.node,
            embed,
        };
        let count_of = Collector {
            form: Form::Count,
            mask,
            node: term.node,
            embed: 0,
        };
        if let Some(parts) = kept.find_both(sum_of, count_of) {
            return parts;
        }
        let (sum, count) = self.sum_and_count(mask, term, embed, scratch, steps);
        self.keep(sum_of, sum, kept, scratch);
        self.keep(count_of, count, kept, scratch);
        (sum, count)
    }

    /// Keeps the value of a collector whose orbit was just walked, where it is the same at each
    /// position: where the orbit holds the node's dart of each.
    fn keep(
        &self,
        collector: Collector,
        value: Option<Value>,
        kept: &mut Entries,
        scratch: &Scratch,
    )
        requires ready { IsReady self.now (tree_of_collector collector) }
        requires walked { IsOrbit self.now collector.mask (own_term collector.node) scratch.now.walked }
        requires value { IsValueThere self.now (tree_of_collector collector) value }
        requires open { IsSome kept.old }
        requires kept { AreKept self.now.arena.now self.now.found.now self.now.params.now kept.old }
        ensures kept { AreKept self.now.arena.now self.now.found.now self.now.params.now kept.new }
        ensures open { IsSome kept.new }
        ensures stays { StillKept kept.old kept.new }
        ensures adds { AddsOnly (collector ∷ []) kept.old kept.new }
        ensures left { AreLeft self.now (λ c. c ≡ collector) kept.new }
    {
        if self.is_walked(collector.node, scratch) {
            kept.keep(collector, value);
        }
    }

    /// Whether the node's dart of each position was walked.
    fn is_walked(&self, node: u8, scratch: &Scratch) -> bool
        requires node { node < self.now.found.now.nodes }
        ensures all { IsTrue result → (p : ℕ) → p < self.now.found.now.positions → (slot : Slot) × (slot_at self.now.found.now node p ≡ Some slot) × Contains scratch.now.walked slot }
        ensures missing { result ≡ false → (p : ℕ) × (p < self.now.found.now.positions) × (slot : Slot) × (slot_at self.now.found.now node p ≡ Some slot) × (Contains scratch.now.walked slot → ⊥) }
    {
        for position in 0..self.found.positions() {
            let slot = self.found.slot(node, position);
            let Some(_) = scratch.place(slot) else {
                return false;
            };
        }
        true
    }

    /// What is collected over the orbit of the term's dart, which is walked.
    fn computed<L: Ledger>(
        &self,
        form: Form,
        mask: Mask,
        term: &DartTerm,
        embed: u8,
        scratch: &mut Scratch,
        steps: &mut Steps<L>,
    ) -> Option<Value>
        requires ready { IsReady self.now (collector_at form mask term.now embed) }
        requires fits { Fits scratch.old self.now.arena.now }
        ensures value { IsValueThere self.now (collector_at form mask term.now embed) result }
        ensures cost { IsWithinUnits (reading_of self.now) (collector_at form mask term.now embed) steps.old steps.new }
        ensures least { steps.old ≤ steps.new }
        ensures room { scratch.new.bound ≡ scratch.old.bound }
        ensures walked { IsOrbit self.now mask term.now scratch.new.walked }
    {
        match form {
            Form::Count => self.count(mask, term, scratch, steps),
            Form::Sum => self.sum_and_count(mask, term, embed, scratch, steps).0,
            Form::Least => {
                let (least, _) = self.extremes(mask, term, embed, scratch, steps);
                Some(Value::Int(least))
            }
            Form::Greatest => {
                let (_, greatest) = self.extremes(mask, term, embed, scratch, steps);
                Some(Value::Int(greatest))
            }
        }
    }

    /// The walk of the orbit of the term's dart.
    fn orbit<'s, L: Ledger>(
        &self,
        mask: Mask,
        term: &DartTerm,
        scratch: &'s mut Scratch,
        steps: &mut Steps<L>,
    ) -> Walk<'s>
        requires ready { IsReady self.now (Count mask term.now) }
        requires fits { Fits scratch.old self.now.arena.now }
        ensures orbit { IsOrbit self.now mask term.now (slots_of result) }
        ensures cost { steps.new ≤ steps.old + length term.now.path + 4 * (self.now.arena.now.schema.dim + 1) * length (slots_of result) }
        ensures least { steps.old ≤ steps.new }
        ensures room { bound_of result ≡ scratch.old.bound }
        ensures lender { lender_of result ≡ scratch.entry.ghost_name }
    {
        let from = self.slot(term, steps);
        walk_mask(self.arena, from, mask, scratch, steps)
    }

    /// How many darts the orbit of the term's dart has.
    fn count<L: Ledger>(
        &self,
        mask: Mask,
        term: &DartTerm,
        scratch: &mut Scratch,
        steps: &mut Steps<L>,
    ) -> Option<Value>
        requires ready { IsReady self.now (Count mask term.now) }
        requires fits { Fits scratch.old self.now.arena.now }
        ensures value { MatchOption result (IsNone (HasValue (reading_of self.now) (Count mask term.now))) (HasValue (reading_of self.now) (Count mask term.now)) }
        ensures cost { IsWithinUnits (reading_of self.now) (Count mask term.now) steps.old steps.new }
        ensures least { steps.old ≤ steps.new }
        ensures room { scratch.new.bound ≡ scratch.old.bound }
        ensures walked { IsOrbit self.now mask term.now scratch.new.walked }
    {
        let walk = self.orbit(mask, term, scratch, steps);
        int(walk.slots().len() as i128)
    }

    /// The sum of the embedding's values over the orbit of the term's dart, and how many darts the
    /// orbit has. It is walked once.
    fn sum_and_count<L: Ledger>(
        &self,
        mask: Mask,
        term: &DartTerm,
        embed: u8,
        scratch: &mut Scratch,
        steps: &mut Steps<L>,
    ) -> (Option<Value>, Option<Value>)
        requires ready { IsReady self.now (Sum mask term.now embed) }
        requires fits { Fits scratch.old self.now.arena.now }
        ensures sum { MatchOption result.0 (IsNone (HasValue (reading_of self.now) (Sum mask term.now embed))) (HasValue (reading_of self.now) (Sum mask term.now embed)) }
        ensures count { MatchOption result.1 (IsNone (HasValue (reading_of self.now) (Count mask term.now))) (HasValue (reading_of self.now) (Count mask term.now)) }
        ensures cost { IsWithinUnits (reading_of self.now) (Sum mask term.now embed) steps.old steps.new }
        ensures least { steps.old ≤ steps.new }
        ensures room { scratch.new.bound ≡ scratch.old.bound }
        ensures walked { IsOrbit self.now mask term.now scratch.new.walked }
    {
        let walk = self.orbit(mask, term, scratch, steps);
        let kind = self.arena.schema().embeds.as_slice()[embed as usize].kind;
        let count = int(walk.slots().len() as i128);
        let sum = add_up(self.arena, walk.slots(), embed, steps).value(kind);
        (sum, count)
    }

    /// The least of the embedding's numbers over the orbit of the term's dart, and the greatest.
    fn extremes<L: Ledger>(
        &self,
        mask: Mask,
        term: &DartTerm,
        embed: u8,
        scratch: &mut Scratch,
        steps: &mut Steps<L>,
    ) -> (i64, i64)
        requires ready { IsReady self.now (Least mask term.now embed) }
        requires fits { Fits scratch.old self.now.arena.now }
        ensures least { HasValue (reading_of self.now) (Least mask term.now embed) (Int result.0) }
        ensures greatest { HasValue (reading_of self.now) (Greatest mask term.now embed) (Int result.1) }
        ensures cost { IsWithinUnits (reading_of self.now) (Least mask term.now embed) steps.old steps.new }
        ensures not_less { steps.old ≤ steps.new }
        ensures room { scratch.new.bound ≡ scratch.old.bound }
        ensures walked { IsOrbit self.now mask term.now scratch.new.walked }
    {
        let walk = self.orbit(mask, term, scratch, steps);
        extremes(self.arena, walk.slots(), embed, steps)
    }
}

/// Whether a collector over the orbit of the term's dart may be kept: of a node's own dart, where
/// values are kept.
fn is_keepable(term: &DartTerm, kept: &Entries) -> bool
    ensures { IsTrue result ↔ (IsSome kept.now × (term.now.path ≡ [])) }
{
    kept.is_open() && term.path.as_slice().is_empty()
}
