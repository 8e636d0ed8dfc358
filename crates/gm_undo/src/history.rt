//! The applications that were done to a map, with undo, redo and groups.

ghost use Rattle.std.specs.Prelude.{◌≡◌, ◌≢◌, ℕ, ◌+◌, ◌-◌, ◌≤◌, List, [], ◌∷◌, length, max, Some, None, IfErr, IfOk, MatchResult};
ghost use Rattle.gm_model.specs.Applications.{IsBudget, IsDone};
ghost use Rattle.gm_model.specs.Budgets.{Entries, no_entries, entered, group_entered};
ghost use Rattle.gm_model.specs.Histories as definition;
ghost use Rattle.gm_model.specs.Histories.{Group, no_history, done_at, IsUndone, IsRedone, begun_at, kept, dropped};
ghost use Rattle.gm_model.specs.Kinds.{AreGoodParams};
ghost use Rattle.gm_model.specs.Maps.{IsSound};
ghost use Rattle.gm_model.specs.Rules.{rule_of};
ghost use Rattle.gm_arena.specs.inner.ArenaAsMap.{as_map};
ghost use Rattle.gm_arena.specs.inner.ArenaMap.{ArenaMap};
ghost use Rattle.gm_arena.specs.inner.Lawful.{IsLawful};
ghost use Rattle.gm_match.specs.inner.Outcome.{application_of};
ghost use Rattle.gm_commit.specs.inner.EditLists.{HasSameRows};
ghost use Rattle.gm_apply.specs.declared.refusal.Refusal.TheVariants as refusals;
ghost use Rattle.gm_apply.specs.inner.Outcomes.{IsRefusedFor, StaysInRoom};
ghost use Rattle.gm_undo.specs.inner.Costs.{MayTake};
ghost use Rattle.gm_undo.specs.inner.Standing.{StandsFor};

use crate::entries::{entry_before, entry_behind, go_back, go_on};
use crate::keeping::{Made, keep, kept_end, make_room};
use crate::rows::KeptRows;
use gm_apply::{Applied, Refusal, prepare};
use gm_arena::{Arena, Steps};
use gm_model::{MOST_DARTS, Value};
use gm_plan::Plan;
use gm_walk::Scratch;
use std::alloc::Global;
use std::marker::Model;
use std::sync::ledger::Ledger;

/// The applications that were done to a map, as far as they can be taken back or brought again.
/// Contracts see which rows each of them changed, and `StandsFor` says which maps undo and redo lead
/// to.
#[derive(Drop)]
pub struct History {
    rows: KeptRows,
    changes: Vec<Made>,
    /// How many of the changes are made; the others were taken back.
    made: usize,
    /// Where a group is open, how many changes were made where it began.
    group: Option<usize>,
}

/// There is nothing to take back, or to bring again.
#[derive(Clone, Copy, Debug, PartialEq, Eq)]
pub struct Nothing;

impl Model for History {
    ghost use Rattle.gm_undo.specs.inner.Kept.{HistoryOf, history_code};

    ghost Value = { HistoryOf };

    ghost coded = { history_code };

    ghost use Rattle.gm_undo.specs.inner.Layout.{IsLaidOut, history_of};

    ghost view = { λ h. history_of h.rows h.changes.items h.made h.group };

    ghost invariant = { λ h. IsLaidOut h.rows.rows h.changes.items h.made h.group };
}

impl History {
    /// A history of nothing. It takes no memory.
    pub fn new(alloc: Global) -> History
        ensures history { (m : ArenaMap) → IsLawful m → IsSound (as_map m) → StandsFor result m no_history }
        ensures entries { (dim : ℕ) → MayTake result dim no_entries }
    {
        History {
            rows: KeptRows::new(alloc),
            changes: Vec::new(alloc),
            made: 0,
            group: None,
        }
    }

    /// Applies the plan's rule, as `gm_apply::apply` does, and keeps what it changed, so that it can
    /// be taken back. What was taken back before can then be brought again no more. In an open group
    /// it is taken back together with the group.
    ///
    /// All memory is taken before the map is changed, in the arena as much as `gm_apply::apply` takes.
    /// After a refusal the history is as it was.
    pub fn apply<L: Ledger>(
        &mut self,
        alloc: Global,
        plan: &Plan<'_>,
        arena: &mut Arena,
        hooks: &[u32],
        params: &[Value],
        scratch: &mut Scratch,
        steps: &mut Steps<L>,
    ) -> Result<Applied, Refusal>
        requires stands { (told : definition.History) × StandsFor self.old arena.old told }
        requires schema { arena.old.schema ≡ plan.now.schema }
        requires hooks { length hooks.now ≡ length (rule_of plan.now.table).hooks }
        requires params { AreGoodParams (rule_of plan.now.table) params.now }
        ensures outcome { let app = application_of arena.old (rule_of plan.now.table) hooks.now params.now in MatchResult result
            (λ applied. IsDone app (as_map arena.new) applied.added applied.removed)
            (λ refusal. IsRefusedFor app refusal × HasSameRows arena.old arena.new) }
        ensures history { (told : definition.History) → StandsFor self.old arena.old told → MatchResult result
            (λ _. StandsFor self.new arena.new (done_at (as_map arena.old) told))
            (λ _. StandsFor self.new arena.new told) }
        ensures stays { IfErr result (λ _. self.new ≡ self.old) }
        ensures entries { (told : definition.History) (entries : Entries) (most : ℕ) → StandsFor self.old arena.old told → MayTake self.old arena.old.schema.dim entries
            → IsBudget (application_of arena.old (rule_of plan.now.table) hooks.now params.now) most → IfOk result (λ _. MayTake self.new arena.new.schema.dim (entered told.group most entries)) }
        ensures sound { IsSound (as_map arena.new) }
        ensures schema { arena.new.schema ≡ arena.old.schema }
        ensures most { (most : ℕ) → IsBudget (application_of arena.old (rule_of plan.now.table) hooks.now params.now) most → steps.new ≤ steps.old + most }
        ensures least { IfOk result (λ applied. steps.old + applied.added + applied.removed ≤ steps.new) }
        ensures rises { steps.old ≤ steps.new }
        ensures room { scratch.old.bound ≤ scratch.new.bound }
        ensures untouched { IfErr result (λ refusal. refusal ≢ refusals.OutOfMemory → arena.new ≡ arena.old) }
        ensures spare { IfOk result (λ applied. arena.new.spare + applied.added ≡ max arena.old.spare (applied.added - applied.removed) + applied.removed) }
        ensures reserved { IfOk result (λ applied. arena.new.reserved ≡ max arena.old.reserved (arena.old.next + applied.added)) }
        ensures no_more { IfErr result (λ _. StaysInRoom (application_of arena.old (rule_of plan.now.table) hooks.now params.now) arena.old arena.new) }
        ensures spare_stays { arena.old.count + arena.old.spare ≤ arena.new.count + arena.new.spare }
        ensures reserved_stays { arena.old.reserved ≤ arena.new.reserved }
    {
        let edits = prepare(alloc, plan, arena, hooks, params, scratch, steps)?;
        let applied = edits.applied();
        let kept = kept_end(&self.changes, self.made);
        make_room(&mut self.rows, &mut self.changes, kept, &edits, arena)?;
        self.rows.truncate(kept);
        self.changes.truncate(self.made);
        let begins = match self.group {
            Some(start) => start == self.made,
            None => true,
        };
        let change = keep(&mut self.rows, begins, edits, arena, steps);
        self.changes.push_reserved(change);
        self.made += 1;
        Ok(applied)
    }

    /// Takes the last entry of the past back: the map is again what it was before, its next name
    /// included. No group is open. It takes no memory.
    pub fn undo<L: Ledger>(
        &mut self,
        arena: &mut Arena,
        steps: &mut Steps<L>,
    ) -> Result<(), Nothing>
        requires stands { (told : definition.History) × StandsFor self.old arena.old told × (told.group ≡ None) }
        ensures history { (told : definition.History) → StandsFor self.old arena.old told → MatchResult result
            (λ _. (behind : definition.History) × IsUndone (as_map arena.old) told (as_map arena.new) behind × StandsFor self.new arena.new behind)
            (λ _. (told.past ≡ []) × (self.new ≡ self.old) × (arena.new ≡ arena.old)) }
        ensures most { (entries : Entries) → MayTake self.old arena.old.schema.dim entries → MatchResult result
            (λ _. (most : ℕ) × (rest : List ℕ) × (entries.past ≡ most ∷ rest) × (steps.new ≤ steps.old + most) × MayTake self.new arena.new.schema.dim (record { past = rest; future = most ∷ entries.future; group = entries.group }))
            (λ _. steps.new ≡ steps.old) }
        ensures sound { IsSound (as_map arena.new) }
        ensures schema { arena.new.schema ≡ arena.old.schema }
        ensures rises { steps.old ≤ steps.new }
        ensures spare { arena.new.count + arena.new.spare ≡ arena.old.count + arena.old.spare }
        ensures reserved { arena.new.reserved ≡ arena.old.reserved }
    {
        if self.made == 0 {
            return Err(Nothing);
        }
        let start = entry_before(&self.changes, self.made);
        go_back(&self.rows, &self.changes, start, self.made, arena, steps);
        self.made = start;
        Ok(())
    }

    /// Brings the last entry that was taken back again. No group is open. It takes no memory.
    pub fn redo<L: Ledger>(
        &mut self,
        arena: &mut Arena,
        steps: &mut Steps<L>,
    ) -> Result<(), Nothing>
        requires stands { (told : definition.History) × StandsFor self.old arena.old told × (told.group ≡ None) }
        ensures history { (told : definition.History) → StandsFor self.old arena.old told → MatchResult result
            (λ _. (behind : definition.History) × IsRedone (as_map arena.old) told (as_map arena.new) behind × StandsFor self.new arena.new behind)
            (λ _. (told.future ≡ []) × (self.new ≡ self.old) × (arena.new ≡ arena.old)) }
        ensures most { (entries : Entries) → MayTake self.old arena.old.schema.dim entries → MatchResult result
            (λ _. (most : ℕ) × (rest : List ℕ) × (entries.future ≡ most ∷ rest) × (steps.new ≤ steps.old + most) × MayTake self.new arena.new.schema.dim (record { past = most ∷ entries.past; future = rest; group = entries.group }))
            (λ _. steps.new ≡ steps.old) }
        ensures sound { IsSound (as_map arena.new) }
        ensures schema { arena.new.schema ≡ arena.old.schema }
        ensures rises { steps.old ≤ steps.new }
        ensures spare { arena.new.count + arena.new.spare ≡ arena.old.count + arena.old.spare }
        ensures reserved { arena.new.reserved ≡ arena.old.reserved }
    {
        if self.made == self.changes.len() {
            return Err(Nothing);
        }
        let end = entry_behind(&self.changes, self.made);
        go_on(&self.rows, &self.changes, self.made, end, arena, steps);
        self.made = end;
        Ok(())
    }

    /// Opens a group at the map in the arena. No group is open. It takes no memory.
    pub fn begin(&mut self, arena: &Arena)
        requires stands { (told : definition.History) × StandsFor self.old arena.now told × (told.group ≡ None) }
        ensures history { (told : definition.History) → StandsFor self.old arena.now told → StandsFor self.new arena.now (begun_at (as_map arena.now) told) }
        ensures entries { (entries : Entries) → MayTake self.old arena.now.schema.dim entries → MayTake self.new arena.now.schema.dim (record { past = entries.past; future = entries.future; group = 0 }) }
    {
        // The arena tells here what it holds.
        prove!(arena.count() <= MOST_DARTS);
        self.group = Some(self.made);
    }

    /// Ends the open group: what was done in it is one entry of the past. It takes no memory.
    pub fn keep(&mut self, arena: &Arena)
        requires stands { (told : definition.History) × (group : Group) × StandsFor self.old arena.now told × (told.group ≡ Some group) }
        ensures history { (told : definition.History) (group : Group) → StandsFor self.old arena.now told → told.group ≡ Some group → StandsFor self.new arena.now (kept group told) }
        ensures entries { (told : definition.History) (group : Group) (entries : Entries) → StandsFor self.old arena.now told → told.group ≡ Some group → MayTake self.old arena.now.schema.dim entries → MayTake self.new arena.now.schema.dim (group_entered group entries) }
    {
        // The arena tells here what it holds.
        prove!(arena.count() <= MOST_DARTS);
        self.group = None;
    }

    /// Ends the open group, and takes back what was done in it: the map is again that at its begin.
    /// It takes no memory.
    pub fn take_back<L: Ledger>(&mut self, arena: &mut Arena, steps: &mut Steps<L>)
        requires stands { (told : definition.History) × (group : Group) × StandsFor self.old arena.old told × (told.group ≡ Some group) }
        ensures map { (told : definition.History) (group : Group) → StandsFor self.old arena.old told → told.group ≡ Some group → as_map arena.new ≡ group.map }
        ensures history { (told : definition.History) → StandsFor self.old arena.old told → StandsFor self.new arena.new (dropped told) }
        ensures most { (entries : Entries) → MayTake self.old arena.old.schema.dim entries → steps.new ≤ steps.old + entries.group }
        ensures entries { (entries : Entries) → MayTake self.old arena.old.schema.dim entries → MayTake self.new arena.new.schema.dim entries }
        ensures sound { IsSound (as_map arena.new) }
        ensures schema { arena.new.schema ≡ arena.old.schema }
        ensures rises { steps.old ≤ steps.new }
        ensures spare { arena.new.count + arena.new.spare ≡ arena.old.count + arena.old.spare }
        ensures reserved { arena.new.reserved ≡ arena.old.reserved }
    {
        let Some(start) = self.group else {
            unreachable!();
        };
        if start < self.made {
            go_back(&self.rows, &self.changes, start, self.made, arena, steps);
            let kept = kept_end(&self.changes, start);
            self.rows.truncate(kept);
            self.changes.truncate(start);
            self.made = start;
        }
        self.group = None;
    }
}
