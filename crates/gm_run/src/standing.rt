//! Where a run stands, and the statements that change no more of the map than to lead it back or on.
ghost use Rattle.std.specs.Prelude.{◌≡◌, ◌≢◌, ◌+◌, ◌<◌, ◌≤◌, ℕ, true, false, List, None, Some, IfOk, MatchResult, length};
ghost use Rattle.gm_model.specs.Statements as statements;
ghost use Rattle.gm_model.specs.Statements.{stat_of};
ghost use Rattle.gm_model.specs.Applications.{IsBudget, IsDone};
ghost use Rattle.gm_model.specs.Budgets.{Entries, entered, group_entered};
ghost use Rattle.gm_model.specs.Histories as definition;
ghost use Rattle.gm_model.specs.Histories.{Group, begun_at, done_at, kept};
ghost use Rattle.gm_model.specs.Kinds.{AreGoodParams};
ghost use Rattle.gm_model.specs.Maps.{IsSound};
ghost use Rattle.gm_model.specs.Rules.{Rule, rule_of};
ghost use Rattle.gm_model.specs.Runs.{State};
ghost use Rattle.gm_arena.specs.inner.ArenaAsMap.{as_map};
ghost use Rattle.gm_run.specs.declared.standing.Open.TheVariants as opens;
ghost use Rattle.gm_match.specs.inner.Outcome.{application_of};
ghost use Rattle.gm_commit.specs.inner.EditLists.{HasSameRows};
ghost use Rattle.gm_apply.specs.inner.Outcomes.{IsRefusedFor};
ghost use Rattle.gm_run.specs.inner.Standing.{StandsAt, HasStep, IsAllowed, IsInGroup, KeepsEnough, MayGoBack, NeedsHistory, Remembers, going};

use crate::outcome::Outcome;
use gm_apply::{Applied, Refusal, apply};
use gm_arena::{Arena, Steps};
use gm_model::{MOST_DARTS, StatRef, Value};
use gm_plan::Plan;
use gm_undo::History;
use gm_walk::Scratch;
use std::alloc::Global;
use std::sync::ledger::Ledger;

/// The group that is open.
#[derive(Clone, Copy)]
pub(crate) enum Open {
    Nothing,
    /// No application of it was refused yet.
    Whole,
    Broken,
}

impl Open {
    pub(crate) fn is_open(self) -> bool
        ensures open { result ≡ true → IsInGroup self }
        ensures outside { result ≡ false → self ≡ opens.Nothing }
    {
        !matches!(self, Open::Nothing)
    }

    pub(crate) fn is_broken(self) -> bool
        ensures broken { result ≡ true → self ≡ opens.Broken }
        ensures whole { result ≡ false → self ≢ opens.Broken }
    {
        matches!(self, Open::Broken)
    }
}

/// What is kept of the applications that were done.
#[derive(Clone, Copy)]
pub(crate) struct Keeping {
    /// Whether anything is: a statement to come goes back or on, or a group is open.
    pub(crate) on: bool,
    /// How many statements to come go back or on. No more entries of the past can be reached.
    pub(crate) reach: usize,
}

/// Where a run stands, beside the map in the arena.
#[derive(Drop)]
pub(crate) struct Standing {
    pub(crate) keeps: Keeping,
    pub(crate) history: History,
    pub(crate) group: Open,
    pub(crate) scratch: Scratch,
}

impl Standing {
    /// Applies the plan's rule, and keeps what it changed where that is needed.
    pub(crate) fn apply<L: Ledger>(
        &mut self,
        alloc: Global,
        plan: &Plan<'_>,
        arena: &mut Arena,
        hooks: &[u32],
        params: &[Value],
        steps: &mut Steps<L>,
    ) -> Result<Applied, Refusal>
        requires sound { IsSound (as_map arena.old) }
        requires stands { (told : definition.History) × Remembers self.old arena.old told }
        requires schema { arena.old.schema ≡ plan.now.schema }
        requires hooks { length hooks.now ≡ length (rule_of plan.now.table).hooks }
        requires params { AreGoodParams (rule_of plan.now.table) params.now }
        ensures outcome { let app = application_of arena.old (rule_of plan.now.table) hooks.now params.now in MatchResult result
            (λ applied. IsDone app (as_map arena.new) applied.added applied.removed)
            (λ refusal. IsRefusedFor app refusal × HasSameRows arena.old arena.new) }
        ensures history { (told : definition.History) → Remembers self.old arena.old told → MatchResult result
            (λ _. Remembers self.new arena.new (done_at (as_map arena.old) told))
            (λ _. Remembers self.new arena.new told) }
        ensures entries { (told : definition.History) (entries : Entries) (most : ℕ) → Remembers self.old arena.old told → MayGoBack self.old arena.old.schema.dim entries
            → IsBudget (application_of arena.old (rule_of plan.now.table) hooks.now params.now) most → MatchResult result
            (λ _. MayGoBack self.new arena.new.schema.dim (entered told.group most entries))
            (λ _. MayGoBack self.new arena.new.schema.dim entries) }
        ensures keeps { self.new.keeps ≡ self.old.keeps }
        ensures group { self.new.group ≡ self.old.group }
        ensures sound { IsSound (as_map arena.new) }
        ensures schema { arena.new.schema ≡ arena.old.schema }
        ensures most { (most : ℕ) → IsBudget (application_of arena.old (rule_of plan.now.table) hooks.now params.now) most → steps.new ≤ steps.old + most }
        ensures least { IfOk result (λ applied. steps.old + applied.added + applied.removed ≤ steps.new) }
        ensures rises { steps.old ≤ steps.new }
        ensures spare_stays { arena.old.count + arena.old.spare ≤ arena.new.count + arena.new.spare }
        ensures reserved_stays { arena.old.reserved ≤ arena.new.reserved }
    {
        let Standing {
            keeps,
            history,
            scratch,
            ..
        } = self;
        if keeps.on {
            history.apply(alloc, plan, arena, hooks, params, scratch, steps)
        } else {
            apply(alloc, plan, arena, hooks, params, scratch, steps)
        }
    }

    /// Makes ready for the statement. Outside groups, nothing is kept for none that goes back or on;
    /// a group needs what it began with, and no more.
    pub(crate) fn settle(&mut self, alloc: Global, stat: StatRef<'_>, arena: &Arena)
        requires sound { IsSound (as_map arena.now) }
        requires enough { KeepsEnough self.old }
        ensures stands { (state : State) (entries : Entries) → StandsAt self.old arena.now state entries → StandsAt self.new arena.now state entries }
        ensures enough { KeepsEnough self.new }
        ensures needs { NeedsHistory (stat_of stat.entry) → IsAllowed self.old.group (stat_of stat.entry) → going (stat_of stat.entry) ≤ self.old.keeps.reach → self.new.keeps.on ≡ true }
        ensures reach { self.new.keeps.reach ≡ self.old.keeps.reach }
        ensures group { self.new.group ≡ self.old.group }
    {
        // The arena tells here what it holds.
        prove!(arena.count() <= MOST_DARTS);
        let needed = self.may_go_back();
        if needed {
            return;
        }
        self.history = History::new(alloc);
        self.keeps.on = begins_group(stat);
    }

    /// Whether something may be taken back: a statement to come goes back or on, or a group is open.
    fn may_go_back(&self) -> bool
        ensures kept { result ≡ true → KeepsEnough self.now → self.now.keeps.on ≡ true }
        ensures none { result ≡ false → (self.now.group ≡ opens.Nothing) × (self.now.keeps.reach ≡ 0) }
    {
        self.keeps.reach > 0 || self.group.is_open()
    }

    /// Begins what is one entry of the history, though no group of the script.
    pub(crate) fn begin_entry(&mut self, arena: &Arena)
        requires stands { (told : definition.History) × Remembers self.old arena.now told × (told.group ≡ None) }
        ensures history { (told : definition.History) → Remembers self.old arena.now told → Remembers self.new arena.now (begun_at (as_map arena.now) told) }
        ensures entries { (entries : Entries) → MayGoBack self.old arena.now.schema.dim entries → MayGoBack self.new arena.now.schema.dim (record { past = entries.past; future = entries.future; group = 0 }) }
        ensures keeps { self.new.keeps ≡ self.old.keeps }
        ensures group { self.new.group ≡ self.old.group }
    {
        if self.keeps.on {
            self.history.begin(arena);
        }
    }

    /// Ends the entry.
    pub(crate) fn end_entry(&mut self, arena: &Arena)
        requires stands { (told : definition.History) × (group : Group) × Remembers self.old arena.now told × (told.group ≡ Some group) }
        ensures history { (told : definition.History) (group : Group) → Remembers self.old arena.now told → told.group ≡ Some group → Remembers self.new arena.now (kept group told) }
        ensures entries { (told : definition.History) (group : Group) (entries : Entries) → Remembers self.old arena.now told → told.group ≡ Some group → MayGoBack self.old arena.now.schema.dim entries → MayGoBack self.new arena.now.schema.dim (group_entered group entries) }
        ensures keeps { self.new.keeps ≡ self.old.keeps }
        ensures group { self.new.group ≡ self.old.group }
    {
        if self.keeps.on {
            self.history.keep(arena);
        }
    }

    pub(crate) fn undo<L: Ledger>(&mut self, arena: &mut Arena, steps: &mut Steps<L>) -> Outcome
        requires keeps { self.old.keeps.on ≡ true }
        requires reach { 0 < self.old.keeps.reach }
        requires stands { (state : State) × (entries : Entries) × StandsAt self.old arena.old state entries }
        requires outside { self.old.group ≡ opens.Nothing }
        ensures step { (rules : List Rule) (state : State) (entries : Entries) → StandsAt self.old arena.old state entries → HasStep rules state entries statements.Undo result self.new arena.new steps.old steps.new }
        ensures keeps { self.new.keeps.on ≡ self.old.keeps.on }
        ensures reach { self.new.keeps.reach + 1 ≡ self.old.keeps.reach }
        ensures sound { IsSound (as_map arena.old) → IsSound (as_map arena.new) }
        ensures schema { arena.new.schema ≡ arena.old.schema }
        ensures spare_stays { arena.old.count + arena.old.spare ≤ arena.new.count + arena.new.spare }
        ensures reserved_stays { arena.old.reserved ≤ arena.new.reserved }
    {
        self.keeps.reach -= 1;
        match self.history.undo(arena, steps) {
            Ok(()) => Outcome::Undone,
            Err(_) => Outcome::NothingToUndo,
        }
    }

    pub(crate) fn redo<L: Ledger>(&mut self, arena: &mut Arena, steps: &mut Steps<L>) -> Outcome
        requires keeps { self.old.keeps.on ≡ true }
        requires reach { 0 < self.old.keeps.reach }
        requires stands { (state : State) × (entries : Entries) × StandsAt self.old arena.old state entries }
        requires outside { self.old.group ≡ opens.Nothing }
        ensures step { (rules : List Rule) (state : State) (entries : Entries) → StandsAt self.old arena.old state entries → HasStep rules state entries statements.Redo result self.new arena.new steps.old steps.new }
        ensures keeps { self.new.keeps.on ≡ self.old.keeps.on }
        ensures reach { self.new.keeps.reach + 1 ≡ self.old.keeps.reach }
        ensures sound { IsSound (as_map arena.old) → IsSound (as_map arena.new) }
        ensures schema { arena.new.schema ≡ arena.old.schema }
        ensures spare_stays { arena.old.count + arena.old.spare ≤ arena.new.count + arena.new.spare }
        ensures reserved_stays { arena.old.reserved ≤ arena.new.reserved }
    {
        self.keeps.reach -= 1;
        match self.history.redo(arena, steps) {
            Ok(()) => Outcome::Redone,
            Err(_) => Outcome::NothingToRedo,
        }
    }

    pub(crate) fn begin(&mut self, arena: &Arena) -> Outcome
        requires keeps { self.old.keeps.on ≡ true }
        requires stands { (state : State) × (entries : Entries) × StandsAt self.old arena.now state entries }
        requires outside { self.old.group ≡ opens.Nothing }
        ensures step { (rules : List Rule) (state : State) (entries : Entries) (steps : ℕ) → StandsAt self.old arena.now state entries → HasStep rules state entries statements.Group result self.new arena.now steps steps }
        ensures keeps { self.new.keeps ≡ self.old.keeps }
    {
        self.history.begin(arena);
        self.group = Open::Whole;
        Outcome::Begun
    }

    /// Ends the group: what was done in it stands, or is taken back where an application of it was
    /// refused.
    pub(crate) fn end<L: Ledger>(&mut self, arena: &mut Arena, steps: &mut Steps<L>) -> Outcome
        requires keeps { self.old.keeps.on ≡ true }
        requires stands { (state : State) × (entries : Entries) × StandsAt self.old arena.old state entries }
        requires inside { IsInGroup self.old.group }
        ensures step { (rules : List Rule) (state : State) (entries : Entries) → StandsAt self.old arena.old state entries → HasStep rules state entries statements.End result self.new arena.new steps.old steps.new }
        ensures keeps { self.new.keeps ≡ self.old.keeps }
        ensures sound { IsSound (as_map arena.old) → IsSound (as_map arena.new) }
        ensures schema { arena.new.schema ≡ arena.old.schema }
        ensures spare_stays { arena.old.count + arena.old.spare ≤ arena.new.count + arena.new.spare }
        ensures reserved_stays { arena.old.reserved ≤ arena.new.reserved }
    {
        let is_broken = self.group.is_broken();
        self.group = Open::Nothing;
        if is_broken {
            self.history.take_back(arena, steps);
            return Outcome::Dropped;
        }
        self.history.keep(arena);
        Outcome::Kept
    }
}

/// Whether a group begins with the statement.
fn begins_group(stat: StatRef<'_>) -> bool
    ensures { result ≡ false → stat_of stat.entry ≢ statements.Group }
{
    matches!(stat, StatRef::Group)
}
