//! One application, from the hooks and values to the committed result or a refusal.

ghost use Rattle.std.specs.Prelude.{◌≡◌, ◌≢◌, ℕ, ◌+◌, ◌-◌, ◌≤◌, length, max, List, IfErr, IfOk, MatchResult, OnOk};
ghost use Rattle.gm_model.specs.declared.value.Value.{Value};
ghost use Rattle.gm_model.specs.Applications.{IsBudget, IsDone, MeetsPre};
ghost use Rattle.gm_model.specs.Kinds.{AreGoodParams};
ghost use Rattle.gm_model.specs.Limits.{most_darts, most_names};
ghost use Rattle.gm_model.specs.Maps.{IsSound};
ghost use Rattle.gm_model.specs.Rules.{rule_of};
ghost use Rattle.gm_arena.specs.inner.ArenaAsMap.{as_map};
ghost use Rattle.gm_arena.specs.inner.Lawful.{IsLawful};
ghost use Rattle.gm_match.specs.inner.Outcome.{application_of, IsAnswer};
ghost use Rattle.gm_commit.specs.inner.EditLists.{HasSameRows};
ghost use Rattle.gm_plan.specs.inner.InArena.{placement_in};
ghost use Rattle.gm_walk.specs.inner.Room.{Fits};
ghost use Rattle.gm_apply.specs.declared.refusal.Refusal.TheVariants as refusals;
ghost use Rattle.gm_apply.specs.inner.Outcomes.{HasRoom, IsRefusedFor, StaysInRoom};
ghost use Rattle.gm_apply.specs.inner.ReadOnce.{IsBudgetOnce};
ghost use Rattle.gm_apply.specs.inner.Reads.{IsReadable, IsReadyAt, IsRefusedAt};

use crate::reading::Reading;
use crate::refusal::Refusal;
use gm_arena::{Arena, Slot, Steps};
use gm_commit::{Applied, Changes};
use gm_match::find;
use gm_model::{MOST_DARTS, MOST_NAMES, OutOfMemory, Value};
use gm_plan::{Instances, Plan};
use gm_walk::{Mark, Scratch};
use std::alloc::Global;
use std::sync::ledger::Ledger;

/// Applies the plan's rule to the map, at the darts that the hooks name, with these values for its
/// parameters.
///
/// An expression with at most 36 collectors reads once what its positions share: a collector over an
/// orbit that holds the collector's node at every position counts at the first of the positions that
/// it is read at, and nothing at the later ones.
///
/// The arena has a sound map again, whatever the answer is, and after a refusal the same one.
/// Where memory ran out, its spare and reserved names may have risen, but not past what the
/// result takes. The scratch may have grown.
pub fn apply<L: Ledger>(
    alloc: Global,
    plan: &Plan<'_>,
    arena: &mut Arena,
    hooks: &[u32],
    params: &[Value],
    scratch: &mut Scratch,
    steps: &mut Steps<L>,
) -> Result<Applied, Refusal>
    requires sound { IsSound (as_map arena.old) }
    requires schema { arena.old.schema ≡ plan.now.schema }
    requires hooks { length hooks.now ≡ length (rule_of plan.now.table).hooks }
    requires params { AreGoodParams (rule_of plan.now.table) params.now }
    ensures outcome { let app = application_of arena.old (rule_of plan.now.table) hooks.now params.now in MatchResult result
        (λ applied. IsDone app (as_map arena.new) applied.added applied.removed)
        (λ refusal. IsRefusedFor app refusal × HasSameRows arena.old arena.new) }
    ensures sound { IsSound (as_map arena.new) }
    ensures schema { arena.new.schema ≡ arena.old.schema }
    ensures most { (most : ℕ) → IsBudget (application_of arena.old (rule_of plan.now.table) hooks.now params.now) most → steps.new ≤ steps.old + most }
    ensures once { (most : ℕ) → IsBudgetOnce (application_of arena.old (rule_of plan.now.table) hooks.now params.now) most → steps.new ≤ steps.old + most }
    ensures least { IfOk result (λ applied. steps.old + applied.added + applied.removed ≤ steps.new) }
    ensures rises { steps.old ≤ steps.new }
    ensures room { scratch.old.bound ≤ scratch.new.bound }
    ensures spare { IfOk result (λ applied. arena.new.spare + applied.added ≡ max arena.old.spare (applied.added - applied.removed) + applied.removed) }
    ensures reserved { IfOk result (λ applied. arena.new.reserved ≡ max arena.old.reserved (arena.old.next + applied.added)) }
    ensures no_more { IfErr result (λ _. StaysInRoom (application_of arena.old (rule_of plan.now.table) hooks.now params.now) arena.old arena.new) }
    ensures untouched { IfErr result (λ refusal. refusal ≢ refusals.OutOfMemory → arena.new ≡ arena.old) }
    ensures spare_stays { arena.old.count + arena.old.spare ≤ arena.new.count + arena.new.spare }
    ensures reserved_stays { arena.old.reserved ≤ arena.new.reserved }
{
    // The plan tells here that its rule is accepted.
    prove!(plan.rule().hooks.as_slice().len() == hooks.len());
    scratch.fit(arena)?;
    let found = find(alloc, plan, arena, hooks, scratch, steps)?;
    let reading = Reading {
        plan,
        found: &found,
        arena,
        params,
    };
    let (applied, changes) = ready(alloc, &reading, scratch, steps)?;
    reserve(arena, applied)?;
    let (left, marks) = changes.commit(arena, steps);
    keep_room(scratch, left, marks);
    let (slots, turns) = found.into_rows();
    scratch.keep_rows(slots, turns);
    Ok(applied)
}

/// Hands on what a commit answers, to be lent to the next application. Nothing is said of its room.
fn keep_room(scratch: &mut Scratch, slots: Vec<Slot>, marks: Option<Vec<Mark>>)
    ensures { scratch.new ≡ scratch.old }
{
    scratch.keep_slots(slots);
    if let Some(marks) = marks {
        scratch.keep_marks(marks);
    }
}

/// What the application adds and removes, and the changes that make its result, where it isn't
/// refused. The map is only read.
pub(crate) fn ready<'a, L: Ledger>(
    alloc: Global,
    reading: &Reading<'a, '_>,
    scratch: &mut Scratch,
    steps: &mut Steps<L>,
) -> Result<(Applied, Changes<'a>), Refusal>
    requires readable { (hooks : List ℕ) × IsReadable reading.now hooks }
    requires fits { Fits scratch.old reading.now.arena.now }
    ensures ready { (hooks : List ℕ) → IsReadable reading.now hooks → MatchResult result
        (λ ready. IsReadyAt reading.now hooks ready.0.added ready.0.removed ready.1 steps.old steps.new)
        (λ refusal. IsRefusedAt reading.now hooks refusal steps.old steps.new) }
    ensures room { scratch.new.bound ≡ scratch.old.bound }
{
    // The arena tells here that its schema is sound.
    prove!(reading.arena.count() <= MOST_DARTS);
    reading.meet_pre(scratch, steps)?;
    let applied = room(reading.plan, reading.arena, reading.found)?;
    let changes = reading.changes(alloc, scratch, steps)?;
    Ok((applied, changes))
}

/// Makes room in the arena for the result of an application that adds and removes as many darts as
/// `applied` says: for what it adds beyond what it removes, and for the names of all that it adds.
pub(crate) fn reserve(arena: &mut Arena, applied: Applied) -> Result<(), OutOfMemory>
    requires darts { arena.old.count + applied.added ≤ most_darts + applied.removed }
    requires names { arena.old.next + applied.added ≤ most_names }
    ensures rows { HasSameRows arena.old arena.new }
    ensures spare { OnOk result (arena.new.spare ≡ max arena.old.spare (applied.added - applied.removed)) }
    ensures reserved { OnOk result (arena.new.reserved ≡ max arena.old.reserved (arena.old.next + applied.added)) }
    ensures spare_most { arena.new.spare ≤ max arena.old.spare (applied.added - applied.removed) }
    ensures reserved_most { arena.new.reserved ≤ max arena.old.reserved (arena.old.next + applied.added) }
    ensures spare_stays { arena.old.spare ≤ arena.new.spare }
    ensures reserved_stays { arena.old.reserved ≤ arena.new.reserved }
    ensures lawful { IsLawful arena.old }
{
    let more = applied.added.saturating_sub(applied.removed);
    arena.reserve(more, arena.next() + applied.added)
}

/// How many darts the application adds and removes, where the map has room for the result.
fn room(plan: &Plan<'_>, arena: &Arena, found: &Instances) -> Result<Applied, Refusal>
    requires schema { arena.now.schema ≡ plan.now.schema }
    requires found { (hooks : List ℕ) × IsAnswer arena.now (rule_of plan.now.table) hooks found.now }
    ensures room { (hooks : List ℕ) (params : List Value) → IsAnswer arena.now (rule_of plan.now.table) hooks found.now →
        MeetsPre (application_of arena.now (rule_of plan.now.table) hooks params) (placement_in arena.now found.now) →
        let app = application_of arena.now (rule_of plan.now.table) hooks params in MatchResult result
        (λ applied. HasRoom app (placement_in arena.now found.now) applied.added applied.removed)
        (IsRefusedFor app) }
    ensures fits { IfOk result (λ applied. arena.now.count + applied.added ≤ most_darts + applied.removed) }
{
    prove!(arena.count() <= MOST_DARTS);
    let positions = u64::from(found.positions());
    let more = positions * u64::from(plan.added());
    let removed = positions * u64::from(plan.removed());
    let live = u64::from(arena.count()) - removed;
    if live + more > u64::from(MOST_DARTS) {
        return Err(Refusal::FullDarts {
            live: live as u32,
            more,
        });
    }
    let next = arena.next();
    if u64::from(next) + more > u64::from(MOST_NAMES) {
        return Err(Refusal::FullNames { next, more });
    }
    Ok(Applied {
        added: more as u32,
        removed: removed as u32,
    })
}
