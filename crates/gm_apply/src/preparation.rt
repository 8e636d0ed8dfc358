//! An application up to its commit, so that its caller can keep what the commit changes.
ghost use Rattle.std.specs.Prelude.{◌≡◌, ◌≢◌, ℕ, ◌+◌, ◌-◌, ◌*◌, ◌≤◌, length, max, IfErr, IfOk, MatchResult};
ghost use Rattle.gm_model.specs.Applications.{HasPositions, IsBudget, IsWork};
ghost use Rattle.gm_model.specs.Kinds.{AreGoodParams};
ghost use Rattle.gm_model.specs.Maps.{IsSound};
ghost use Rattle.gm_model.specs.Rules.{rule_of};
ghost use Rattle.gm_arena.specs.inner.ArenaAsMap.{as_map};
ghost use Rattle.gm_match.specs.inner.Outcome.{application_of};
ghost use Rattle.gm_commit.specs.inner.EditLists.{HasSameRows};
ghost use Rattle.gm_apply.specs.declared.refusal.Refusal.TheVariants as refusals;
ghost use Rattle.gm_apply.specs.inner.Outcomes.{IsRefusedFor, StaysInRoom};
ghost use Rattle.gm_apply.specs.inner.Prepared.{IsReadyToCommit, cost_with_rows, rows_of};

use crate::application::{ready, reserve};
use crate::reading::Reading;
use crate::refusal::Refusal;
use gm_arena::{Arena, Steps};
use gm_commit::Edits;
use gm_match::find;
use gm_model::Value;
use gm_plan::Plan;
use gm_walk::Scratch;
use std::alloc::Global;
use std::sync::ledger::Ledger;

/// Does all of an application but the commit: it is refused as `apply` is, and takes all the memory
/// that the commit needs. The arena keeps its rows and its next name, and gets the room for the
/// result and no more.
///
/// The steps that the edits leave of the budget are enough for the commit, and for reading the rows
/// of the touched darts before it and those of the touched and the added ones after it.
///
/// No more darts are touched than the rule has instances, and orbits with an assigned one have darts.
pub fn prepare<L: Ledger>(
    alloc: Global,
    plan: &Plan<'_>,
    arena: &mut Arena,
    hooks: &[u32],
    params: &[Value],
    scratch: &mut Scratch,
    steps: &mut Steps<L>,
) -> Result<Edits, Refusal>
    requires sound { IsSound (as_map arena.old) }
    requires schema { arena.old.schema ≡ plan.now.schema }
    requires hooks { length hooks.now ≡ length (rule_of plan.now.table).hooks }
    requires params { AreGoodParams (rule_of plan.now.table) params.now }
    ensures outcome { let app = application_of arena.old (rule_of plan.now.table) hooks.now params.now in MatchResult result
        (IsReadyToCommit app arena.new)
        (IsRefusedFor app) }
    ensures rows { HasSameRows arena.old arena.new }
    ensures untouched { IfErr result (λ refusal. refusal ≢ refusals.OutOfMemory → arena.new ≡ arena.old) }
    ensures most { (most : ℕ) → IsBudget (application_of arena.old (rule_of plan.now.table) hooks.now params.now) most → steps.new ≤ steps.old + most }
    ensures left { (most : ℕ) → IsBudget (application_of arena.old (rule_of plan.now.table) hooks.now params.now) most → IfOk result (λ edits. steps.new + cost_with_rows arena.old.schema.dim edits ≤ steps.old + most) }
    ensures few { (most : ℕ) → IsBudget (application_of arena.old (rule_of plan.now.table) hooks.now params.now) most → IfOk result (λ edits. 7 * (arena.old.schema.dim + 1) * rows_of edits ≤ most) }
    ensures touched { (k reached read : ℕ) → HasPositions (application_of arena.old (rule_of plan.now.table) hooks.now params.now) k → IsWork (application_of arena.old (rule_of plan.now.table) hooks.now params.now) reached read
        → IfOk result (λ edits. length edits.touched ≤ length (rule_of plan.now.table).nodes * k + reached) }
    ensures rises { steps.old ≤ steps.new }
    ensures room { scratch.old.bound ≤ scratch.new.bound }
    ensures spare { IfOk result (λ edits. arena.new.spare ≡ max arena.old.spare (edits.lists.added - length edits.lists.removed)) }
    ensures reserved { IfOk result (λ edits. arena.new.reserved ≡ max arena.old.reserved (arena.old.next + edits.lists.added)) }
    ensures no_more { StaysInRoom (application_of arena.old (rule_of plan.now.table) hooks.now params.now) arena.old arena.new }
    ensures spare_stays { arena.old.spare ≤ arena.new.spare }
    ensures reserved_stays { arena.old.reserved ≤ arena.new.reserved }
{
    // The plan tells here that its rule is accepted.
    prove!(plan.rule().hooks.as_slice().len() == hooks.len());
    scratch.fit(arena)?;
    let found = find(alloc, plan, arena, hooks, scratch, steps)?;
    let reading = Reading {
        plan,
        found: &found,
        arena,
        params,
    };
    let (applied, changes) = ready(alloc, &reading, scratch, steps)?;
    reserve(arena, applied)?;
    let edits = changes.into_edits(alloc, applied, arena, scratch)?;
    let (slots, turns) = found.into_rows();
    scratch.keep_rows(slots, turns);
    Ok(edits)
}
