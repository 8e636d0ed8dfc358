//! Applications that lines of a script ask for.
ghost use Rattle.std.specs.Prelude.{◌≡◌, ◌≢◌, ◌+◌, ◌<◌, ◌≤◌, ℕ, IfOk, List, MatchResult, length};
ghost use Rattle.gm_model.specs.Statements as statements;
ghost use Rattle.gm_model.specs.Statements.{line_of};
ghost use Rattle.gm_model.specs.Budgets.{Entries, IsLineBudget};
ghost use Rattle.gm_model.specs.Histories as definition;
ghost use Rattle.gm_model.specs.Maps.{IsSound};
ghost use Rattle.gm_model.specs.Runs.{State};
ghost use Rattle.gm_apply.specs.declared.refusal.Refusal.TheVariants as refusals;
ghost use Rattle.gm_arena.specs.inner.ArenaAsMap.{as_map};
ghost use Rattle.gm_arena.specs.inner.Lawful.{IsLawful};
ghost use Rattle.gm_theory.specs.inner.Outcomes.{IsGoodLine};
ghost use Rattle.gm_theory.specs.inner.Suited.{IsRuleOf};
ghost use Rattle.gm_run.specs.declared.outcome.Outcome.TheVariants as outcomes;
ghost use Rattle.gm_run.specs.inner.Progress.{rules_of, ArePlansFor};
ghost use Rattle.gm_run.specs.inner.Standing.{StandsAt, HasStep, HasLine, IsStopped, IsUnapplied, MayGoBack, Remembers, entered_by, group_behind, told_behind};

use crate::outcome::Outcome;
use crate::standing::{Open, Standing};
use gm_apply::Refusal;
use gm_arena::{Arena, Steps};
use gm_model::{LineRef, MOST_DARTS, OutOfMemory};
use gm_plan::Plan;
use std::alloc::Global;
use std::sync::ledger::Ledger;

/// Runs a line. In a group that is broken it is skipped, and where it is refused in a group, it breaks
/// the group.
pub(crate) fn run_line<L: Ledger>(
    alloc: Global,
    plans: &[Plan<'_>],
    line: LineRef<'_>,
    arena: &mut Arena,
    standing: &mut Standing,
    steps: &mut Steps<L>,
) -> Result<Outcome, OutOfMemory>
    requires sound { IsSound (as_map arena.old) }
    requires plans { ArePlansFor arena.old.schema plans.now }
    requires good { IsGoodLine (rules_of plans.now) (line_of line) }
    requires stands { (state : State) × (entries : Entries) × StandsAt standing.old arena.old state entries }
    ensures step { (state : State) (entries : Entries) → StandsAt standing.old arena.old state entries → MatchResult result
        (λ outcome. HasStep (rules_of plans.now) state entries (statements.Apply (line_of line.entry)) outcome standing.new arena.new steps.old steps.new)
        (λ _. IsStopped (rules_of plans.now) state (statements.Apply (line_of line.entry)) (as_map arena.new) steps.old steps.new) }
    ensures keeps { standing.new.keeps ≡ standing.old.keeps }
    ensures rule { IsRuleOf arena.old.schema (rules_of plans.now) line.entry.rule }
    ensures sound { IsSound (as_map arena.new) }
    ensures schema { arena.new.schema ≡ arena.old.schema }
    ensures spare_stays { arena.old.count + arena.old.spare ≤ arena.new.count + arena.new.spare }
    ensures reserved_stays { arena.old.reserved ≤ arena.new.reserved }
{
    accepted(plans, line.rule, arena);
    if standing.group.is_broken() {
        return Ok(Outcome::Skipped);
    }
    let outcome = apply_rule(alloc, plans, line, arena, standing, steps)?;
    standing.group = behind(outcome, standing.group);
    Ok(outcome)
}

/// The open group after an application.
fn behind(outcome: Outcome, group: Open) -> Open
    ensures { result ≡ group_behind outcome group }
{
    match (outcome, group) {
        (Outcome::Refused(_), Open::Whole) => Open::Broken,
        (_, group) => group,
    }
}

/// Applies the line's rule to the map.
pub(crate) fn apply_rule<L: Ledger>(
    alloc: Global,
    plans: &[Plan<'_>],
    line: LineRef<'_>,
    arena: &mut Arena,
    standing: &mut Standing,
    steps: &mut Steps<L>,
) -> Result<Outcome, OutOfMemory>
    requires sound { IsSound (as_map arena.old) }
    requires plans { ArePlansFor arena.old.schema plans.now }
    requires good { IsGoodLine (rules_of plans.now) (line_of line) }
    requires stands { (told : definition.History) × Remembers standing.old arena.old told }
    ensures line { MatchResult result
        (HasLine (rules_of plans.now) (as_map arena.old) (line_of line.entry) (as_map arena.new) steps.old steps.new)
        (λ _. IsUnapplied (rules_of plans.now) (as_map arena.old) (line_of line.entry) (as_map arena.new) steps.old steps.new) }
    ensures history { (told : definition.History) → Remembers standing.old arena.old told → IfOk result (λ outcome. Remembers standing.new arena.new (told_behind outcome (as_map arena.old) told)) }
    ensures entries { (told : definition.History) (entries : Entries) (most : ℕ) → Remembers standing.old arena.old told → MayGoBack standing.old arena.old.schema.dim entries
        → IsLineBudget (rules_of plans.now) (as_map arena.old) (line_of line.entry) most → IfOk result (λ outcome. MayGoBack standing.new arena.new.schema.dim (entered_by outcome told.group most entries)) }
    ensures keeps { standing.new.keeps ≡ standing.old.keeps }
    ensures group { standing.new.group ≡ standing.old.group }
    ensures sound { IsSound (as_map arena.new) }
    ensures schema { arena.new.schema ≡ arena.old.schema }
    ensures spare_stays { arena.old.count + arena.old.spare ≤ arena.new.count + arena.new.spare }
    ensures reserved_stays { arena.old.reserved ≤ arena.new.reserved }
{
    let plan = &plans[line.rule as usize];
    prove!(plan.hooks() as usize == line.hooks.len());
    match standing.apply(alloc, plan, arena, line.hooks, line.params, steps) {
        Ok(applied) => Ok(Outcome::Done(applied)),
        Err(refusal) => refused(refusal),
    }
}

/// The outcome of an application that is refused. That memory ran out isn't one.
fn refused(refusal: Refusal) -> Result<Outcome, OutOfMemory>
    ensures { MatchResult result
        (λ outcome. (outcome ≡ outcomes.Refused refusal) × (refusal ≢ refusals.OutOfMemory))
        (λ _. refusal ≡ refusals.OutOfMemory) }
{
    match refusal {
        Refusal::OutOfMemory => Err(OutOfMemory),
        refusal => Ok(Outcome::Refused(refusal)),
    }
}

/// The rule of this number is accepted for the maps that the arena may have. The facts are the
/// clauses; the function does nothing.
pub(crate) fn accepted(plans: &[Plan<'_>], rule: u16, arena: &Arena)
    requires named { rule < length plans.now }
    requires plans { ArePlansFor arena.now.schema plans.now }
    ensures rule { IsRuleOf arena.now.schema (rules_of plans.now) rule }
    ensures lawful { IsLawful arena.now }
{
    let plan = &plans[rule as usize];
    prove!(plan.rule().hooks.as_slice().len() == plan.hooks() as usize);
    prove!(arena.count() <= MOST_DARTS);
}
