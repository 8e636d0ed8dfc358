//! An `each`: the rule applied once for each orbit.
ghost use Rattle.std.specs.Prelude.{◌≡◌, ◌+◌, ◌≤◌, ℕ, IfOk, List, MatchResult, ◌<◌, ◌^◌, length};
ghost use Rattle.gm_model.specs.Statements as statements;
ghost use Rattle.gm_model.specs.Budgets.{Entries, IsLineBudget};
ghost use Rattle.gm_model.specs.Histories as definition;
ghost use Rattle.gm_model.specs.Histories.{begun_at};
ghost use Rattle.gm_model.specs.Maps.{IsSound};
ghost use Rattle.gm_model.specs.Runs.{State, line_at};
ghost use Rattle.gm_arena.specs.inner.ArenaAsMap.{as_map};
ghost use Rattle.gm_theory.specs.inner.Outcomes.{IsGoodEach, IsGoodLine};
ghost use Rattle.gm_theory.specs.inner.Suited.{IsRuleOf};
ghost use Rattle.gm_run.specs.declared.standing.Open.TheVariants as opens;
ghost use Rattle.gm_run.specs.inner.Progress.{rules_of, ArePlansFor};
ghost use Rattle.gm_run.specs.inner.Standing.{StandsAt, HasStep, IsStopped, MayGoBack, Remembers};
ghost use Rattle.gm_run.specs.inner.Turns.{HasTurn, HaveTurns, StopsAtTurn, StopsWithin, counted, told_by, entered_by_turn, entered_turns};

use crate::lines::{accepted, apply_rule};
use crate::outcome::Outcome;
use crate::standing::Standing;
use gm_arena::{Arena, Steps};
use gm_each::leads;
use gm_model::{LineRef, MOST_DARTS, Mask, OutOfMemory, Value};
use gm_plan::Plan;
use std::alloc::Global;
use std::sync::ledger::Ledger;

/// Applies the rule once for each orbit over the labels of the mask, at its least dart. What is done
/// is one entry of the history.
pub(crate) fn run_each<L: Ledger>(
    alloc: Global,
    plans: &[Plan<'_>],
    mask: Mask,
    rule: u16,
    params: &[Value],
    arena: &mut Arena,
    standing: &mut Standing,
    steps: &mut Steps<L>,
) -> Result<Outcome, OutOfMemory>
    requires sound { IsSound (as_map arena.old) }
    requires plans { ArePlansFor arena.old.schema plans.now }
    requires good { IsGoodEach (rules_of plans.now) arena.old.schema.dim mask rule params.now }
    requires stands { (state : State) × (entries : Entries) × StandsAt standing.old arena.old state entries }
    requires outside { standing.old.group ≡ opens.Nothing }
    ensures step { (state : State) (entries : Entries) → StandsAt standing.old arena.old state entries → MatchResult result
        (λ outcome. HasStep (rules_of plans.now) state entries (statements.Each mask rule params.now) outcome standing.new arena.new steps.old steps.new)
        (λ _. IsStopped (rules_of plans.now) state (statements.Each mask rule params.now) (as_map arena.new) steps.old steps.new) }
    ensures keeps { standing.new.keeps ≡ standing.old.keeps }
    ensures rule { IsRuleOf arena.old.schema (rules_of plans.now) rule }
    ensures sound { IsSound (as_map arena.new) }
    ensures schema { arena.new.schema ≡ arena.old.schema }
    ensures spare_stays { arena.old.count + arena.old.spare ≤ arena.new.count + arena.new.spare }
    ensures reserved_stays { arena.old.reserved ≤ arena.new.reserved }
{
    accepted(plans, rule, arena);
    let leads = leads(alloc, arena, mask, &mut standing.scratch, steps)?;
    standing.begin_entry(arena);
    let counts = take_turns(alloc, plans, rule, params, &leads, arena, standing, steps)?;
    standing.end_entry(arena);
    Ok(Outcome::Each {
        done: counts.done,
        refused: counts.refused,
        passed: counts.passed,
    })
}

/// What became of the darts whose turn came.
#[derive(Clone, Copy)]
struct Counts {
    done: u32,
    refused: u32,
    passed: u32,
}

impl Counts {
    /// One turn more: of a dart that was one no more, or of the rule at it.
    fn counted(self, turn: Option<Outcome>) -> Counts
        requires { self.done + self.refused + self.passed + 1 < 2 ^ 32 }
        ensures { result ≡ counted self turn }
    {
        match turn {
            None => Counts {
                passed: self.passed + 1,
                ..self
            },
            Some(Outcome::Done(_)) => Counts {
                done: self.done + 1,
                ..self
            },
            Some(_) => Counts {
                refused: self.refused + 1,
                ..self
            },
        }
    }
}

/// Takes the turns of the darts, one after another, at the map that the one before it left.
fn take_turns<L: Ledger>(
    alloc: Global,
    plans: &[Plan<'_>],
    rule: u16,
    params: &[Value],
    leads: &[u32],
    arena: &mut Arena,
    standing: &mut Standing,
    steps: &mut Steps<L>,
) -> Result<Counts, OutOfMemory>
    requires sound { IsSound (as_map arena.old) }
    requires plans { ArePlansFor arena.old.schema plans.now }
    requires good { (d : ℕ) → IsGoodLine (rules_of plans.now) (line_at rule params.now d) }
    requires rule { IsRuleOf arena.old.schema (rules_of plans.now) rule }
    requires few { length leads.now + 1 < 2 ^ 32 }
    requires stands { (told : definition.History) × Remembers standing.old arena.old (begun_at (as_map arena.old) told) }
    ensures turns { (told : definition.History) (entries : Entries) → Remembers standing.old arena.old (begun_at (as_map arena.old) told) → MayGoBack standing.old arena.old.schema.dim (entered_turns entries 0 0) → MatchResult result
        (λ counts. HaveTurns (rules_of plans.now) rule params.now (as_map arena.old) told entries leads.now counts standing.new arena.new steps.old steps.new)
        (λ _. StopsWithin (rules_of plans.now) rule params.now (as_map arena.old) leads.now (as_map arena.new) steps.old steps.new) }
    ensures keeps { standing.new.keeps ≡ standing.old.keeps }
    ensures group { standing.new.group ≡ standing.old.group }
    ensures sound { IsSound (as_map arena.new) }
    ensures schema { arena.new.schema ≡ arena.old.schema }
    ensures spare_stays { arena.old.count + arena.old.spare ≤ arena.new.count + arena.new.spare }
    ensures reserved_stays { arena.old.reserved ≤ arena.new.reserved }
{
    let mut counts = Counts {
        done: 0,
        refused: 0,
        passed: 0,
    };
    for lead in leads {
        let turn = take_turn(alloc, plans, rule, params, *lead, arena, standing, steps)?;
        counts = counts.counted(turn);
    }
    Ok(counts)
}

/// Applies the rule at the dart, where it still is one.
fn take_turn<L: Ledger>(
    alloc: Global,
    plans: &[Plan<'_>],
    rule: u16,
    params: &[Value],
    lead: u32,
    arena: &mut Arena,
    standing: &mut Standing,
    steps: &mut Steps<L>,
) -> Result<Option<Outcome>, OutOfMemory>
    requires sound { IsSound (as_map arena.old) }
    requires plans { ArePlansFor arena.old.schema plans.now }
    requires good { IsGoodLine (rules_of plans.now) (line_at rule params.now lead) }
    requires stands { (told : definition.History) × Remembers standing.old arena.old told }
    ensures turn { MatchResult result
        (λ turn. HasTurn (rules_of plans.now) rule params.now (as_map arena.old) lead turn (as_map arena.new) steps.old steps.new)
        (λ _. StopsAtTurn (rules_of plans.now) rule params.now (as_map arena.old) lead (as_map arena.new) steps.old steps.new) }
    ensures history { (told : definition.History) → Remembers standing.old arena.old told → IfOk result (λ turn. Remembers standing.new arena.new (told_by turn (as_map arena.old) told)) }
    ensures entries { (told : definition.History) (entries : Entries) (most : ℕ) → Remembers standing.old arena.old told → MayGoBack standing.old arena.old.schema.dim entries
        → IsLineBudget (rules_of plans.now) (as_map arena.old) (line_at rule params.now lead) most → IfOk result (λ turn. MayGoBack standing.new arena.new.schema.dim (entered_by_turn turn told.group most entries)) }
    ensures keeps { standing.new.keeps ≡ standing.old.keeps }
    ensures group { standing.new.group ≡ standing.old.group }
    ensures sound { IsSound (as_map arena.new) }
    ensures schema { arena.new.schema ≡ arena.old.schema }
    ensures spare_stays { arena.old.count + arena.old.spare ≤ arena.new.count + arena.new.spare }
    ensures reserved_stays { arena.old.reserved ≤ arena.new.reserved }
{
    // From this call it is known what an arena keeps: so a slot is that of a live dart.
    prove!(arena.count() <= MOST_DARTS);
    if arena.slot_of(lead, steps).is_none() {
        return Ok(None);
    }
    let line = LineRef {
        rule,
        hooks: &[lead],
        params,
    };
    let outcome = apply_rule(alloc, plans, line, arena, standing, steps)?;
    Ok(Some(outcome))
}
