//! A run: the statements of a script, one after another.
ghost use Rattle.std.specs.Prelude.{◌≡◌, ℕ, ◌+◌, ◌<◌, ◌≤◌, false, All, IfOk, IfErr, List, MatchResult, true};
ghost use Rattle.std.specs.List.{sum_by};
ghost use Rattle.gm_model.specs.Statements.{stat_of};
ghost use Rattle.gm_model.specs.Budgets.{Bounds, Entries, no_entries, IsRunWithin};
ghost use Rattle.gm_model.specs.Maps.{IsDart, IsSound};
ghost use Rattle.gm_model.specs.Orbits.{HasCount};
ghost use Rattle.gm_model.specs.Runs.{State, start_of, AreInOrder, IsRun};
ghost use Rattle.gm_model.specs.Runs as runs;
ghost use Rattle.gm_arena.specs.inner.ArenaAsMap.{as_map};
ghost use Rattle.gm_theory.specs.inner.Outcomes.{IsGoodStat};
ghost use Rattle.gm_theory.specs.inner.Suited.{IsSuited};
ghost use Rattle.gm_run.specs.inner.Alike.{AreAlike};
ghost use Rattle.gm_run.specs.inner.Lines.{Tells};
ghost use Rattle.gm_run.specs.inner.Printing.{CanBePrinted};
ghost use Rattle.gm_run.specs.inner.Progress.{rules_of, ArePlansFor, IsCutShort};
ghost use Rattle.gm_run.specs.inner.Standing.{StandsAt, HasStep, IsAllowed, IsStopped, NeedsHistory};
ghost use Rattle.gm_run.specs.inner.Standing as definition;

use crate::each::run_each;
use crate::lines::run_line;
use crate::outcome::{Outcome, Report};
use crate::standing::{Keeping, Open, Standing};
use gm_arena::{Arena, Steps};
use gm_model::{Items, MOST_DARTS, OutOfMemory, Script, StatRef};
use gm_plan::Plan;
use gm_undo::History;
use gm_walk::Scratch;
use std::alloc::Global;
use std::sync::ledger::Ledger;

/// Runs the statements, each at the map that the one before it left. An application that is refused
/// leaves the map; in a group it makes that those after it are skipped, and that at its end the
/// map is what it was where it began.
///
/// The arena has a sound map again, whatever the answer is. Where memory ran out, it has the map
/// after some of the statements, the first ones, which may end within a group, or after such and some
/// applications of the `each` that follows them; none was applied in part. The report tells an
/// outcome of each statement, so nothing is refused because memory ran out.
///
/// There is one run: whatever outcomes the definition gives, the report tells them, and whatever map,
/// the arena has one alike. The steps are within the bounds that it gives: the greatest, whatever the
/// answer is, and the least, where each statement was run.
pub fn run<L: Ledger>(
    alloc: Global,
    plans: &[Plan<'_>],
    script: &Script,
    arena: &mut Arena,
    steps: &mut Steps<L>,
) -> Result<Report, OutOfMemory>
    requires sound { IsSound (as_map arena.old) }
    requires plans { ArePlansFor arena.old.schema plans.now }
    requires good { All (IsGoodStat (rules_of plans.now) arena.old.schema.dim) script.now.stats }
    requires order { AreInOrder false script.now.stats }
    ensures run { IfOk result (λ report. (outcomes : List runs.Outcome) × (after : State) × Tells report.lines outcomes × (after.map ≡ as_map arena.new) × IsRun (rules_of plans.now) (start_of (as_map arena.old)) script.now.stats outcomes after) }
    ensures only { IfOk result (λ report. (outcomes : List runs.Outcome) (after : State) → IsRun (rules_of plans.now) (start_of (as_map arena.old)) script.now.stats outcomes after → Tells report.lines outcomes × AreAlike after.map (as_map arena.new)) }
    ensures most { (outcomes : List runs.Outcome) (after : State) (bounds : Bounds) → IsRunWithin (rules_of plans.now) (start_of (as_map arena.old)) no_entries script.now.stats outcomes after bounds → steps.new ≤ steps.old + bounds.most }
    ensures least { IfOk result (λ report. (outcomes : List runs.Outcome) (after : State) (bounds : Bounds) → IsRunWithin (rules_of plans.now) (start_of (as_map arena.old)) no_entries script.now.stats outcomes after bounds → steps.old + bounds.least ≤ steps.new) }
    ensures bounds { IfOk result (λ report. (outcomes : List runs.Outcome) → Tells report.lines outcomes → (after : State) × (bounds : Bounds) × (after.map ≡ as_map arena.new) × IsRunWithin (rules_of plans.now) (start_of (as_map arena.old)) no_entries script.now.stats outcomes after bounds) }
    ensures darts { IfOk result (λ report. (report.darts ≡ arena.new.count) × HasCount (IsDart (as_map arena.new)) report.darts) }
    ensures next { IfOk result (λ report. report.next ≡ arena.new.next) }
    ensures printable { IfOk result (λ report. CanBePrinted arena.old.schema (rules_of plans.now) script.now.stats report.lines) }
    ensures cut { IfErr result (λ _. IsCutShort (rules_of plans.now) (as_map arena.old) script.now.stats (as_map arena.new) steps.old steps.new) }
    ensures sound { IsSound (as_map arena.new) }
    ensures schema { arena.new.schema ≡ arena.old.schema }
    ensures spare_stays { arena.old.count + arena.old.spare ≤ arena.new.count + arena.new.spare }
    ensures reserved_stays { arena.old.reserved ≤ arena.new.reserved }
{
    let mut standing = Standing {
        keeps: Keeping {
            on: true,
            reach: goings(script),
        },
        history: History::new(alloc),
        group: Open::Nothing,
        scratch: Scratch::new(alloc),
    };
    // From this call it is known what an arena keeps.
    prove!(arena.count() <= MOST_DARTS);
    let count = script.len();
    let mut outcomes = Vec::with_capacity(alloc, count)?;
    for index in 0..count {
        let stat = script.get(index);
        standing.settle(alloc, stat, arena);
        let outcome = stat_outcome(alloc, plans, stat, arena, &mut standing, steps)?;
        outcomes.push_reserved(outcome);
    }
    Ok(Report {
        lines: Items::new(outcomes),
        darts: arena.count(),
        next: arena.next(),
    })
}

/// How many of the statements go back or on.
fn goings(script: &Script) -> usize
    ensures { result ≡ sum_by definition.going script.now.stats }
{
    let mut all = 0;
    for index in 0..script.len() {
        all += going(script.get(index));
    }
    all
}

/// 1 for a statement that goes back or on.
fn going(stat: StatRef<'_>) -> usize
    ensures one { result ≤ 1 }
    ensures going { result ≡ definition.going (stat_of stat.entry) }
{
    match stat {
        StatRef::Undo | StatRef::Redo => 1,
        StatRef::Apply(_) | StatRef::Each { .. } | StatRef::Group | StatRef::End => 0,
    }
}

/// Runs one statement.
fn stat_outcome<L: Ledger>(
    alloc: Global,
    plans: &[Plan<'_>],
    stat: StatRef<'_>,
    arena: &mut Arena,
    standing: &mut Standing,
    steps: &mut Steps<L>,
) -> Result<Outcome, OutOfMemory>
    requires sound { IsSound (as_map arena.old) }
    requires plans { ArePlansFor arena.old.schema plans.now }
    requires good { IsGoodStat (rules_of plans.now) arena.old.schema.dim (stat_of stat) }
    requires stands { (state : State) × (entries : Entries) × StandsAt standing.old arena.old state entries }
    requires allowed { IsAllowed standing.old.group (stat_of stat) }
    requires needs { NeedsHistory (stat_of stat) → standing.old.keeps.on ≡ true }
    requires reach { definition.going (stat_of stat) ≤ standing.old.keeps.reach }
    ensures step { (state : State) (entries : Entries) → StandsAt standing.old arena.old state entries → MatchResult result
        (λ outcome. HasStep (rules_of plans.now) state entries (stat_of stat.entry) outcome standing.new arena.new steps.old steps.new)
        (λ _. IsStopped (rules_of plans.now) state (stat_of stat.entry) (as_map arena.new) steps.old steps.new) }
    ensures keeps { standing.new.keeps.on ≡ standing.old.keeps.on }
    ensures reach { standing.new.keeps.reach + definition.going (stat_of stat.entry) ≡ standing.old.keeps.reach }
    ensures suited { IsSuited arena.old.schema (rules_of plans.now) (stat_of stat.entry) }
    ensures sound { IsSound (as_map arena.new) }
    ensures schema { arena.new.schema ≡ arena.old.schema }
    ensures spare_stays { arena.old.count + arena.old.spare ≤ arena.new.count + arena.new.spare }
    ensures reserved_stays { arena.old.reserved ≤ arena.new.reserved }
{
    match stat {
        StatRef::Apply(line) => run_line(alloc, plans, line, arena, standing, steps),
        StatRef::Undo => Ok(standing.undo(arena, steps)),
        StatRef::Redo => Ok(standing.redo(arena, steps)),
        StatRef::Group => Ok(standing.begin(arena)),
        StatRef::End => Ok(standing.end(arena, steps)),
        StatRef::Each { mask, rule, params } => {
            run_each(alloc, plans, mask, rule, params, arena, standing, steps)
        }
    }
}
