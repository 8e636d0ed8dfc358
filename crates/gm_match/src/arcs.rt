//! Whether the candidate of a match meets the left steps of its rule, and which is broken first.

ghost use Rattle.std.specs.Prelude.{◌≡◌, ◌≢◌, ℕ, List, ◌+◌, ◌*◌, ◌<◌, ◌≤◌, ◌↔◌, length, MatchOption, MatchResult, IsTrue};
ghost use Rattle.gm_arena.specs.inner.ArenaAsMap.{as_map};
ghost use Rattle.gm_arena.specs.inner.ArenaMap.{IsLiveSlot, name_at, alpha};
ghost use Rattle.gm_arena.specs.inner.Lawful.{IsLawful};
ghost use Rattle.gm_model.specs.declared.step.Step.TheVariants.{Absent, Exp, Imp};
ghost use Rattle.gm_model.specs.Maps.{IsGeneralised};
ghost use Rattle.gm_model.specs.Matches.{IsMetAt, IsStepMet};
ghost use Rattle.gm_model.specs.declared.rule.Side.TheVariants.{Left};
ghost use Rattle.gm_model.specs.Rules.{rule_of, step};
ghost use Rattle.gm_model.specs.Structure.{AreGood, IsFirstBad};
ghost use Rattle.gm_plan.specs.inner.Tested.{IsForcedStep};
ghost use Rattle.gm_walk.specs.inner.Walks.{AreLive};
ghost use Rattle.gm_plan.specs.inner.InArena.{placement_in};
ghost use Rattle.gm_match.specs.inner.Layout.{AreMatchable, IsCandidateAt};
ghost use Rattle.gm_match.specs.inner.Firsts.{AreMetBy, AreMet, IsFirstAt, IsFirstStep};

use crate::fault::MatchFault;
use gm_arena::{Arena, Slot, Steps};
use gm_model::Step;
use gm_plan::{Instances, Plan, Test};
use std::sync::ledger::Ledger;

/// Tests the left steps of the candidate, but for those that it meets as it is made.
pub(crate) fn meet_steps<L: Ledger>(
    plan: &Plan<'_>,
    arena: &Arena,
    found: &Instances,
    steps: &mut Steps<L>,
) -> Result<(), MatchFault>
    requires matchable { AreMatchable arena.now plan.now }
    requires candidate { (hooks : List ℕ) × IsCandidateAt arena.now (rule_of plan.now.table) hooks found.now }
    ensures steps { MatchResult result
        (λ _. AreMet arena.now (rule_of plan.now.table) found.now)
        (IsFirstStep arena.now (rule_of plan.now.table) found.now) }
    ensures cost { steps.new ≤ steps.old + 2 * (arena.now.schema.dim + 1) * (length (rule_of plan.now.table).nodes * found.now.positions) }
    ensures least { steps.old ≤ steps.new }
{
    if meets_all(plan, arena, found, steps) {
        return Ok(());
    }
    // Only where a step is broken it matters which is the first.
    meet_in_order(plan, arena, found, steps)
}

/// Whether the candidate meets each left step that needs a test.
fn meets_all<L: Ledger>(
    plan: &Plan<'_>,
    arena: &Arena,
    found: &Instances,
    steps: &mut Steps<L>,
) -> bool
    requires matchable { AreMatchable arena.now plan.now }
    requires candidate { (hooks : List ℕ) × IsCandidateAt arena.now (rule_of plan.now.table) hooks found.now }
    ensures met { IsTrue result → AreMet arena.now (rule_of plan.now.table) found.now }
    ensures cost { steps.new ≤ steps.old + (arena.now.schema.dim + 1) * (length (rule_of plan.now.table).nodes * found.now.positions) }
    ensures least { steps.old ≤ steps.new }
{
    let positions = found.positions();
    for test in plan.tests() {
        if first_broken(plan, arena, found, *test, positions, steps).is_some() {
            return false;
        }
    }
    true
}

/// Tests the left steps by node, position and label, so that the first that is broken is named.
fn meet_in_order<L: Ledger>(
    plan: &Plan<'_>,
    arena: &Arena,
    found: &Instances,
    steps: &mut Steps<L>,
) -> Result<(), MatchFault>
    requires matchable { AreMatchable arena.now plan.now }
    requires candidate { (hooks : List ℕ) × IsCandidateAt arena.now (rule_of plan.now.table) hooks found.now }
    ensures steps { MatchResult result
        (λ _. AreMet arena.now (rule_of plan.now.table) found.now)
        (IsFirstStep arena.now (rule_of plan.now.table) found.now) }
    ensures cost { steps.new ≤ steps.old + (arena.now.schema.dim + 1) * (length (rule_of plan.now.table).nodes * found.now.positions) }
    ensures least { steps.old ≤ steps.new }
{
    for node in 0..plan.left_nodes() {
        if !plan.needs_test(node) {
            continue;
        }
        if let Some((position, label)) = broken_position(plan, arena, found, node, steps) {
            return Err(MatchFault::Arc {
                node,
                position,
                label,
            });
        }
    }
    Ok(())
}

/// The first position and label at which a left step of the node is broken.
///
/// It goes label by label, so that each step is looked up once for all positions, and of a label only
/// the positions count that come before what an earlier one has broken.
fn broken_position<L: Ledger>(
    plan: &Plan<'_>,
    arena: &Arena,
    found: &Instances,
    node: u8,
    steps: &mut Steps<L>,
) -> Option<(u32, u8)>
    requires matchable { AreMatchable arena.now plan.now }
    requires candidate { (hooks : List ℕ) × IsCandidateAt arena.now (rule_of plan.now.table) hooks found.now }
    requires node { node < found.now.nodes }
    ensures first { MatchOption result
        (AreMetBy arena.now (rule_of plan.now.table) found.now node)
        (λ at. IsFirstAt arena.now (rule_of plan.now.table) found.now node at.0 at.1) }
    ensures cost { steps.new ≤ steps.old + (arena.now.schema.dim + 1) * found.now.positions }
    ensures least { steps.old ≤ steps.new }
{
    let mut first = None;
    let mut end = found.positions();
    for label in 0..arena.schema().dim.top() + 1 {
        let step = plan.tested_step(node, label);
        let test = Test { node, label, step };
        if let Some(position) = first_broken(plan, arena, found, test, end, steps) {
            first = Some((position, label));
            end = position;
        }
    }
    first
}

/// The first position before `end` at which the left step of the node at the label is broken. Where
/// the test has none, the step is met at each.
fn first_broken<L: Ledger>(
    plan: &Plan<'_>,
    arena: &Arena,
    found: &Instances,
    test: Test,
    end: u32,
    steps: &mut Steps<L>,
) -> Option<u32>
    requires matchable { AreMatchable arena.now plan.now }
    requires candidate { (hooks : List ℕ) × IsCandidateAt arena.now (rule_of plan.now.table) hooks found.now }
    requires node { test.node < found.now.nodes }
    requires label { test.label ≤ arena.now.schema.dim }
    requires forced { test.step ≡ Absent → IsForcedStep (rule_of plan.now.table) test.node test.label }
    requires kept { test.step ≢ Absent → test.step ≡ step (rule_of plan.now.table) Left test.node test.label }
    requires end { end ≤ found.now.positions }
    ensures first { MatchOption result
        (AreGood (λ p. IsMetAt (as_map arena.now) (rule_of plan.now.table) (placement_in arena.now found.now) test.node p test.label) end)
        (IsFirstBad (λ p. IsMetAt (as_map arena.now) (rule_of plan.now.table) (placement_in arena.now found.now) test.node p test.label) end) }
    ensures cost { steps.new ≤ steps.old + end }
    ensures least { steps.old ≤ steps.new }
{
    let Test { node, label, step } = test;
    match step {
        Step::Absent => None,
        Step::Exp(other) => first_unlinked(arena, found, node, label, other, end, steps),
        Step::Imp(place) => first_unturned(arena, found, node, label, place, end, steps),
    }
}

/// The first position before `end` at which the label doesn't lead from the node to the other one.
fn first_unlinked<L: Ledger>(
    arena: &Arena,
    found: &Instances,
    node: u8,
    label: u8,
    other: u8,
    end: u32,
    steps: &mut Steps<L>,
) -> Option<u32>
    requires lawful { IsLawful arena.now }
    requires map { IsGeneralised (as_map arena.now) }
    requires live { AreLive arena.now found.now.slots }
    requires node { node < found.now.nodes }
    requires label { label ≤ arena.now.schema.dim }
    requires other { other < found.now.nodes }
    requires end { end ≤ found.now.positions }
    ensures first { MatchOption result
        (AreGood (λ p. IsStepMet (alpha arena.now) (placement_in arena.now found.now) node p label (Exp other)) end)
        (IsFirstBad (λ p. IsStepMet (alpha arena.now) (placement_in arena.now found.now) node p label (Exp other)) end) }
    ensures cost { steps.new ≤ steps.old + end }
    ensures least { steps.old ≤ steps.new }
{
    for position in 0..end {
        let from = found.slot(node, position);
        let to = found.slot(other, position);
        if !leads(arena, from, label, to, steps) {
            return Some(position);
        }
    }
    None
}

/// The first position before `end` at which the label doesn't lead along the node to where the
/// position turns at the place.
fn first_unturned<L: Ledger>(
    arena: &Arena,
    found: &Instances,
    node: u8,
    label: u8,
    place: u8,
    end: u32,
    steps: &mut Steps<L>,
) -> Option<u32>
    requires lawful { IsLawful arena.now }
    requires live { AreLive arena.now found.now.slots }
    requires node { node < found.now.nodes }
    requires label { label ≤ arena.now.schema.dim }
    requires place { place < found.now.places }
    requires end { end ≤ found.now.positions }
    ensures first { MatchOption result
        (AreGood (λ p. IsStepMet (alpha arena.now) (placement_in arena.now found.now) node p label (Imp place)) end)
        (IsFirstBad (λ p. IsStepMet (alpha arena.now) (placement_in arena.now found.now) node p label (Imp place)) end) }
    ensures cost { steps.new ≤ steps.old + end }
    ensures least { steps.old ≤ steps.new }
{
    for position in 0..end {
        let from = found.slot(node, position);
        let to = found.slot(node, found.turn(position, place));
        if !leads(arena, from, label, to, steps) {
            return Some(position);
        }
    }
    None
}

/// Whether the second dart is the neighbour of the first along the label.
fn leads<L: Ledger>(arena: &Arena, from: Slot, label: u8, to: Slot, steps: &mut Steps<L>) -> bool
    requires lawful { IsLawful arena.now }
    requires from { IsLiveSlot arena.now from.at }
    requires label { label ≤ arena.now.schema.dim }
    requires to { IsLiveSlot arena.now to.at }
    ensures leads { IsTrue result ↔ (alpha arena.now label (name_at arena.now from.at) ≡ name_at arena.now to.at) }
    ensures cost { steps.new ≡ steps.old + 1 }
{
    arena.alpha(from, label, steps) == to
}
