//! The one candidate for a match: the slot of each left node at each position.

ghost use Rattle.std.specs.Prelude.{◌≡◌, ◌≢◌, ℕ, List, ◌++◌, ◌+◌, ◌*◌, ◌<◌, ◌≤◌, [], length, slice_index, Some, IfOk, OnOk, vec_capacity};
ghost use Rattle.gm_arena.specs.inner.ArenaAsMap.{as_map};
ghost use Rattle.gm_model.specs.Matches.{along_hook};
ghost use Rattle.gm_model.specs.Orbits.{IsWalk};
ghost use Rattle.gm_model.specs.Rules.{rule_of, first_hook, hook_word, width};
ghost use Rattle.gm_plan.specs.inner.Plans.{IsLeftCount};
ghost use Rattle.gm_walk.specs.inner.Cells.{AreCells};
ghost use Rattle.gm_walk.specs.inner.Room.{Fits};
ghost use Rattle.gm_walk.specs.inner.Turns.{IsTurn};
ghost use Rattle.gm_walk.specs.inner.Walks.{AreLive, along, names_of};
ghost use Rattle.gm_match.specs.inner.Layout.{AreMatchable, AreRows, AreWalkedFrom, HaveFirstTurns, IsCandidateAt, LeadBefore, IsFirstTo};
ghost use Rattle.gm_match.specs.inner.Taken.{AreSlotsOf};

use crate::columns::fill_columns;
use crate::edges::fill_edge;
use crate::hook_walk::{walk_hook, walk_in};
use crate::rows::{first_row, later_row};
use gm_arena::{Arena, Slot, Steps};
use gm_model::{MOST_NODES, OutOfMemory, Word};
use gm_plan::{Instances, Plan};
use gm_walk::Scratch;
use std::alloc::Global;
use std::sync::ledger::Ledger;

/// The candidate from the darts of the hooks. Unless its word has one letter, the scratch has walked
/// the slots of the first hook.
pub(crate) fn candidate<L: Ledger>(
    alloc: Global,
    plan: &Plan<'_>,
    arena: &Arena,
    darts: &[Slot],
    scratch: &mut Scratch,
    steps: &mut Steps<L>,
) -> Result<Instances, OutOfMemory>
    requires matchable { AreMatchable arena.now plan.now }
    requires some { 0 < length darts.now }
    requires count { length darts.now ≡ length (rule_of plan.now.table).hooks }
    requires live { AreLive arena.now darts.now }
    requires fits { Fits scratch.old arena.now }
    ensures candidate { IfOk result (IsCandidateAt arena.now (rule_of plan.now.table) (names_of arena.now darts.now)) }
    ensures walked { width (rule_of plan.now.table) ≢ 1 → IfOk result (λ found. (h : ℕ) → first_hook (rule_of plan.now.table) ≡ Some h → AreSlotsOf found h scratch.new.walked) }
    ensures cost { let rule = rule_of plan.now.table in (walk : List ℕ)
        → IsWalk (along_hook (as_map arena.now) rule) (width rule) (slice_index (names_of arena.now darts.now) 0) walk
        → steps.new ≤ steps.old + 5 * (arena.now.schema.dim + 1) * (length rule.nodes * length walk) }
    ensures least { steps.old ≤ steps.new }
    ensures room { scratch.new.bound ≡ scratch.old.bound }
{
    let word = plan.rule().hook_word().unwrap();
    let (slots, mut turns) = scratch.lend_rows(alloc);
    let from = darts[0];
    let to = walk_hook(arena, from, &word, scratch, &mut turns, steps)?;
    let ends = [from, to];
    let walk = walk_in(word.len(), &ends, turns.as_slice(), scratch);
    along_walk(plan, arena, darts, walk, &word, slots, turns, steps)
}

/// The candidate along the walk of the first hook, which has these turns, from the darts of the
/// hooks, in the room of an empty vector.
fn along_walk<L: Ledger>(
    plan: &Plan<'_>,
    arena: &Arena,
    darts: &[Slot],
    walk: &[Slot],
    word: &Word,
    mut slots: Vec<Slot>,
    turns: Vec<u32>,
    steps: &mut Steps<L>,
) -> Result<Instances, OutOfMemory>
    requires matchable { AreMatchable arena.now plan.now }
    requires some { 0 < length darts.now }
    requires count { length darts.now ≡ length (rule_of plan.now.table).hooks }
    requires live { AreLive arena.now darts.now }
    requires word { word.now ≡ hook_word (rule_of plan.now.table) }
    requires walk { IsWalk (along arena.now word.now) (length word.now) (slice_index (names_of arena.now darts.now) 0) (names_of arena.now walk.now) }
    requires walked { AreLive arena.now walk.now }
    requires few { length walk.now ≤ 4294967295 }
    requires short { length word.now ≡ 1 → length walk.now ≤ 2 }
    requires no_slots { slots.items ≡ [] }
    requires turns { AreCells (IsTurn arena.now word.now (names_of arena.now walk.now)) (length walk.now) (length word.now) turns.items }
    ensures candidate { IfOk result (IsCandidateAt arena.now (rule_of plan.now.table) (names_of arena.now darts.now)) }
    ensures walked { IfOk result (λ found. (h : ℕ) → first_hook (rule_of plan.now.table) ≡ Some h → AreSlotsOf found h walk.now) }
    ensures cost { steps.new ≤ steps.old + length walk.now * length (rule_of plan.now.table).nodes }
    ensures least { steps.old ≤ steps.new }
{
    fill_slots(
        plan,
        arena,
        darts,
        walk,
        word.len(),
        &turns,
        &mut slots,
        steps,
    )?;
    let positions = walk.len() as u32;
    Ok(Instances::with_nodes(
        slots,
        turns,
        positions,
        plan.left_nodes() as usize,
        word.len(),
    ))
}

/// Puts the slots of the left nodes, by position and node, into the empty vector. The turns are those
/// of the walk, one for each place at each position.
fn fill_slots<L: Ledger>(
    plan: &Plan<'_>,
    arena: &Arena,
    darts: &[Slot],
    walk: &[Slot],
    places: u8,
    turns: &[u32],
    slots: &mut Vec<Slot>,
    steps: &mut Steps<L>,
) -> Result<(), OutOfMemory>
    requires walked { AreWalkedFrom arena.now plan.now darts.now walk.now }
    requires places { places ≡ width (rule_of plan.now.table) }
    requires short { places ≡ 1 → length walk.now ≤ 2 }
    requires turns { HaveFirstTurns turns.now (length walk.now) (width (rule_of plan.now.table)) }
    requires empty { slots.old.items ≡ [] }
    ensures slots { OnOk result ((nodes : ℕ) × IsLeftCount (rule_of plan.now.table) nodes
        × AreRows arena.now (rule_of plan.now.table) (names_of arena.now darts.now) (names_of arena.now walk.now) turns.now nodes (length walk.now) slots.new.items) }
    ensures cost { steps.new + length walk.now ≤ steps.old + length walk.now * length (rule_of plan.now.table).nodes }
    ensures least { steps.old ≤ steps.new }
{
    let nodes = plan.left_nodes() as usize;
    if nodes == 1 {
        return fill_along(walk, slots);
    }
    if places == 1 {
        return fill_edge(plan, arena, darts, walk, slots, steps);
    }
    if plan.hooks() == 1 {
        return fill_columns(plan, arena, walk, slots, steps);
    }
    fill_rows(plan, arena, darts, walk, turns, slots, steps)
}

/// Puts the slots of the left nodes into the empty vector as `fill_slots` does, whatever hooks there are:
/// one position after another.
fn fill_rows<L: Ledger>(
    plan: &Plan<'_>,
    arena: &Arena,
    darts: &[Slot],
    walk: &[Slot],
    turns: &[u32],
    slots: &mut Vec<Slot>,
    steps: &mut Steps<L>,
) -> Result<(), OutOfMemory>
    requires walked { AreWalkedFrom arena.now plan.now darts.now walk.now }
    requires turns { HaveFirstTurns turns.now (length walk.now) (width (rule_of plan.now.table)) }
    requires empty { slots.old.items ≡ [] }
    ensures slots { OnOk result ((nodes : ℕ) × IsLeftCount (rule_of plan.now.table) nodes
        × AreRows arena.now (rule_of plan.now.table) (names_of arena.now darts.now) (names_of arena.now walk.now) turns.now nodes (length walk.now) slots.new.items) }
    ensures cost { steps.new + length walk.now ≤ steps.old + length walk.now * length (rule_of plan.now.table).nodes }
    ensures least { steps.old ≤ steps.new }
{
    let nodes = plan.left_nodes() as usize;
    slots.reserve(walk.len() * nodes)?;
    let mut row = [darts[0]; MOST_NODES];
    first_row(plan, arena, darts, &mut row, steps);
    push_row(&row[..nodes], slots);
    let mut turn = 0;
    for position in 1..walk.len() {
        turn = next_turn(turns, turn, position as u32);
        later_row(plan, arena, walk[position], slots, turn, &mut row, steps);
        push_row(&row[..nodes], slots);
    }
    Ok(())
}

/// Puts the row's slots after the others, into the room that there is for them.
fn push_row(row: &[Slot], slots: &mut Vec<Slot>)
    requires room { length slots.old.items + length row.now ≤ vec_capacity slots.old }
    ensures items { slots.new.items ≡ slots.old.items ++ row.now }
    ensures capacity { vec_capacity slots.new ≡ vec_capacity slots.old }
{
    // Most rules with several hooks have two left nodes. A loop would become a call that copies memory.
    match row {
        [one, other] => {
            slots.push_reserved(*one);
            slots.push_reserved(*other);
        }
        _ => push_slots(row, slots),
    }
}

/// The same, one slot after another.
fn push_slots(row: &[Slot], slots: &mut Vec<Slot>)
    requires room { length slots.old.items + length row.now ≤ vec_capacity slots.old }
    ensures items { slots.new.items ≡ slots.old.items ++ row.now }
    ensures capacity { vec_capacity slots.new ≡ vec_capacity slots.old }
{
    for slot in row {
        slots.push_reserved(*slot);
    }
}

/// Puts the slots of the only left node, by position, into the empty vector: it is the hook, which lies
/// along the walk.
fn fill_along(walk: &[Slot], slots: &mut Vec<Slot>) -> Result<(), OutOfMemory>
    requires empty { slots.old.items ≡ [] }
    ensures slots { OnOk result (slots.new.items ≡ walk.now) }
{
    slots.extend_from_slice(walk)?;
    Ok(())
}

/// The first turn to the position, where those before `from` lead to earlier positions.
fn next_turn(turns: &[u32], from: usize, position: u32) -> usize
    requires before { LeadBefore turns.now from position }
    requires some { (k : ℕ) × IsFirstTo turns.now position k }
    ensures before { LeadBefore turns.now result position }
    ensures first { IsFirstTo turns.now position result }
{
    let mut turn = from;
    while turns[turn] != position {
        turn += 1;
    }
    turn
}
