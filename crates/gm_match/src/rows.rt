//! The candidate of a rule, made position by position.

ghost use Rattle.std.specs.Prelude.{◌≡◌, ℕ, ◌+◌, ◌/◌, ◌%◌, ◌<◌, ◌≤◌, length, slice_get, slice_index, Some};
ghost use Rattle.std.specs.List.{Contains};
ghost use Rattle.gm_arena.specs.inner.ArenaMap.{IsLiveSlot, name_at};
ghost use Rattle.gm_model.specs.Rules.{rule_of, first_hook};
ghost use Rattle.gm_plan.specs.inner.Plans.{IsLeftCount};
ghost use Rattle.gm_walk.specs.inner.Walks.{AreLive, names_of};
ghost use Rattle.gm_match.specs.inner.Layout.{AreMatchable, IsForcedRow, IsTurnAmong, dart_in, stepped};

use gm_arena::{Arena, Slot, Steps};
use gm_model::{Letter, MOST_NODES, Side};
use gm_plan::Plan;
use std::sync::ledger::Ledger;

/// Writes the slots of position 0 into the row, by node: each hook has its own dart.
pub(crate) fn first_row<L: Ledger>(
    plan: &Plan<'_>,
    arena: &Arena,
    darts: &[Slot],
    row: &mut [Slot; MOST_NODES],
    steps: &mut Steps<L>,
)
    requires matchable { AreMatchable arena.now plan.now }
    requires count { length darts.now ≡ length (rule_of plan.now.table).hooks }
    requires live { AreLive arena.now darts.now }
    requires row { AreLive arena.now row.old }
    ensures darts { (t h : ℕ) → slice_get (rule_of plan.now.table).hooks t ≡ Some h → dart_in arena.now row.new h ≡ slice_index (names_of arena.now darts.now) t }
    ensures row { IsForcedRow arena.now (rule_of plan.now.table) row.new }
    ensures cost { steps.new + length (rule_of plan.now.table).hooks ≤ steps.old + length (rule_of plan.now.table).nodes }
    ensures least { steps.old ≤ steps.new }
{
    let hooks = plan.rule().hooks.as_slice();
    for (index, dart) in darts.iter().enumerate() {
        row[hooks[index] as usize] = *dart;
    }
    follow_paths(plan, arena, row, steps);
}

/// Writes the slots of a later position into the row, by node. The first hook has the walk's slot,
/// and each other one is led by its own letter from where the slots so far have it at the turn's
/// position.
pub(crate) fn later_row<L: Ledger>(
    plan: &Plan<'_>,
    arena: &Arena,
    first: Slot,
    slots: &[Slot],
    turn: usize,
    row: &mut [Slot; MOST_NODES],
    steps: &mut Steps<L>,
)
    requires matchable { AreMatchable arena.now plan.now }
    requires some { 0 < length (rule_of plan.now.table).hooks }
    requires first { IsLiveSlot arena.now first.at }
    requires slots { AreLive arena.now slots.now }
    requires turn { 1 < length (rule_of plan.now.table).hooks → IsTurnAmong (rule_of plan.now.table) slots.now turn }
    requires row { AreLive arena.now row.old }
    ensures first { (h : ℕ) → first_hook (rule_of plan.now.table) ≡ Some h → dart_in arena.now row.new h ≡ name_at arena.now first.at }
    ensures later { (t h nodes : ℕ) → 0 < t → slice_get (rule_of plan.now.table).hooks t ≡ Some h → IsLeftCount (rule_of plan.now.table) nodes
        → dart_in arena.now row.new h ≡ stepped arena.now (rule_of plan.now.table) nodes slots.now turn h }
    ensures row { IsForcedRow arena.now (rule_of plan.now.table) row.new }
    ensures cost { steps.new + 1 ≤ steps.old + length (rule_of plan.now.table).nodes }
    ensures least { steps.old ≤ steps.new }
{
    let hooks = plan.rule().hooks.as_slice();
    row[hooks[0] as usize] = first;
    for index in 1..hooks.len() {
        let hook = hooks[index];
        row[hook as usize] = step_hook(plan, arena, hook, slots, turn, steps);
    }
    follow_paths(plan, arena, row, steps);
}

/// The slot to which the hook's own letter at the turn's place leads from the turn's position.
fn step_hook<L: Ledger>(
    plan: &Plan<'_>,
    arena: &Arena,
    hook: u8,
    slots: &[Slot],
    turn: usize,
    steps: &mut Steps<L>,
) -> Slot
    requires matchable { AreMatchable arena.now plan.now }
    requires hook { Contains (rule_of plan.now.table).hooks hook }
    requires slots { AreLive arena.now slots.now }
    requires turn { IsTurnAmong (rule_of plan.now.table) slots.now turn }
    ensures live { IsLiveSlot arena.now result.at }
    ensures stepped { (nodes : ℕ) → IsLeftCount (rule_of plan.now.table) nodes
        → name_at arena.now result.at ≡ stepped arena.now (rule_of plan.now.table) nodes slots.now turn hook }
    ensures cost { steps.new ≡ steps.old + 1 }
{
    let nodes = plan.left_nodes() as usize;
    let word = plan.rule().word(Side::Left, hook).unwrap();
    let (position, place) = parts_of(turn, word.len());
    let Letter::At(label) = word.letter(place) else {
        unreachable!()
    };
    let from = slots[position * nodes + hook as usize];
    arena.alpha(from, label, steps)
}

/// The position and the place of the turn with this index, where each position has `places` turns.
fn parts_of(turn: usize, places: u8) -> (usize, u8)
    requires { 0 < places }
    ensures position { result.0 ≡ turn / places }
    ensures place { result.1 ≡ turn % places }
{
    // Hooks mostly turn at one place or two, where nothing has to be divided.
    match places {
        1 => (turn, 0),
        2 => (turn / 2, (turn % 2) as u8),
        _ => (turn / places as usize, (turn % places as usize) as u8),
    }
}

/// Leads the nodes along their least paths from the hooks, which keep their slots.
fn follow_paths<L: Ledger>(
    plan: &Plan<'_>,
    arena: &Arena,
    row: &mut [Slot; MOST_NODES],
    steps: &mut Steps<L>,
)
    requires matchable { AreMatchable arena.now plan.now }
    requires live { AreLive arena.now row.old }
    ensures hooks { (t h : ℕ) → slice_get (rule_of plan.now.table).hooks t ≡ Some h → dart_in arena.now row.new h ≡ dart_in arena.now row.old h }
    ensures row { IsForcedRow arena.now (rule_of plan.now.table) row.new }
    ensures cost { steps.new + length (rule_of plan.now.table).hooks ≤ steps.old + length (rule_of plan.now.table).nodes }
    ensures least { steps.old ≤ steps.new }
{
    for link in plan.paths() {
        row[link.to as usize] = arena.alpha(row[link.from as usize], link.label, steps);
    }
}
