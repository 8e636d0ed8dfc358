//! Slots of a rule whose hooks have one label each, so that their walk is a dart and its neighbour, or
//! the dart alone.
ghost use Rattle.std.specs.Prelude.{◌≡◌, ◌≢◌, ℕ, List, ◌+◌, ◌*◌, ◌<◌, ◌≤◌, [], length, OnOk};
ghost use Rattle.std.specs.List.{Contains};
ghost use Rattle.gm_arena.specs.inner.ArenaMap.{IsLiveSlot, alpha, name_at};
ghost use Rattle.gm_model.specs.declared.rule.Side.TheVariants.{Left};
ghost use Rattle.gm_model.specs.Rules.{rule_of, first_hook, label_at, letters, width};
ghost use Rattle.gm_plan.specs.inner.Plans.{IsLeftCount};
ghost use Rattle.gm_walk.specs.inner.Walks.{AreLive, names_of};
ghost use Rattle.gm_match.specs.inner.Layout.{AreHooksLaid, AreMatchable, AreRows, AreWalkedFrom, dart_at};
ghost use Rattle.gm_model.specs.declared.limit.TheConstants.{MOST_NODES};

use crate::columns::follow_links;
use gm_arena::{Arena, Slot, Steps};
use gm_model::{Letter, OutOfMemory, Side};
use gm_plan::Plan;
use std::sync::ledger::Ledger;

/// Puts the slots of the left nodes, by position and node, into the empty vector. Each hook has its own
/// dart, and at the second position, where there is one, this dart's neighbour along its own label.
pub(crate) fn fill_edge<L: Ledger>(
    plan: &Plan<'_>,
    arena: &Arena,
    darts: &[Slot],
    walk: &[Slot],
    slots: &mut Vec<Slot>,
    steps: &mut Steps<L>,
) -> Result<(), OutOfMemory>
    requires walked { AreWalkedFrom arena.now plan.now darts.now walk.now }
    requires one { width (rule_of plan.now.table) ≡ 1 }
    requires short { length walk.now ≤ 2 }
    requires empty { slots.old.items ≡ [] }
    ensures slots { OnOk result ((turns : List ℕ) → (nodes : ℕ) × IsLeftCount (rule_of plan.now.table) nodes
        × AreRows arena.now (rule_of plan.now.table) (names_of arena.now darts.now) (names_of arena.now walk.now) turns nodes (length walk.now) slots.new.items) }
    ensures cost { steps.new + length walk.now ≤ steps.old + length walk.now * length (rule_of plan.now.table).nodes }
    ensures least { steps.old ≤ steps.new }
{
    let nodes = plan.left_nodes() as usize;
    slots.resize(walk.len() * nodes, walk[0])?;
    write_edge(plan, arena, darts, walk, nodes, slots, steps);
    Ok(())
}

/// Writes the slots of the left nodes over others, by position and node.
fn write_edge<L: Ledger>(
    plan: &Plan<'_>,
    arena: &Arena,
    darts: &[Slot],
    walk: &[Slot],
    nodes: usize,
    slots: &mut [Slot],
    steps: &mut Steps<L>,
)
    requires walked { AreWalkedFrom arena.now plan.now darts.now walk.now }
    requires one { width (rule_of plan.now.table) ≡ 1 }
    requires nodes { IsLeftCount (rule_of plan.now.table) nodes }
    requires few { nodes ≤ MOST_NODES }
    requires short { length walk.now ≤ 2 }
    requires long { length walk.now * nodes ≡ length slots.old }
    requires live { AreLive arena.now slots.old }
    ensures long { length slots.new ≡ length slots.old }
    ensures rows { (turns : List ℕ) → AreRows arena.now (rule_of plan.now.table) (names_of arena.now darts.now) (names_of arena.now walk.now) turns nodes (length walk.now) slots.new }
    ensures cost { steps.new + length walk.now ≤ steps.old + length walk.now * length (rule_of plan.now.table).nodes }
    ensures least { steps.old ≤ steps.new }
{
    lay_hooks(plan, arena, darts, walk, nodes, slots, steps);
    follow_links(plan, arena, walk.len(), nodes, slots, steps);
}

/// Writes the slots of the hooks over others.
fn lay_hooks<L: Ledger>(
    plan: &Plan<'_>,
    arena: &Arena,
    darts: &[Slot],
    walk: &[Slot],
    nodes: usize,
    slots: &mut [Slot],
    steps: &mut Steps<L>,
)
    requires walked { AreWalkedFrom arena.now plan.now darts.now walk.now }
    requires one { width (rule_of plan.now.table) ≡ 1 }
    requires nodes { IsLeftCount (rule_of plan.now.table) nodes }
    requires few { nodes ≤ MOST_NODES }
    requires short { length walk.now ≤ 2 }
    requires long { length walk.now * nodes ≡ length slots.old }
    requires live { AreLive arena.now slots.old }
    ensures long { length slots.new ≡ length slots.old }
    ensures live { AreLive arena.now slots.new }
    ensures laid { AreHooksLaid arena.now (rule_of plan.now.table) (names_of arena.now darts.now) (names_of arena.now walk.now) (length walk.now) nodes (length (rule_of plan.now.table).hooks) slots.new }
    ensures cost { steps.new + 1 ≡ steps.old + length (rule_of plan.now.table).hooks }
{
    let hooks = plan.rule().hooks.as_slice();
    let rows = walk.len();
    lay_ends(arena, hooks[0], walk[0], walk[rows - 1], rows, nodes, slots);
    for index in 1..hooks.len() {
        let dart = darts[index];
        let other = hook_end(plan, arena, hooks[index], dart, steps);
        lay_ends(arena, hooks[index], dart, other, rows, nodes, slots);
    }
}

/// The slot to which the hook's only label leads from its dart.
fn hook_end<L: Ledger>(
    plan: &Plan<'_>,
    arena: &Arena,
    hook: u8,
    dart: Slot,
    steps: &mut Steps<L>,
) -> Slot
    requires matchable { AreMatchable arena.now plan.now }
    requires hook { Contains (rule_of plan.now.table).hooks hook }
    requires one { width (rule_of plan.now.table) ≡ 1 }
    requires dart { IsLiveSlot arena.now dart.at }
    ensures live { IsLiveSlot arena.now result.at }
    ensures leads { name_at arena.now result.at ≡ alpha arena.now (label_at (letters (rule_of plan.now.table) Left hook) 0) (name_at arena.now dart.at) }
    ensures cost { steps.new ≡ steps.old + 1 }
{
    let word = plan.rule().word(Side::Left, hook).unwrap();
    let Letter::At(label) = word.letter(0) else {
        unreachable!()
    };
    arena.alpha(dart, label, steps)
}

/// Writes a slot to the node in the first row, and another in the second, where there is one.
fn lay_ends(
    arena: &Arena,
    node: u8,
    one: Slot,
    other: Slot,
    rows: usize,
    nodes: usize,
    slots: &mut [Slot],
)
    requires node { node < nodes }
    requires some { 0 < rows }
    requires short { rows ≤ 2 }
    requires few { nodes ≤ MOST_NODES }
    requires long { rows * nodes ≡ length slots.old }
    requires one { IsLiveSlot arena.now one.at }
    requires other { IsLiveSlot arena.now other.at }
    requires live { AreLive arena.now slots.old }
    ensures long { length slots.new ≡ length slots.old }
    ensures live { AreLive arena.now slots.new }
    ensures one { dart_at arena.now nodes slots.new node 0 ≡ name_at arena.now one.at }
    ensures other { 1 < rows → dart_at arena.now nodes slots.new node 1 ≡ name_at arena.now other.at }
    ensures stays { (x p : ℕ) → x < nodes → x ≢ node → dart_at arena.now nodes slots.new x p ≡ dart_at arena.now nodes slots.old x p }
{
    slots[node as usize] = one;
    if rows == 1 {
        return;
    }
    slots[nodes + node as usize] = other;
}
