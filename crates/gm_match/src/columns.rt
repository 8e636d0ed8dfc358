//! The candidate of a rule with one hook, made node by node.

ghost use Rattle.std.specs.Prelude.{◌≡◌, ◌≢◌, ℕ, ◌+◌, ◌*◌, ◌<◌, ◌≤◌, [], length, slice_get, slice_index, Some, OnOk};
ghost use Rattle.gm_arena.specs.inner.ArenaMap.{alpha};
ghost use Rattle.gm_model.specs.Rules.{rule_of};
ghost use Rattle.gm_plan.specs.inner.Plans.{IsLeftCount};
ghost use Rattle.gm_walk.specs.inner.Walks.{AreLive, names_of};
ghost use Rattle.gm_match.specs.inner.Layout.{AreMatchable, AreAlongWalk, AreForcedRows, dart_at};

use gm_arena::{Arena, Slot, Steps};
use gm_model::{Link, OutOfMemory};
use gm_plan::Plan;
use std::sync::ledger::Ledger;

/// Puts the slots of the left nodes of a rule with one hook, by position and node, into the empty
/// vector. The hook lies along the walk, and each link leads to its end at all positions before the
/// next one does.
pub(crate) fn fill_columns<L: Ledger>(
    plan: &Plan<'_>,
    arena: &Arena,
    walk: &[Slot],
    slots: &mut Vec<Slot>,
    steps: &mut Steps<L>,
) -> Result<(), OutOfMemory>
    requires matchable { AreMatchable arena.now plan.now }
    requires one { length (rule_of plan.now.table).hooks ≡ 1 }
    requires some_position { 0 < length walk.now }
    requires few { length walk.now ≤ 4294967295 }
    requires walk { AreLive arena.now walk.now }
    requires empty { slots.old.items ≡ [] }
    ensures columns { OnOk result ((nodes : ℕ) × IsLeftCount (rule_of plan.now.table) nodes
        × AreAlongWalk arena.now (rule_of plan.now.table) nodes (names_of arena.now walk.now) (length walk.now) slots.new.items) }
    ensures cost { steps.new + length walk.now ≤ steps.old + length walk.now * length (rule_of plan.now.table).nodes }
    ensures least { steps.old ≤ steps.new }
{
    let nodes = plan.left_nodes() as usize;
    slots.resize(walk.len() * nodes, walk[0])?;
    write_columns(plan, arena, walk, nodes, slots, steps);
    Ok(())
}

/// Writes the slots of the left nodes over the others, by position and node.
fn write_columns<L: Ledger>(
    plan: &Plan<'_>,
    arena: &Arena,
    walk: &[Slot],
    nodes: usize,
    slots: &mut [Slot],
    steps: &mut Steps<L>,
)
    requires matchable { AreMatchable arena.now plan.now }
    requires one { length (rule_of plan.now.table).hooks ≡ 1 }
    requires nodes { IsLeftCount (rule_of plan.now.table) nodes }
    requires few { length walk.now * nodes ≤ 4294967295 * 32 }
    requires walk { AreLive arena.now walk.now }
    requires long { length walk.now * nodes ≡ length slots.old }
    requires live { AreLive arena.now slots.old }
    ensures long { length slots.new ≡ length slots.old }
    ensures columns { AreAlongWalk arena.now (rule_of plan.now.table) nodes (names_of arena.now walk.now) (length walk.now) slots.new }
    ensures cost { steps.new + length walk.now ≤ steps.old + length walk.now * length (rule_of plan.now.table).nodes }
    ensures least { steps.old ≤ steps.new }
{
    let hook = plan.rule().hooks.as_slice()[0];
    lay_walk(arena, walk, hook, nodes, slots);
    follow_links(plan, arena, walk.len(), nodes, slots, steps);
}

/// Writes the slots of the walk to the node, by position.
fn lay_walk(arena: &Arena, walk: &[Slot], node: u8, nodes: usize, slots: &mut [Slot])
    requires node { node < nodes }
    requires few { length walk.now * nodes ≤ 4294967295 * 32 }
    requires long { length walk.now * nodes ≡ length slots.old }
    requires walk { AreLive arena.now walk.now }
    requires live { AreLive arena.now slots.old }
    ensures live { AreLive arena.now slots.new }
    ensures long { length slots.new ≡ length slots.old }
    ensures lies { (p : ℕ) → p < length walk.now → dart_at arena.now nodes slots.new node p ≡ slice_index (names_of arena.now walk.now) p }
{
    for position in 0..walk.len() {
        slots[position * nodes + node as usize] = walk[position];
    }
}

/// Leads the nodes of all rows along their least paths from the hooks, which keep their slots.
pub(crate) fn follow_links<L: Ledger>(
    plan: &Plan<'_>,
    arena: &Arena,
    rows: usize,
    nodes: usize,
    slots: &mut [Slot],
    steps: &mut Steps<L>,
)
    requires matchable { AreMatchable arena.now plan.now }
    requires nodes { IsLeftCount (rule_of plan.now.table) nodes }
    requires few { rows * nodes ≤ 4294967295 * 32 }
    requires long { rows * nodes ≡ length slots.old }
    requires live { AreLive arena.now slots.old }
    ensures live { AreLive arena.now slots.new }
    ensures long { length slots.new ≡ length slots.old }
    ensures hooks { (t h p : ℕ) → p < rows → slice_get (rule_of plan.now.table).hooks t ≡ Some h → dart_at arena.now nodes slots.new h p ≡ dart_at arena.now nodes slots.old h p }
    ensures forced { AreForcedRows arena.now (rule_of plan.now.table) nodes rows slots.new }
    ensures cost { steps.new + rows * length (rule_of plan.now.table).hooks ≤ steps.old + rows * length (rule_of plan.now.table).nodes }
    ensures least { steps.old ≤ steps.new }
{
    for link in plan.paths() {
        follow_link(arena, *link, rows, nodes, slots, steps);
    }
}

/// Writes, for each row, where the link leads from its first node, to its second one.
fn follow_link<L: Ledger>(
    arena: &Arena,
    link: Link,
    rows: usize,
    nodes: usize,
    slots: &mut [Slot],
    steps: &mut Steps<L>,
)
    requires from { link.from < nodes }
    requires to { link.to < nodes }
    requires label { link.label ≤ arena.now.schema.dim }
    requires few { rows * nodes ≤ 4294967295 * 32 }
    requires long { rows * nodes ≡ length slots.old }
    requires live { AreLive arena.now slots.old }
    ensures live { AreLive arena.now slots.new }
    ensures long { length slots.new ≡ length slots.old }
    ensures led { (p : ℕ) → p < rows → dart_at arena.now nodes slots.new link.to p ≡ alpha arena.now link.label (dart_at arena.now nodes slots.old link.from p) }
    ensures stays { (x p : ℕ) → x < nodes → x ≢ link.to → dart_at arena.now nodes slots.new x p ≡ dart_at arena.now nodes slots.old x p }
    ensures cost { steps.new ≡ steps.old + rows }
{
    for position in 0..rows {
        let start = position * nodes;
        let from = slots[start + link.from as usize];
        slots[start + link.to as usize] = arena.alpha(from, link.label, steps);
    }
}
