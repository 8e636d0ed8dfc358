//! A breadth-first search over the darts of a component, each with the parity of its distance.

ghost use Rattle.std.specs.Prelude.{◌≡◌, ℕ, ◌+◌, ◌*◌, ◌<◌, ◌≤◌, List, [], length, replicate, IfOk, OnOk};
ghost use Rattle.gm_arena.specs.inner.ArenaAsMap.{as_map};
ghost use Rattle.gm_arena.specs.inner.ArenaMap.{IsLiveSlot, name_at};
ghost use Rattle.gm_arena.specs.inner.Lawful.{IsLawful};
ghost use Rattle.gm_cells.specs.inner.Search.{IsFresh, IsSearched, IsSearching, Reaches, length_in, slot_in};
ghost use Rattle.gm_model.specs.Maps.{IsGeneralised};

use gm_arena::{Arena, Slot, Steps};
use gm_model::OutOfMemory;
use std::alloc::Global;
use std::sync::ledger::Ledger;

/// How many slots have their marks in a `u32`'s reach.
const MOST_SLOTS: usize = 1_073_741_824;

/// A dart that was reached, by its slot, and in how many steps.
#[derive(Clone, Copy)]
pub(crate) struct Visit {
    slot: Slot,
    length: u32,
}

/// For each slot and parity a mark, which is 0 as long as the slot wasn't reached.
pub(crate) fn no_marks(alloc: Global, slots: usize) -> Result<Vec<u32>, OutOfMemory>
    ensures marks { IfOk result (λ marks. marks.items ≡ replicate (2 * slots) 0) }
    ensures few { OnOk result (slots ≤ 1073741824) }
{
    if slots > MOST_SLOTS {
        return Err(OutOfMemory);
    }
    Ok(vec![in alloc; 0u32; 2 * slots]?)
}

/// Marks each dart of a component with the least length of a walk between it and the dart at `from`,
/// and one more, for each parity that a walk has.
pub(crate) fn search<L: Ledger>(
    arena: &Arena,
    from: Slot,
    marks: &mut [u32],
    queue: &mut Vec<Visit>,
    steps: &mut Steps<L>,
) -> Result<(), OutOfMemory>
    requires generalised { IsGeneralised (as_map arena.now) }
    requires live { IsLiveSlot arena.now from.at }
    requires long { length marks.old ≡ 2 * arena.now.bound }
    requires few { length marks.old ≤ 2147483648 }
    requires fresh { IsFresh arena.now (name_at arena.now from.at) marks.old }
    ensures searched { OnOk result (IsSearched arena.now (name_at arena.now from.at) marks.old marks.new) }
    ensures long { length marks.new ≡ length marks.old }
{
    prove!((from.at as usize) < arena.bound());
    queue.clear();
    reach(from, 0, marks, queue)?;
    let mut at = 0;
    while at < queue.len() {
        visit_neighbours(arena, at, marks, queue, steps)?;
        at += 1;
    }
    Ok(())
}

/// Reaches the neighbours of the dart at a place of the queue.
fn visit_neighbours<L: Ledger>(
    arena: &Arena,
    at: usize,
    marks: &mut [u32],
    queue: &mut Vec<Visit>,
    steps: &mut Steps<L>,
) -> Result<(), OutOfMemory>
    requires generalised { IsGeneralised (as_map arena.now) }
    requires lawful { IsLawful arena.now }
    requires within { at < length queue.old.items }
    requires live { IsLiveSlot arena.now (slot_in queue.old.items at) }
    requires long { length marks.old ≡ 2 * arena.now.bound }
    requires few { length_in queue.old.items at < 2147483648 }
    ensures searching { OnOk result ((d : ℕ) (old : List ℕ) → IsSearching arena.now d old at 0 marks.old queue.old.items → IsSearching arena.now d old (at + 1) 0 marks.new queue.new.items) }
    ensures long { length marks.new ≡ length marks.old }
{
    let visit = queue[at];
    for label in 0..arena.schema().dim.top() + 1 {
        let to = arena.alpha(visit.slot, label, steps);
        if to.at != visit.slot.at {
            reach(to, visit.length + 1, marks, queue)?;
        }
    }
    Ok(())
}

/// Marks the slot with the distance, and puts it at the end of the queue, unless it has a mark of that
/// parity.
fn reach(
    slot: Slot,
    distance: u32,
    marks: &mut [u32],
    queue: &mut Vec<Visit>,
) -> Result<(), OutOfMemory>
    requires within { 2 * slot.at + 1 < length marks.old }
    requires few { distance < 4294967295 }
    ensures reached { OnOk result (Reaches slot distance marks.old queue.old.items marks.new queue.new.items) }
    ensures long { length marks.new ≡ length marks.old }
{
    let place = 2 * slot.at as usize + (distance % 2) as usize;
    if marks[place] == 0 {
        marks[place] = distance + 1;
        queue.push(Visit {
            slot,
            length: distance,
        })?;
    }
    Ok(())
}
