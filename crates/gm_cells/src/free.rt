//! Counting the darts that have no neighbour along a label.

ghost use Rattle.std.specs.Prelude.{◌≡◌, ◌≢◌, ℕ, ◌+◌, ◌<◌, length, replicate, slice_index, IfOk};
ghost use Rattle.gm_arena.specs.inner.ArenaAsMap.{as_map};
ghost use Rattle.gm_arena.specs.inner.Lawful.{IsLawful};
ghost use Rattle.gm_cells.specs.Cells.{HasFreeDarts};
ghost use Rattle.gm_cells.specs.inner.Painted.{queued_at};

use gm_arena::{Arena, Slot, Steps};
use gm_model::OutOfMemory;
use std::alloc::Global;
use std::sync::ledger::Ledger;

/// By label, how many darts have no neighbour along it.
pub(crate) fn count_free<L: Ledger>(
    alloc: Global,
    arena: &Arena,
    steps: &mut Steps<L>,
) -> Result<Vec<u32>, OutOfMemory>
    requires lawful { IsLawful arena.now }
    ensures free { IfOk result (λ free. HasFreeDarts (as_map arena.now) free.items) }
{
    let mut free = vec![in alloc; 0u32; arena.schema().dim.top() as usize + 1]?;
    add_darts(arena, &mut free, steps);
    Ok(free)
}

/// Adds each dart at each label along which it has no neighbour.
fn add_darts<L: Ledger>(arena: &Arena, free: &mut [u32], steps: &mut Steps<L>)
    requires lawful { IsLawful arena.now }
    requires none { free.old ≡ replicate (arena.now.schema.dim + 1) 0 }
    ensures free { HasFreeDarts (as_map arena.now) free.new }
{
    let mut from = 0;
    while let Some(slot) = arena.slot_from(from, steps) {
        let row = arena.row(slot, steps);
        add_dart(slot, row.alphas, free);
        from = row.name + 1;
    }
}

/// Adds one for each label along which the dart at the slot is its own neighbour.
fn add_dart(slot: Slot, alphas: &[Slot], free: &mut [u32])
    requires long { length alphas.now ≡ length free.old }
    requires few { (label : ℕ) → slice_index free.old label < 4294967295 }
    ensures own { (label : ℕ) → label < length alphas.now → queued_at alphas.now label ≡ slot.at → slice_index free.new label ≡ slice_index free.old label + 1 }
    ensures other { (label : ℕ) → label < length alphas.now → queued_at alphas.now label ≢ slot.at → slice_index free.new label ≡ slice_index free.old label }
    ensures long { length free.new ≡ length free.old }
{
    for (label, to) in alphas.iter().enumerate() {
        if to.at == slot.at {
            free[label] += 1;
        }
    }
}
