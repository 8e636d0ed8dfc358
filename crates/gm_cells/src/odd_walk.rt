//! The least odd walk from a dart, by the marks of its search.

ghost use Rattle.std.specs.Prelude.{◌≡◌, ℕ, ◌*◌, ◌<◌, length, IfOk, MatchOption};
ghost use Rattle.gm_arena.specs.inner.ArenaAsMap.{as_map};
ghost use Rattle.gm_arena.specs.inner.ArenaMap.{IsLiveSlot, alpha, name_at};
ghost use Rattle.gm_cells.specs.Colours.{IsLeastOddWalk};
ghost use Rattle.gm_cells.specs.inner.OddStart.{IsFirstNearer, IsNearer, IsOddStart};
ghost use Rattle.gm_model.specs.Maps.{IsGeneralised};

use gm_arena::{Arena, Slot, Steps};
use gm_model::OutOfMemory;
use std::alloc::Global;
use std::sync::ledger::Ledger;

/// The least odd walk from the dart, which is the first of its component.
pub(crate) fn least_odd_walk<L: Ledger>(
    alloc: Global,
    arena: &Arena,
    start: Slot,
    marks: &[u32],
    steps: &mut Steps<L>,
) -> Result<Vec<u8>, OutOfMemory>
    requires generalised { IsGeneralised (as_map arena.now) }
    requires start { IsOddStart arena.now start.at marks.now }
    requires long { length marks.now ≡ 2 * arena.now.bound }
    ensures walk { IfOk result (λ labels. IsLeastOddWalk arena.now.schema.dim (alpha arena.now) (name_at arena.now start.at) labels.items) }
{
    prove!((start.at as usize) < arena.bound());
    let mut labels = Vec::new(alloc);
    let mut slot = start;
    let mut mark = marks[2 * start.at as usize + 1];
    while mark > 1 {
        let label = nearer(arena, slot, mark, marks, steps).unwrap();
        labels.push(label)?;
        slot = arena.alpha(slot, label, steps);
        mark -= 1;
    }
    Ok(labels)
}

/// The first label that leads to a dart whose mark, at the other parity, is one less than this.
fn nearer<L: Ledger>(
    arena: &Arena,
    slot: Slot,
    mark: u32,
    marks: &[u32],
    steps: &mut Steps<L>,
) -> Option<u8>
    requires live { IsLiveSlot arena.now slot.at }
    requires long { length marks.now ≡ 2 * arena.now.bound }
    requires some { 1 < mark }
    ensures first { MatchOption result ((i : ℕ) → IsNearer arena.now marks.now slot.at mark i → ⊥) (IsFirstNearer arena.now marks.now slot.at mark) }
{
    prove!((slot.at as usize) < arena.bound());
    for label in 0..arena.schema().dim.top() + 1 {
        let to = arena.alpha(slot, label, steps);
        let place = 2 * to.at as usize + (mark % 2) as usize;
        if to.at != slot.at && marks[place] == mark - 1 {
            return Some(label);
        }
    }
    None
}
