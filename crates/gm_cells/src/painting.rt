//! Two colours for the darts of one component, by a search that takes a byte for each slot.

ghost use Rattle.std.specs.Prelude.{◌≡◌, ℕ, ◌+◌, ◌<◌, ◌≤◌, List, length, IfOk};
ghost use Rattle.gm_arena.specs.inner.ArenaAsMap.{as_map};
ghost use Rattle.gm_arena.specs.inner.ArenaMap.{IsLiveSlot, name_at};
ghost use Rattle.gm_arena.specs.inner.Lawful.{IsLawful};
ghost use Rattle.gm_cells.specs.inner.Painted.{IsPainted, IsPainting, IsUnpainted, colour_in, queued_at};
ghost use Rattle.gm_model.specs.Maps.{IsGeneralised};

use gm_arena::{Arena, Slot, Steps};
use gm_model::OutOfMemory;
use std::sync::ledger::Ledger;

/// What a slot has that has no colour yet.
pub(crate) const NONE: u8 = 0;

/// The colour of each component's least dart.
pub(crate) const FIRST: u8 = 1;

/// The sum of both colours.
const BOTH: u8 = 3;

/// Gives each dart of a component a colour, the least dart the first one, by its distance from there.
/// The answer is whether all neighbours have different colours.
pub(crate) fn paint<L: Ledger>(
    arena: &Arena,
    from: Slot,
    colours: &mut [u8],
    queue: &mut Vec<Slot>,
    steps: &mut Steps<L>,
) -> Result<bool, OutOfMemory>
    requires generalised { IsGeneralised (as_map arena.now) }
    requires live { IsLiveSlot arena.now from.at }
    requires long { length colours.old ≡ arena.now.bound }
    requires fresh { IsUnpainted arena.now (name_at arena.now from.at) colours.old }
    ensures painted { IfOk result (λ fits. IsPainted arena.now (name_at arena.now from.at) colours.old colours.new fits) }
    ensures long { length colours.new ≡ length colours.old }
{
    prove!((from.at as usize) < arena.bound());
    queue.clear();
    colours[from.at as usize] = FIRST;
    queue.push(from)?;
    let mut fits = true;
    let mut at = 0;
    while at < queue.len() {
        fits = paint_neighbours(arena, at, fits, colours, queue, steps)?;
        at += 1;
    }
    Ok(fits)
}

/// Gives the neighbours of the dart at a place of the queue the other colour, and puts those that had
/// none at the queue's end. The answer is whether all fits that fitted before.
fn paint_neighbours<L: Ledger>(
    arena: &Arena,
    at: usize,
    mut fits: bool,
    colours: &mut [u8],
    queue: &mut Vec<Slot>,
    steps: &mut Steps<L>,
) -> Result<bool, OutOfMemory>
    requires generalised { IsGeneralised (as_map arena.now) }
    requires lawful { IsLawful arena.now }
    requires within { at < length queue.old.items }
    requires live { IsLiveSlot arena.now (queued_at queue.old.items at) }
    requires long { length colours.old ≡ arena.now.bound }
    requires some { 0 < colour_in colours.old (queued_at queue.old.items at) }
    requires two { colour_in colours.old (queued_at queue.old.items at) ≤ 2 }
    ensures painting { IfOk result (λ still. (d : ℕ) (old : List ℕ) → IsPainting arena.now d old at 0 fits colours.old queue.old.items → IsPainting arena.now d old (at + 1) 0 still colours.new queue.new.items) }
    ensures long { length colours.new ≡ length colours.old }
{
    let slot = queue[at];
    let own = colours[slot.at as usize];
    for to in arena.row(slot, steps).alphas {
        let there = colours[to.at as usize];
        if there == NONE {
            colours[to.at as usize] = BOTH - own;
            queue.push(*to)?;
        } else if there == own && to.at != slot.at {
            fits = false;
        }
    }
    Ok(fits)
}
