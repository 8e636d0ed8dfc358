//! The components of a map, each with two colours for its darts or with none that fit.

ghost use Rattle.std.specs.Prelude.{◌≡◌, ℕ, ◌+◌, ◌<◌, length, replicate, Some, None, IfOk, IsSome, IsTrue, false};
ghost use Rattle.gm_arena.specs.inner.ArenaAsMap.{as_map};
ghost use Rattle.gm_arena.specs.inner.ArenaMap.{IsLiveSlot, name_at};
ghost use Rattle.gm_arena.specs.inner.InOrder.{IsFirstFrom};
ghost use Rattle.gm_arena.specs.inner.Lawful.{IsLawful};
ghost use Rattle.gm_cells.specs.inner.Painted.{ArePainted, IsUnpainted};
ghost use Rattle.gm_model.specs.Maps.{IsGeneralised};

use crate::painting::{NONE, paint};
use gm_arena::{Arena, Slot, Steps};
use gm_model::OutOfMemory;
use std::alloc::Global;
use std::sync::ledger::Ledger;

/// How many components there are, and the least dart of the first one that has no two colours.
#[derive(Clone, Copy)]
pub(crate) struct Components {
    pub(crate) count: u32,
    pub(crate) odd: Option<Slot>,
}

/// For each slot no colour.
pub(crate) fn no_colours(alloc: Global, slots: usize) -> Result<Vec<u8>, OutOfMemory>
    ensures { IfOk result (λ colours. colours.items ≡ replicate slots 0) }
{
    Ok(vec![in alloc; NONE; slots]?)
}

/// Paints one component after another, by their least darts, and counts them.
pub(crate) fn paint_components<L: Ledger>(
    alloc: Global,
    arena: &Arena,
    colours: &mut [u8],
    steps: &mut Steps<L>,
) -> Result<Components, OutOfMemory>
    requires generalised { IsGeneralised (as_map arena.now) }
    requires none { colours.old ≡ replicate arena.now.bound 0 }
    ensures painted { IfOk result (λ found. ArePainted arena.now arena.now.next colours.new found) }
    ensures long { length colours.new ≡ length colours.old }
{
    prove!(colours.len() == arena.bound());
    let mut queue = Vec::new(alloc);
    let mut found = Components {
        count: 0,
        odd: None,
    };
    let mut from = 0;
    while let Some(slot) = arena.slot_from(from, steps) {
        if colours[slot.at as usize] == NONE {
            found = add_component(arena, slot, found, colours, &mut queue, steps)?;
        }
        from = arena.name_of(slot, steps) + 1;
    }
    Ok(found)
}

/// Paints the component of a dart that has no colour, and adds it to those that were found.
fn add_component<L: Ledger>(
    arena: &Arena,
    slot: Slot,
    found: Components,
    colours: &mut [u8],
    queue: &mut Vec<Slot>,
    steps: &mut Steps<L>,
) -> Result<Components, OutOfMemory>
    requires generalised { IsGeneralised (as_map arena.now) }
    requires lawful { IsLawful arena.now }
    requires live { IsLiveSlot arena.now slot.at }
    requires long { length colours.old ≡ arena.now.bound }
    requires fresh { IsUnpainted arena.now (name_at arena.now slot.at) colours.old }
    requires few { found.count < 4294967295 }
    ensures painted { IfOk result (λ more. (from : ℕ) → IsFirstFrom arena.now from slot.at → ArePainted arena.now from colours.old found → ArePainted arena.now (name_at arena.now slot.at + 1) colours.new more) }
    ensures count { IfOk result (λ more. more.count ≡ found.count + 1) }
    ensures long { length colours.new ≡ length colours.old }
{
    let fits = paint(arena, slot, colours, queue, steps)?;
    Ok(Components {
        count: found.count + 1,
        odd: first_odd(found.odd, fits, slot),
    })
}

/// The first odd component so far, where the next one is at the slot.
fn first_odd(odd: Option<Slot>, fits: bool, slot: Slot) -> Option<Slot>
    ensures earlier { IsSome odd → result ≡ odd }
    ensures fits { IsTrue fits → result ≡ odd }
    ensures here { odd ≡ None → fits ≡ false → result ≡ Some slot }
{
    if odd.is_none() && !fits {
        return Some(slot);
    }
    odd
}
