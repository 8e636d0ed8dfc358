//! Whether the darts of a map have two colours, by the colours of all components.

ghost use Rattle.std.specs.Prelude.{◌≡◌, ℕ, ◌*◌, ◌<◌, ◌≤◌, length, replicate, None, IfOk};
ghost use Rattle.gm_arena.specs.inner.ArenaAsMap.{as_map};
ghost use Rattle.gm_arena.specs.inner.ArenaMap.{name_at};
ghost use Rattle.gm_cells.specs.Colours.{AreOfFirstColour, HasColoursAt, IsComponentLead, IsOrientation};
ghost use Rattle.gm_cells.specs.inner.Painted.{ArePainted, IsOddLead};
ghost use Rattle.gm_model.specs.Maps.{IsGeneralised};

use crate::components::{Components, no_colours, paint_components};
use crate::odd_walk::least_odd_walk;
use crate::orientation::Orientation;
use crate::painting::FIRST;
use crate::search::{no_marks, search};
use gm_arena::{Arena, Slot, Steps};
use gm_model::{Items, OutOfMemory};
use std::alloc::Global;
use std::sync::ledger::Ledger;

/// Whether the darts of a generalised map have two colours that differ between neighbours, with what
/// shows it.
pub fn orient<L: Ledger>(
    alloc: Global,
    arena: &Arena,
    steps: &mut Steps<L>,
) -> Result<Orientation, OutOfMemory>
    requires generalised { IsGeneralised (as_map arena.now) }
    ensures orientation { IfOk result (IsOrientation (as_map arena.now)) }
{
    let mut colours = no_colours(alloc, arena.bound())?;
    let found = paint_components(alloc, arena, &mut colours, steps)?;
    orient_by(alloc, arena, &colours, found, steps)
}

/// The same by the colours of all components.
pub(crate) fn orient_by<L: Ledger>(
    alloc: Global,
    arena: &Arena,
    colours: &[u8],
    found: Components,
    steps: &mut Steps<L>,
) -> Result<Orientation, OutOfMemory>
    requires generalised { IsGeneralised (as_map arena.now) }
    requires painted { ArePainted arena.now arena.now.next colours.now found }
    requires long { length colours.now ≡ arena.now.bound }
    ensures orientation { IfOk result (IsOrientation (as_map arena.now)) }
{
    match found.odd {
        None => {
            let first = first_colour(alloc, arena, colours, found, steps)?;
            Ok(Orientation::Two {
                first: Items::new(first),
            })
        }
        Some(slot) => {
            let mut marks = no_marks(alloc, arena.bound())?;
            odd_by(alloc, arena, slot, &mut marks, steps)
        }
    }
}

/// The darts of the first colour, ascending, where no component is odd.
fn first_colour<L: Ledger>(
    alloc: Global,
    arena: &Arena,
    colours: &[u8],
    found: Components,
    steps: &mut Steps<L>,
) -> Result<Vec<u32>, OutOfMemory>
    requires generalised { IsGeneralised (as_map arena.now) }
    requires painted { ArePainted arena.now arena.now.next colours.now found }
    requires fits { found.odd ≡ None }
    requires long { length colours.now ≡ arena.now.bound }
    ensures first { IfOk result (λ first. AreOfFirstColour (as_map arena.now) first.items) }
{
    prove!(colours.len() == arena.bound());
    let mut first = Vec::new(alloc);
    let mut from = 0;
    while let Some(slot) = arena.slot_from(from, steps) {
        let name = arena.name_of(slot, steps);
        if colours[slot.at as usize] == FIRST {
            first.push(name)?;
        }
        from = name + 1;
    }
    Ok(first)
}

/// The least odd walk from the least dart of the first component that has one, by marks of which none
/// is set.
fn odd_by<L: Ledger>(
    alloc: Global,
    arena: &Arena,
    slot: Slot,
    marks: &mut [u32],
    steps: &mut Steps<L>,
) -> Result<Orientation, OutOfMemory>
    requires generalised { IsGeneralised (as_map arena.now) }
    requires odd { IsOddLead arena.now arena.now.next slot.at }
    requires earlier { (d : ℕ) → IsComponentLead (as_map arena.now) d → d < name_at arena.now slot.at → HasColoursAt (as_map arena.now) d }
    requires marks { marks.old ≡ replicate (2 * arena.now.bound) 0 }
    requires few { arena.now.bound ≤ 1073741824 }
    ensures orientation { IfOk result (IsOrientation (as_map arena.now)) }
{
    let mut queue = Vec::new(alloc);
    search(arena, slot, marks, &mut queue, steps)?;
    let labels = least_odd_walk(alloc, arena, slot, marks, steps)?;
    Ok(Orientation::Odd {
        start: arena.name_of(slot, steps),
        labels: Items::new(labels),
    })
}
