//! How many cells, components and free darts a map has.

ghost use Rattle.std.specs.Prelude.{◌+◌, ◌*◌, ◌≤◌, IfOk};
ghost use Rattle.gm_arena.specs.inner.ArenaAsMap.{as_map};
ghost use Rattle.gm_cells.specs.Cells.{AreCounts, HasCells, labels_to};
ghost use Rattle.gm_cells.specs.Colours.{IsOrientation};
ghost use Rattle.gm_model.specs.Maps.{IsDart, IsGeneralised};
ghost use Rattle.gm_model.specs.Orbits.{HasOrbits};

use crate::colouring::orient_by;
use crate::components::{Components, no_colours, paint_components};
use crate::free::count_free;
use crate::masks::mask_without;
use crate::orientation::Orientation;
use gm_arena::{Arena, Steps};
use gm_model::{Items, OutOfMemory};
use gm_walk::{Scratch, orbits};
use std::alloc::Global;
use std::sync::ledger::Ledger;

/// What there is in a map, by number.
#[derive(Drop)]
pub struct Counts {
    pub darts: u32,
    /// By label, the cells that the label leaves: the orbits over all other labels.
    pub cells: Items<u32>,
    pub components: u32,
    /// By label, the darts that have no neighbour along it.
    pub free: Items<u32>,
}

/// Counts the cells, components and free darts of a generalised map. The scratch keeps its room, and
/// gets more where it walks.
pub fn count<L: Ledger>(
    alloc: Global,
    arena: &Arena,
    scratch: &mut Scratch,
    steps: &mut Steps<L>,
) -> Result<Counts, OutOfMemory>
    requires generalised { IsGeneralised (as_map arena.now) }
    ensures counts { IfOk result (AreCounts (as_map arena.now)) }
    ensures room { scratch.old.bound ≤ scratch.new.bound }
{
    let mut colours = no_colours(alloc, arena.bound())?;
    let found = paint_components(alloc, arena, &mut colours, steps)?;
    drop(colours);
    count_with(alloc, arena, found, scratch, steps)
}

/// Counts, and tells whether the darts have two colours, as `count` and `orient` do. It goes through
/// the components once for both.
pub fn count_and_orient<L: Ledger>(
    alloc: Global,
    arena: &Arena,
    scratch: &mut Scratch,
    steps: &mut Steps<L>,
) -> Result<(Counts, Orientation), OutOfMemory>
    requires generalised { IsGeneralised (as_map arena.now) }
    ensures counts { IfOk result (λ both. AreCounts (as_map arena.now) both.0) }
    ensures orientation { IfOk result (λ both. IsOrientation (as_map arena.now) both.1) }
    ensures room { scratch.old.bound ≤ scratch.new.bound }
{
    let mut colours = no_colours(alloc, arena.bound())?;
    let found = paint_components(alloc, arena, &mut colours, steps)?;
    let counts = count_with(alloc, arena, found, scratch, steps)?;
    let orientation = orient_by(alloc, arena, &colours, found, steps)?;
    Ok((counts, orientation))
}

/// The numbers of a map whose components were found.
fn count_with<L: Ledger>(
    alloc: Global,
    arena: &Arena,
    found: Components,
    scratch: &mut Scratch,
    steps: &mut Steps<L>,
) -> Result<Counts, OutOfMemory>
    requires generalised { IsGeneralised (as_map arena.now) }
    requires components { HasOrbits (IsDart (as_map arena.now)) (as_map arena.now).alpha (labels_to arena.now.schema.dim) found.count }
    ensures counts { IfOk result (AreCounts (as_map arena.now)) }
    ensures room { scratch.old.bound ≤ scratch.new.bound }
{
    let darts = arena.count();
    let cells = count_cells(alloc, arena, scratch, steps)?;
    let free = count_free(alloc, arena, steps)?;
    Ok(Counts {
        darts,
        cells: Items::new(cells),
        components: found.count,
        free: Items::new(free),
    })
}

/// By label, how many cells it leaves: the orbits over all other labels. The scratch keeps its room,
/// and gets more where it walks.
pub fn count_cells<L: Ledger>(
    alloc: Global,
    arena: &Arena,
    scratch: &mut Scratch,
    steps: &mut Steps<L>,
) -> Result<Vec<u32>, OutOfMemory>
    requires generalised { IsGeneralised (as_map arena.now) }
    ensures cells { IfOk result (λ cells. HasCells (as_map arena.now) cells.items) }
    ensures cost { steps.new ≤ steps.old + (arena.now.schema.dim + 1) * (8 * (arena.now.schema.dim + 1) * arena.now.count) }
    ensures least { steps.old ≤ steps.new }
    ensures room { scratch.old.bound ≤ scratch.new.bound }
{
    let top = arena.schema().dim.top();
    let mut cells = Vec::new(alloc);
    for label in 0..top + 1 {
        let others = mask_without(top, label);
        cells.push(orbits(alloc, arena, others, scratch, steps)?)?;
    }
    Ok(cells)
}
