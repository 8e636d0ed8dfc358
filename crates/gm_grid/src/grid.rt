//! The arena of a grid, and all that is run on it.
ghost use Rattle.std.specs.Prelude.{◌≡◌, ℕ, ◌+◌, ◌*◌, ◌<◌, ◌≤◌, IfOk};
ghost use Rattle.gm_model.specs.Maps.{IsSound};
ghost use Rattle.gm_arena.specs.inner.ArenaMap.{IsAt, IsLiveName, IsLiveSlot};
ghost use Rattle.gm_arena.specs.inner.ArenaAsMap.{as_map};
ghost use Rattle.gm_arena.specs.inner.Edits.{with_alpha};
ghost use Rattle.gm_grid.specs.GridMap.{IsGridMap, dart, dart_count};
ghost use Rattle.gm_grid.specs.GridBook.{IsGridBook, IsGridScript};
ghost use Rattle.gm_grid.specs.inner.Building.{AreAdded, AreLinked};

use crate::book::make_book;
use crate::pattern::{Place, name_of, neighbour_at, point_at};
use crate::schema::make_schema;
use crate::script::make_script;
use gm_arena::{Arena, Slot, Steps};
use gm_model::{Book, OutOfMemory, Script};
use std::alloc::Global;
use std::sync::ledger::Ledger;

/// A map, and what is run on it.
#[derive(Drop)]
pub struct Grid {
    pub arena: Arena,
    pub book: Book,
    pub script: Script,
}

/// The grid of `m` rows of `m` squares, the book of the rule that triangulates a face, and the
/// script that applies it to each square.
pub fn make_grid<L: Ledger>(alloc: Global, m: u8, steps: &mut Steps<L>) -> Result<Grid, OutOfMemory>
    requires least { 1 ≤ m }
    requires greatest { m ≤ 100 }
    ensures map { IfOk result (λ grid. IsGridMap m (as_map grid.arena)) }
    ensures sound { IfOk result (λ grid. IsSound (as_map grid.arena)) }
    ensures book { IfOk result (λ grid. IsGridBook grid.book) }
    ensures script { IfOk result (λ grid. IsGridScript m grid.script) }
    ensures least { IfOk result (λ _. steps.old + 8 * (m * m) ≤ steps.new) }
    ensures most { steps.new ≤ steps.old + 4096 * (m * m) }
{
    let m = m as u32;
    Ok(Grid {
        script: make_script(alloc, m)?,
        book: make_book(alloc)?,
        arena: build(alloc, m, steps)?,
    })
}

fn build<L: Ledger>(alloc: Global, m: u32, steps: &mut Steps<L>) -> Result<Arena, OutOfMemory>
    requires { m ≤ 100 }
    ensures linked { IfOk result (AreLinked m (dart_count m)) }
    ensures least { IfOk result (λ _. steps.new ≡ steps.old + 8 * dart_count m) }
    ensures most { steps.new ≤ steps.old + 8 * dart_count m }
{
    let mut arena = Arena::new(alloc, make_schema(alloc)?);
    // There is room for what the script adds as well, so that none of its lines has to make it.
    arena.reserve(24 * (m * m), 24 * (m * m))?;
    add_darts(&mut arena, m, steps);
    link_darts(&mut arena, m, steps);
    Ok(arena)
}

/// Adds the darts with their points, each free for every label.
fn add_darts<L: Ledger>(arena: &mut Arena, m: u32, steps: &mut Steps<L>)
    requires most { m ≤ 100 }
    requires none { AreAdded m 0 arena.old }
    ensures added { AreAdded m (dart_count m) arena.new }
    ensures cost { steps.new ≡ steps.old + dart_count m }
{
    for square in 0..m * m {
        add_square(arena, m, square, steps);
    }
}

/// Adds the darts of a square.
fn add_square<L: Ledger>(arena: &mut Arena, m: u32, square: u32, steps: &mut Steps<L>)
    requires most { m ≤ 100 }
    requires below { square < m * m }
    requires before { AreAdded m (8 * square) arena.old }
    ensures added { AreAdded m (8 * square + 8) arena.new }
    ensures cost { steps.new ≡ steps.old + 8 }
{
    let row = square / m;
    let column = square % m;
    for number in 0..8 {
        add_dart(
            arena,
            m,
            Place {
                row,
                column,
                number,
            },
            steps,
        );
    }
}

fn add_dart<L: Ledger>(arena: &mut Arena, m: u32, place: Place, steps: &mut Steps<L>)
    requires most { m ≤ 100 }
    requires within { (place.row < m) × (place.column < m) × (place.number < 8) }
    requires before { AreAdded m (dart m place.row place.column place.number) arena.old }
    ensures added { AreAdded m (dart m place.row place.column place.number + 1) arena.new }
    ensures cost { steps.new ≡ steps.old + 1 }
{
    arena.add(
        name_of(m, place.row, place.column, place.number),
        &[point_at(place)],
        steps,
    );
}

/// Links each dart to its neighbours.
fn link_darts<L: Ledger>(arena: &mut Arena, m: u32, steps: &mut Steps<L>)
    requires most { m ≤ 100 }
    requires free { AreLinked m 0 arena.old }
    ensures linked { AreLinked m (dart_count m) arena.new }
    ensures cost { steps.new ≡ steps.old + 7 * dart_count m }
{
    for square in 0..m * m {
        link_square(arena, m, square, steps);
    }
}

/// Links the darts of a square.
fn link_square<L: Ledger>(arena: &mut Arena, m: u32, square: u32, steps: &mut Steps<L>)
    requires most { m ≤ 100 }
    requires below { square < m * m }
    requires before { AreLinked m (8 * square) arena.old }
    ensures linked { AreLinked m (8 * square + 8) arena.new }
    ensures cost { steps.new ≡ steps.old + 56 }
{
    let row = square / m;
    let column = square % m;
    for number in 0..8 {
        link_dart(
            arena,
            m,
            Place {
                row,
                column,
                number,
            },
            steps,
        );
    }
}

fn link_dart<L: Ledger>(arena: &mut Arena, m: u32, place: Place, steps: &mut Steps<L>)
    requires most { m ≤ 100 }
    requires within { (place.row < m) × (place.column < m) × (place.number < 8) }
    requires before { AreLinked m (dart m place.row place.column place.number) arena.old }
    ensures linked { AreLinked m (dart m place.row place.column place.number + 1) arena.new }
    ensures cost { steps.new ≡ steps.old + 7 }
{
    let slot = arena
        .slot_of(name_of(m, place.row, place.column, place.number), steps)
        .unwrap();
    link(arena, slot, 0, neighbour_at(m, 0, place), steps);
    link(arena, slot, 1, neighbour_at(m, 1, place), steps);
    link(arena, slot, 2, neighbour_at(m, 2, place), steps);
}

/// Makes the dart of this name the neighbour of the one at the slot.
fn link<L: Ledger>(arena: &mut Arena, slot: Slot, label: u8, to: u32, steps: &mut Steps<L>)
    requires live { IsLiveSlot arena.old slot.at }
    requires to_live { IsLiveName arena.old to }
    requires label { label ≤ arena.old.schema.dim }
    ensures map { (name : ℕ) → IsAt arena.old slot.at name → arena.new ≡ with_alpha arena.old name label to }
    ensures cost { steps.new ≡ steps.old + 2 }
{
    let target = arena.slot_of(to, steps).unwrap();
    arena.set_alpha(slot, label, target, steps);
}
