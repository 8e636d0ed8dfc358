//! The dual of a map.

ghost use Rattle.std.specs.Prelude.{◌≡◌, ◌≢◌, ℕ, ◌+◌, ◌*◌, ◌<◌, ◌≤◌, length, Some, IfOk};
ghost use Rattle.std.specs.FinMap.{get, keys};
ghost use Rattle.gm_model.specs.Maps.{IsSound};
ghost use Rattle.gm_arena.specs.inner.ArenaAsMap.{as_map};
ghost use Rattle.gm_arena.specs.inner.ArenaMap.{Dart, IsAt, IsLiveName, IsLiveSlot, name_at};
ghost use Rattle.gm_arena.specs.inner.Lawful.{IsLawful};
ghost use Rattle.gm_dual.specs.inner.Building.{AreAdded, AreLinked, IsAllBut, IsLinkedTo, dual_of, free_of};
ghost use Rattle.gm_dual.specs.Duals as duals;

use crate::schema::dual_schema;
use gm_arena::{Arena, Slot, Steps};
use gm_model::OutOfMemory;
use std::alloc::Global;
use std::sync::ledger::Ledger;

/// The dual of the map in the arena.
pub fn dual_map<L: Ledger>(
    alloc: Global,
    arena: &Arena,
    steps: &mut Steps<L>,
) -> Result<Arena, OutOfMemory>
    requires sound { IsSound (as_map arena.now) }
    ensures dual { IfOk result (λ dual. as_map dual ≡ duals.dual_map (as_map arena.now)) }
    ensures sound { IfOk result (λ dual. IsSound (as_map dual)) }
    ensures most { steps.new ≤ steps.old + 16 * ((arena.now.schema.dim + 1) * (arena.now.schema.dim + 1)) * (arena.now.count + 1) }
{
    let count = arena.count();
    let names = arena.names(alloc, steps)?;
    let mut dual = Arena::new(alloc, dual_schema(alloc, arena.schema())?);
    dual.reserve(count, arena.next())?;
    add_darts(arena, &names, &mut dual, steps);
    link_darts(arena, &names, &mut dual, steps);
    dual.set_next(arena.next());
    Ok(dual)
}

/// Adds the darts of the names with their values, each free for every label.
fn add_darts<L: Ledger>(arena: &Arena, names: &[u32], dual: &mut Arena, steps: &mut Steps<L>)
    requires lawful { IsLawful arena.now }
    requires names { names.now ≡ keys arena.now.darts }
    requires none { AreAdded arena.now names.now 0 dual.old }
    ensures added { AreAdded arena.now names.now (length names.now) dual.new }
    ensures cost { steps.new ≡ steps.old + 3 * length names.now }
{
    for name in names {
        let slot = arena.slot_of(*name, steps).unwrap();
        let row = arena.row(slot, steps);
        dual.add(row.name, row.values, steps);
    }
}

/// Links the darts of the names, each of which is free.
fn link_darts<L: Ledger>(arena: &Arena, names: &[u32], dual: &mut Arena, steps: &mut Steps<L>)
    requires lawful { IsLawful arena.now }
    requires names { names.now ≡ keys arena.now.darts }
    requires free { AreLinked arena.now names.now 0 dual.old }
    ensures linked { AreLinked arena.now names.now (length names.now) dual.new }
    ensures cost { steps.new ≡ steps.old + length names.now * (3 * arena.now.schema.dim + 6) }
{
    for name in names {
        let from = arena.slot_of(*name, steps).unwrap();
        let own = dual.slot_of(*name, steps).unwrap();
        link_dart(arena, from, dual, own, steps);
    }
}

/// Links the dart at `own`, which is free, to the darts of the dual that have the names of the
/// neighbours of the dart at `from`.
fn link_dart<L: Ledger>(
    arena: &Arena,
    from: Slot,
    dual: &mut Arena,
    own: Slot,
    steps: &mut Steps<L>,
)
    requires lawful { IsLawful arena.now }
    requires from { IsLiveSlot arena.now from.at }
    requires own { IsAt dual.old own.at (name_at arena.now from.at) }
    requires schema { dual.old.schema ≡ duals.dual_schema arena.now.schema }
    requires free { get dual.old.darts (name_at arena.now from.at) ≡ free_of arena.now (name_at arena.now from.at) }
    requires live { (name : ℕ) → IsLiveName arena.now name → IsLiveName dual.old name }
    ensures linked { get dual.new.darts (name_at arena.now from.at) ≡ dual_of arena.now (name_at arena.now from.at) }
    ensures others { IsAllBut (name_at arena.now from.at) dual.old dual.new }
    ensures cost { steps.new ≡ steps.old + (3 * arena.now.schema.dim + 4) }
{
    let top = arena.schema().dim.top();
    let row = arena.row(from, steps);
    for label in 0..top + 1 {
        let name = arena.name_of(row.alphas[label as usize], steps);
        let to = dual.slot_of(name, steps).unwrap();
        dual.set_alpha(own, top - label, to, steps);
    }
}
