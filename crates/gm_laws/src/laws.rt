//! The laws of a map, tested one after another up to the first breach.

ghost use Rattle.std.specs.Prelude.{◌≡◌, ◌+◌, ◌*◌, ◌≤◌, OnOk, IfErr};
ghost use Rattle.gm_model.specs.Maps.{IsGeneralised, IsWellEmbedded};
ghost use Rattle.gm_arena.specs.inner.ArenaAsMap.{as_map};
ghost use Rattle.gm_laws.specs.inner.Faults.{IsFault};

use crate::breach::LawFault;
use crate::commuting::first_not_commuting;
use crate::embedded::first_not_embedded;
use crate::holding::do_laws_hold;
use crate::involution::first_not_back;
use gm_arena::{Arena, Steps};
use std::alloc::Global;
use std::sync::ledger::Ledger;

/// Tests the laws of a map: first that neighbours lead back, by dart and label; where that holds, that
/// distant labels commute, by dart and the two labels; and where that holds, that each embedding is
/// the same along the labels of its orbits, by embedding, dart and label. The first breach is
/// answered.
pub fn check_map<L: Ledger>(
    alloc: Global,
    arena: &Arena,
    steps: &mut Steps<L>,
) -> Result<(), LawFault>
    ensures generalised { OnOk result (IsGeneralised (as_map arena.now)) }
    ensures well_embedded { OnOk result (IsWellEmbedded (as_map arena.now)) }
    ensures fault { IfErr result (IsFault arena.now) }
    ensures cost { let labels = arena.now.schema.dim + 1 in steps.new ≤ steps.old + 20 * (labels * labels) * (arena.now.count + 1) }
    ensures least { steps.old ≤ steps.new }
{
    if do_laws_hold(arena, steps) {
        return Ok(());
    }
    let names = arena.names(alloc, steps)?;
    prove!(names.len() == arena.count() as usize);
    if let Some(breach) = first_not_back(arena, &names, steps) {
        return Err(LawFault::Breach(breach));
    }
    if let Some(breach) = first_not_commuting(arena, &names, steps) {
        return Err(LawFault::Breach(breach));
    }
    if let Some(breach) = first_not_embedded(arena, &names, steps) {
        return Err(LawFault::Breach(breach));
    }
    Ok(())
}
