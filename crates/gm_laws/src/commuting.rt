//! The law that distant labels commute.

ghost use Rattle.std.specs.Prelude.{◌≡◌, ◌+◌, ◌*◌, ◌≤◌, length, MatchOption};
ghost use Rattle.std.specs.FinMap.{keys};
ghost use Rattle.gm_arena.specs.inner.ArenaMap.{IsLiveSlot, name_at};
ghost use Rattle.gm_arena.specs.inner.Lawful.{IsLawful};
ghost use Rattle.gm_laws.specs.inner.Darts.{IsFirst, IsLabel, IsDistantLabel, Commute, CommutesWith, Commutes, IsFirstPair};
ghost use Rattle.gm_laws.specs.inner.Faults.{ArePointedBack, DoCommute, IsFirstBreach};

use crate::breach::MapBreach;
use gm_arena::{Arena, Slot, Steps};
use std::sync::ledger::Ledger;

/// The first dart, and its first two distant labels, that do not commute, where all neighbours lead
/// back.
pub(crate) fn first_not_commuting<L: Ledger>(
    arena: &Arena,
    names: &[u32],
    steps: &mut Steps<L>,
) -> Option<MapBreach>
    requires lawful { IsLawful arena.now }
    requires names { names.now ≡ keys arena.now.darts }
    requires back { ArePointedBack arena.now }
    ensures breach { MatchOption result (DoCommute arena.now) (IsFirstBreach arena.now) }
    ensures cost { let labels = arena.now.schema.dim + 1 in steps.new ≤ steps.old + (labels * (3 * labels + 1) + 1) * length names.now }
    ensures least { steps.old ≤ steps.new }
{
    for name in names {
        let slot = arena.slot_of(*name, steps).unwrap();
        if let Some((i, j)) = labels_not_commuting(arena, slot, steps) {
            return Some(MapBreach::Cycle { dart: *name, i, j });
        }
    }
    None
}

/// The first two distant labels that do not commute at the dart.
fn labels_not_commuting<L: Ledger>(
    arena: &Arena,
    slot: Slot,
    steps: &mut Steps<L>,
) -> Option<(u8, u8)>
    requires lawful { IsLawful arena.now }
    requires live { IsLiveSlot arena.now slot.at }
    ensures labels { let d = name_at arena.now slot.at in MatchOption result (Commutes arena.now d) (IsFirstPair arena.now d) }
    ensures cost { let labels = arena.now.schema.dim + 1 in steps.new ≤ steps.old + labels * (3 * labels + 1) }
    ensures least { steps.old ≤ steps.new }
{
    for i in 0..arena.schema().dim.top() + 1 {
        if let Some(j) = label_not_commuting(arena, slot, i, steps) {
            return Some((i, j));
        }
    }
    None
}

/// The first label that is distant from `i`, above it, and does not commute with it at the dart.
fn label_not_commuting<L: Ledger>(
    arena: &Arena,
    slot: Slot,
    i: u8,
    steps: &mut Steps<L>,
) -> Option<u8>
    requires lawful { IsLawful arena.now }
    requires live { IsLiveSlot arena.now slot.at }
    requires label { IsLabel arena.now i }
    ensures label { let d = name_at arena.now slot.at in MatchOption result (CommutesWith arena.now d i) (IsFirst (IsDistantLabel arena.now i) (Commute arena.now d i)) }
    ensures cost { steps.new ≤ steps.old + (3 * (arena.now.schema.dim + 1) + 1) }
    ensures least { steps.old ≤ steps.new }
{
    let to = arena.alpha(slot, i, steps);
    for j in i + 2..arena.schema().dim.top() + 1 {
        let across = arena.alpha(slot, j, steps);
        if arena.alpha(across, i, steps) != arena.alpha(to, j, steps) {
            return Some(j);
        }
    }
    None
}
