//! The law that each label's neighbours lead back.

ghost use Rattle.std.specs.Prelude.{◌≡◌, ◌+◌, ◌*◌, ◌≤◌, length, MatchOption};
ghost use Rattle.std.specs.FinMap.{keys};
ghost use Rattle.gm_arena.specs.inner.ArenaMap.{IsLiveSlot, name_at};
ghost use Rattle.gm_arena.specs.inner.Lawful.{IsLawful};
ghost use Rattle.gm_laws.specs.inner.Darts.{IsFirst, IsLabel, LeadsBack, IsBack};
ghost use Rattle.gm_laws.specs.inner.Faults.{ArePointedBack, IsFirstBreach};

use crate::breach::MapBreach;
use gm_arena::{Arena, Slot, Steps};
use std::sync::ledger::Ledger;

/// The first dart, and its first label, whose neighbour does not lead back.
pub(crate) fn first_not_back<L: Ledger>(
    arena: &Arena,
    names: &[u32],
    steps: &mut Steps<L>,
) -> Option<MapBreach>
    requires lawful { IsLawful arena.now }
    requires names { names.now ≡ keys arena.now.darts }
    ensures breach { MatchOption result (ArePointedBack arena.now) (IsFirstBreach arena.now) }
    ensures cost { steps.new ≤ steps.old + (2 * (arena.now.schema.dim + 1) + 1) * length names.now }
    ensures least { steps.old ≤ steps.new }
{
    for name in names {
        let slot = arena.slot_of(*name, steps).unwrap();
        if let Some(label) = label_not_back(arena, slot, steps) {
            return Some(MapBreach::Involution { dart: *name, label });
        }
    }
    None
}

/// The first label along which the dart's neighbour does not lead back.
fn label_not_back<L: Ledger>(arena: &Arena, slot: Slot, steps: &mut Steps<L>) -> Option<u8>
    requires lawful { IsLawful arena.now }
    requires live { IsLiveSlot arena.now slot.at }
    ensures label { let d = name_at arena.now slot.at in MatchOption result (IsBack arena.now d) (IsFirst (IsLabel arena.now) (LeadsBack arena.now d)) }
    ensures cost { steps.new ≤ steps.old + 2 * (arena.now.schema.dim + 1) }
    ensures least { steps.old ≤ steps.new }
{
    for label in 0..arena.schema().dim.top() + 1 {
        let to = arena.alpha(slot, label, steps);
        if arena.alpha(to, label, steps) != slot {
            return Some(label);
        }
    }
    None
}
