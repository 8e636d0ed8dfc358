//! The slots of the darts that the hooks name.

ghost use Rattle.std.specs.Prelude.{◌+◌, ◌≤◌, length, take, MatchResult};
ghost use Rattle.gm_match.specs.inner.Layout.{AreHookSlots, IsNoDart};
ghost use Rattle.gm_model.specs.declared.limit.TheConstants.{MOST_NODES};

use crate::fault::MatchFault;
use gm_arena::{Arena, Slot, Steps};
use gm_model::MOST_NODES;
use std::sync::ledger::Ledger;

/// Writes the slots of the darts that the hooks name into the array, in their order. What stands
/// after them means nothing.
pub(crate) fn hook_darts<L: Ledger>(
    arena: &Arena,
    hooks: &[u32],
    slots: &mut [Slot; MOST_NODES],
    steps: &mut Steps<L>,
) -> Result<(), MatchFault>
    requires few { length hooks.now ≤ MOST_NODES }
    ensures darts { MatchResult result
        (λ _. AreHookSlots arena.now hooks.now (take (length hooks.now) slots.new))
        (IsNoDart arena.now hooks.now) }
    ensures cost { steps.new ≤ steps.old + length hooks.now }
    ensures least { steps.old ≤ steps.new }
{
    for (index, name) in hooks.iter().enumerate() {
        let Some(slot) = arena.slot_of(*name, steps) else {
            return Err(MatchFault::NoDart { index: index as u8 });
        };
        prove!((slot.at as usize) < arena.bound());
        slots[index] = slot;
    }
    Ok(())
}
