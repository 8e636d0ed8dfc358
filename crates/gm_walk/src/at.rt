//! A dart of an application's result, old or new.

use gm_arena::Slot;

/// A dart of an application's result.
#[derive(Clone, Copy, Debug, PartialEq, Eq)]
pub enum At {
    /// A dart of the old map, by its slot.
    Old(Slot),
    /// The new dart of an added node at a position.
    New { node: u8, position: u32 },
}
