//! Whether a map can be oriented, and what shows it.

use gm_model::Items;

/// Whether the darts of a map have two colours that differ between neighbours.
#[derive(Drop)]
pub enum Orientation {
    /// They have. These are the darts of the first colour, ascending; each component's least dart is
    /// one of them.
    Two { first: Items<u32> },
    /// They have not. The labels lead from the least dart of the first component that has no such
    /// colours back to it, in an odd number of steps, none of which stays where it is.
    Odd { start: u32, labels: Items<u8> },
}
