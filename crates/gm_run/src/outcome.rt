//! What became of the statements of a script.

use gm_apply::{Applied, Refusal};
use gm_model::Items;

/// What became of a statement of a script.
#[derive(Clone, Copy)]
pub enum Outcome {
    /// The rule was applied, and changed the map.
    Done(Applied),
    /// The application was refused, and left the map as it was.
    Refused(Refusal),
    /// An earlier application of its group was refused, so the rule wasn't applied.
    Skipped,
    Undone,
    Redone,
    NothingToUndo,
    NothingToRedo,
    /// A group began.
    Begun,
    /// A group ended, and stands.
    Kept,
    /// A group ended in which an application was refused: the map is what it was where it began.
    Dropped,
    /// How many of the applications at the least darts of the orbits were done and how many refused,
    /// and how many of these darts were passed over, since they were darts no more.
    Each {
        done: u32,
        refused: u32,
        passed: u32,
    },
}

/// What a run did: the outcome of each statement, in order, and the number of darts and the next
/// name of the map after them.
#[derive(Drop)]
pub struct Report {
    pub lines: Items<Outcome>,
    pub darts: u32,
    pub next: u32,
}
