//! The dart arena: the darts of a map in slots, each with its name, its neighbours and its values.
//!
//! Contracts speak of darts by name. Callers hold slots, which a live dart keeps until it is
//! removed, so that no calls but `slot_of` and `slot_from` look a name up.
#![tactic(auto)]

mod arena;
mod laws;
mod slot;
mod steps;
mod table;

pub use arena::{Arena, Row};
pub use laws::what_is_held_is_a_map;
pub use slot::Slot;
pub use steps::Steps;
