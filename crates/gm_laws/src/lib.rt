//! The laws of a map: each label's neighbours lead back, distant labels commute, and the darts of an
//! embedding's orbit have one value.
#![tactic(auto)]

mod breach;
mod commuting;
mod embedded;
mod holding;
mod involution;
mod laws;

pub use breach::{LawFault, MapBreach};
pub use laws::check_map;
