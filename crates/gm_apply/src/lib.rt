//! One application of a rule: matched, tested for room, read before it is written, and committed in
//! place.
#![tactic(auto)]

mod application;
mod preparation;
mod reading;
mod refusal;
mod values;

pub use application::apply;
pub use gm_commit::Applied;
pub use preparation::prepare;
pub use refusal::Refusal;
