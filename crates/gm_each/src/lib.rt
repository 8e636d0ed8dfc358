//! The leads of a map: the least dart of each orbit.
//!
//! A script's `each` line applies a rule once for each orbit, at its lead.
#![tactic(auto)]

mod existence;
mod listing;

pub use existence::maps_have_leads;
pub use listing::leads;
