//! Matching: where a rule fits in a map, from the darts of its hooks.
//!
//! There is one candidate. The first hook lies along the walk from its dart, the other hooks go in
//! step with it from theirs, and each node lies where its least path leads from its hook. The
//! candidate is computed once, and then those left steps are tested that it doesn't meet as it is
//! made, and that no dart is taken twice.
//! Time and steps go by what is matched, however large the map is.
#![tactic(auto)]

mod arcs;
mod candidates;
mod columns;
mod darts;
mod edges;
mod fault;
mod hook_walk;
mod matching;
mod repeats;
mod rows;

pub use fault::MatchFault;
pub use matching::find;
