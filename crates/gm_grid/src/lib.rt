//! A large input from a number: the map of a grid of squares, a rule that triangulates a face, and
//! the script that applies it to each square.
#![tactic(auto)]

mod book;
mod grid;
mod laws;
mod pattern;
mod schema;
mod script;

pub use grid::{Grid, make_grid};
pub use laws::{grids_are_sound, grids_exist, the_rule_is_accepted};
