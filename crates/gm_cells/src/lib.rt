//! How many cells a map has, and whether it can be oriented, with a certificate.
//!
//! The cells are counted by orbit walks. A map can be oriented where its darts have two colours that
//! differ between neighbours; where they have none, a closed walk of odd length shows it.
#![tactic(auto)]

mod colouring;
mod components;
mod counts;
mod existence;
mod free;
mod laws;
mod masks;
mod odd_walk;
mod orientation;
mod painting;
mod printing;
mod search;

pub use colouring::orient;
pub use counts::{Counts, count, count_and_orient, count_cells};
pub use existence::{maps_have_counts, maps_have_orientations};
pub use laws::{
    never_two_colours_and_an_odd_walk, one_orientation_at_most, two_colours_or_an_odd_walk,
};
pub use orientation::Orientation;
pub use printing::{print_cells, put_numbers};
