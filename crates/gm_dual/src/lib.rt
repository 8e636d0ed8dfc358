//! The dual of a map and of a book of rules: label `i` and label `n - i` trade places.
//!
//! So cells of dimension `i` and of dimension `n - i` trade places, and each operation of a book has
//! one on the dual map that it stands for.
#![tactic(auto)]

mod book;
mod expression;
mod labels;
mod laws;
mod map;
mod rule;
mod schema;

pub use book::dual_book;
pub use laws::{
    duals_are_refused_for_the_same_cause, duals_have_the_same_budget,
    the_dual_of_the_dual_is_the_map, the_dual_of_the_dual_is_the_rule,
};
pub use map::dual_map;
