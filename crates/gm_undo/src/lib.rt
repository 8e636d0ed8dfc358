//! Applications that can be taken back and brought again, one by one or in groups. What is kept of
//! each is the rows that it changed, and no whole map.
#![tactic(auto)]

mod entries;
mod history;
mod keeping;
mod rows;
mod writing;

pub use history::{History, Nothing};
