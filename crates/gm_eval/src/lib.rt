//! The values of expressions: what an expression of a rule is worth where it is read in a map, or
//! that it has no value there.
//!
//! Numbers are whole and never wrap: each form is computed exactly, and then tested against the
//! range of its kind. No call here takes memory but `Kept::between`, and that only where values may
//! be kept.
#![tactic(auto)]

mod collectors;
mod evaluation;
mod forms;
mod kept;
mod numbers;
mod operators;
mod reader;
mod totals;

pub use evaluation::{eval, eval_keeping};
pub use kept::{Collector, Entry, Form, Kept};
