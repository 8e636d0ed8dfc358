//! Expressions built as trees while they are read, under the names of a schema and a rule, with the
//! first fault of their names.
#![tactic(auto)]

mod at_least;
mod builder;
mod building;
mod calls;
mod joining;
mod laws;
mod names;
mod operands;
mod partial;
mod reading;
mod stack;
mod table;
mod taking;
mod waiting;

pub use at_least::a_tree_is_read_or_there_is_a_first_fault;
pub use laws::{no_tree_at_a_fault, one_fault_at_most, one_tree_at_most};
pub use reading::read_expr;
