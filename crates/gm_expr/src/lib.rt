//! Expressions: how they are read, their kinds, and their canonical text.
#![tactic(auto)]

mod kinds;
mod laws;
mod levels;
mod printing;
mod terms;

pub use gm_parse::{Env, ExprFault, SyntaxFault, skip_expr};
pub use gm_tree::{no_tree_at_a_fault, one_fault_at_most, one_tree_at_most, read_expr};
pub use kinds::type_expr;
pub use laws::{no_text_is_shorter, what_is_printed_is_read_again};
pub use printing::print_expr;
