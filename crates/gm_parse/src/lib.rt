//! Expressions as their text is read: what the longest one at a place is, its first fault by the
//! grammar, and how its tokens go on one after another.
#![tactic(auto)]

mod at_least;
mod brackets;
mod env;
mod fault;
mod function;
mod key;
mod levels;
mod place;
mod skipping;
mod state;
mod table;
mod tokens;

pub use at_least::an_expression_stands_or_has_a_first_fault;
pub use env::Env;
pub use fault::{ExprFault, SyntaxFault};
pub use function::Function;
pub use key::{Collector, Key};
pub use levels::{binary_level, least_on_right};
pub use skipping::{advance, skip_expr};
pub use state::State;
pub use table::meaning_or;
pub use tokens::key_at;
