//! The text of a rule book: its schema and its rules read by name, and the one canonical text
//! printed.
#![tactic(auto)]

mod at_least;
mod building;
mod fault;
mod laws;
mod names;
mod printing;
mod reading;
mod table;
mod values;

pub use at_least::a_text_stands_for_a_book_or_has_a_first_fault;
pub use fault::BookFault;
pub use laws::{
    few_collectors_at_most, few_rules_at_most, no_book_at_a_fault, one_book_at_most,
    one_first_fault_at_most, one_hook_at_most_in_version_one, what_is_printed_is_read_again,
    what_is_read_is_in_range,
};
pub use printing::print_book;
pub use reading::read_book;
