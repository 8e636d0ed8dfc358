//! Scripts: their texts, read to statements under a book of rules.
#![tactic(auto)]

mod at_least;
mod comparing;
mod fault;
mod laws;
mod near;
mod reader;
mod reading;
mod rules;
mod seen;
mod sight;
mod spot;
mod values;

pub use at_least::a_text_stands_for_a_script_or_has_a_first_fault;
pub use fault::ScriptFault;
pub use laws::{one_first_fault_at_most, one_script_at_most, scripts_agree_with_their_books};
pub use reading::read_script;
