//! The lines that say why a file's text stands for nothing, and what becomes of a rule.
#![tactic(auto)]

mod fault_lines;
mod rule_lines;

pub use fault_lines::{book_line, map_line, script_line};
pub use rule_lines::{refused_rule_line, verdict_line};
