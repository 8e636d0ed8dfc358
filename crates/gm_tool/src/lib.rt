//! The program's commands, over any store and sink: what the words of the command line ask for, what
//! is printed and saved, and with which status.
#![tactic(auto)]

mod answers;
mod book;
mod cells;
mod check;
mod command;
mod dual;
mod existence;
mod grid;
mod laws;
mod load;
mod map;
mod migrating;
mod program;
mod refusal;
mod reply;
mod running;
mod script;

pub use answers::one_answer_at_least;
pub use existence::{good_files_have_runs, grids_have_answers, runs_have_bounds};
pub use laws::one_answer_at_most;
pub use program::tool;
