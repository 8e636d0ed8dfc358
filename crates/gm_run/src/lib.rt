//! A run of a script over a map: each line is applied to the map that the line before it left, and
//! what became of the lines is told in a report.
#![tactic(auto)]

mod alike;
mod done_line;
mod each;
mod laws;
mod lines;
mod outcome;
mod printing;
mod running;
mod standing;
mod words;

pub use alike::alike_maps_run_alike;
pub use laws::{next_never_falls, one_run_at_most};
pub use outcome::{Outcome, Report};
pub use printing::{count_done, print_report};
pub use running::run;
