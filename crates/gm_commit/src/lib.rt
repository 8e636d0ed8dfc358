//! What a pending result changes of its arena, and the commit in place, which can't be refused: arcs
//! are freed, darts removed and added, arcs made and values set.
#![tactic(auto)]

mod applied;
mod changes;
mod commit;
mod edits;
mod new_darts;
mod old_darts;
mod rewrite;

pub use applied::Applied;
pub use changes::Changes;
pub use edits::Edits;
