//! Rules compiled for their application: the steps of each node, and the least path to each left
//! node; and where an application's instances lie.
#![tactic(auto)]

mod changes;
mod collecting;
mod compiler;
mod existence;
mod index;
mod instances;
mod laws;
mod lookup;
mod paths;
mod plan;
mod sides;
mod sources;
mod table;
mod tested;

pub use compiler::{PlanFault, compile};
pub use existence::{accepted_or_a_first_fault, each_condition_is_met_or_has_a_fault};
pub use index::Index;
pub use instances::Instances;
pub use laws::{no_fault_of_a_condition_that_is_met, one_fault_at_most};
pub use lookup::{Lookup, instance_at};
pub use plan::Plan;
pub use tested::Test;
