//! Maps as texts, in both versions: read to an arena and printed from it.
#![tactic(auto)]

mod at_least;
mod building;
mod fault;
mod laws;
mod ordering;
mod printing;
mod reading;
mod values;
mod version;
mod words;

pub use at_least::a_text_stands_for_a_map_or_has_a_first_fault;
pub use fault::{MapFault, NoMap};
pub use laws::{
    a_canonical_text_stands_for_its_map, one_first_fault_at_most, one_map_at_most,
    what_is_printed_is_read_again,
};
pub use printing::{print_map, print_map_over};
pub use reading::{MapRead, read_map, read_map_or_why, take_map};
pub use version::MapVersion;
