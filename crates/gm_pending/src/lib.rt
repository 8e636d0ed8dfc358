//! The result of an application before anything is written: which instances decide its values, and
//! what each dart's neighbours and values are. Once each embedding's instances have values, it is all
//! that a commit is made of.
#![tactic(auto)]

mod decided_orbits;
mod deciding;
mod deciding_instance;
mod marks;
mod pending;
mod values;

pub use decided_orbits::{DecidedOrbits, DecidingInstances, OrbitsByEmbed};
pub use deciding_instance::DecidingInstance;
pub use gm_walk::At;
pub use marks::Marks;
pub use pending::Pending;
pub use values::given;
