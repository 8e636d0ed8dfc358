//! Orbit walks: the darts that a word of labels leads to, in the order in which they are met first.
//! And how many orbits there are.
//!
//! A walk takes no memory, unless its turns are wanted too. It lives in a `Scratch` that its caller
//! lends, and its time and its steps go by its own length, however large the map is. The darts of an
//! application's result are here too, as walks mark them, since the scratch keeps room for the marks.
#![tactic(auto)]

mod at;
mod mark;
mod orbit_count;
mod packed;
mod scratch;
mod turns;
mod walk;

pub use at::At;
pub use mark::Mark;
pub use orbit_count::{none_seen, orbits, pair_of, see_orbit};
pub use packed::PackedAt;
pub use scratch::Scratch;
pub use turns::walk_turns;
pub use walk::{Walk, walk_mask, walk_word, word_of};
