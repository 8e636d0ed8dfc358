//! The versions of a map's text.

/// Which version of the format a text has.
#[derive(Clone, Copy, PartialEq, Eq)]
pub enum MapVersion {
    /// The next name is the least above all names.
    One,
    /// The text states the next name, so that a name that was removed stays unused.
    Two,
}
