//! The handle by which callers hold a dart of an arena.

/// Where a dart stands in an arena. A live dart keeps its slot until it is removed; after that
/// another dart may take it.
#[derive(Clone, Copy, Debug, PartialEq, Eq)]
pub struct Slot {
    pub at: u32,
}
