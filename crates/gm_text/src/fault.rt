//! The fault of a byte with which no token begins.

/// After blanks and comments a byte stands at `place` that no token begins with.
#[derive(Clone, Copy, Debug, PartialEq, Eq)]
pub struct LexFault {
    pub place: usize,
}
