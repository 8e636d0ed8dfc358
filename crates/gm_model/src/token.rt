//! The tokens of a text, by kind and place.

/// What kind of token a text has at a place. Which sign or word it is, the text tells.
#[derive(Clone, Copy, Debug, PartialEq, Eq)]
pub enum TokenKind {
    /// A letter, then letters, digits and `_`.
    Name,
    /// One or more digits.
    Number,
    /// A `_` that stands in no name.
    Gone,
    /// One of the signs, of one byte or two.
    Sign,
}

/// A token of a text: its kind, and the offsets of its first byte and of the byte after it.
#[derive(Clone, Copy, Debug, PartialEq, Eq)]
pub struct Token {
    pub kind: TokenKind,
    pub start: usize,
    pub end: usize,
}
