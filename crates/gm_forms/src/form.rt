//! What is written in a book, before its names are looked up. Names are tokens of the text.

use gm_model::{Dim, Kind, Word};
use gm_text::Token;

/// Where an expression stands in the text: from `start` up to its last token, before `end`. Labels
/// in it go up to the dimension.
#[derive(Clone, Copy)]
pub struct Span {
    pub start: usize,
    pub end: usize,
    pub dim: Dim,
}

/// An assignment to an embedding.
#[derive(Clone, Copy)]
pub struct SetForm {
    pub embed: Token,
    pub value: Span,
}

/// What a side of a rule lists.
#[derive(Drop)]
pub enum Item {
    Node {
        name: Token,
        word: Word,
        hook: bool,
        sets: Vec<SetForm>,
    },
    Link {
        from: Token,
        label: u8,
        to: Token,
    },
}

/// A parameter as it is declared.
#[derive(Clone, Copy)]
pub struct ParamForm {
    pub name: Token,
    pub kind: Kind,
}

/// A rule as it is written.
#[derive(Drop)]
pub struct RuleForm {
    pub name: Token,
    pub params: Vec<ParamForm>,
    pub left: Vec<Item>,
    pub right: Vec<Item>,
    pub pre: Option<Span>,
}
