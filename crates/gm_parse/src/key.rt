//! What the tokens of an expression are.
use gm_model::BinOp;

/// A function over the darts of an orbit.
#[derive(Clone, Copy)]
pub enum Collector {
    Sum,
    Least,
    Greatest,
}

/// What a token is to expressions, wherever it stands in one. `<`, `>` and `-` are operators here.
#[derive(Clone, Copy)]
pub enum Key {
    Number,
    Truth(bool),
    Operator(BinOp),
    If,
    Then,
    Else,
    Not,
    Same,
    Count,
    Collect(Collector),
    /// A word that isn't reserved.
    Name,
    Open,
    Close,
    Comma,
    Dot,
    At,
    /// What stands in no expression.
    Other,
}
