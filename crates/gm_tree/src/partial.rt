//! What is read of an operand that isn't whole.
use gm_model::{DartTerm, Expr, Mask};
use gm_parse::{Collector, Function};

/// A function by its name, where one has it, and the place of the name.
#[derive(Clone, Copy)]
pub(crate) struct Callee {
    pub(crate) function: Option<Function>,
    pub(crate) place: usize,
}

/// A name at its place, and all that it can stand for.
#[derive(Clone, Copy)]
pub(crate) struct Named {
    pub(crate) place: usize,
    pub(crate) param: Option<u8>,
    pub(crate) node: Option<u8>,
    pub(crate) function: Option<Function>,
}

/// What an orbit is read for.
#[derive(Clone, Copy)]
pub(crate) enum Head {
    Count,
    Collect(Collector),
}

/// What a dart term is read for.
#[derive(Drop)]
pub(crate) enum Lead {
    /// The first term of `same`.
    First,
    /// The second one, after the first.
    Second(DartTerm),
    /// A count of darts.
    Counted(Mask),
    /// The value of an embedding.
    Plain,
    /// A function of the values of an embedding.
    Collected(Collector, Mask),
}

/// What is read of an operand.
#[derive(Drop)]
pub(crate) enum Partial {
    Nothing,
    /// All of it.
    Value(Expr),
    /// A name, which can go on.
    Name(Named),
    InOrbit(Head, Mask),
    BeforeTerm(Lead),
    BehindTerm(Lead, DartTerm),
    /// What a function of an orbit has in its parentheses.
    BehindField(Collector, Mask, DartTerm, u8),
}
