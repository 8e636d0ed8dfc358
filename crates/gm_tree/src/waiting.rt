//! What waits for an operand.
use crate::partial::Callee;
use gm_model::{BinOp, Expr};

/// The beginning of an expression, which an operand goes on.
#[derive(Drop)]
pub(crate) enum Waiting {
    /// An operator with its left operand.
    Left(BinOp, Expr),
    Minus,
    Not,
    /// `else`, with the condition and the first part.
    Else(Expr, Expr),
    Group,
    /// The first argument of a function, the second one after the first, and so on.
    First(Callee),
    Second(Callee, Expr),
    Third(Callee, Expr, Expr),
    /// One argument too many for any function.
    Beyond(Callee),
    If,
    Then(Expr),
}
