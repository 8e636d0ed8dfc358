//! What a tree is built with.
use crate::waiting::Waiting;
use gm_parse::ExprFault;

/// What waits for an operand, the innermost last, and the least fault of names so far.
#[derive(Drop)]
pub(crate) struct Builder {
    pub(crate) waiting: Vec<Waiting>,
    pub(crate) least: Option<ExprFault>,
}
