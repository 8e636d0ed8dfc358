//! The names that an expression can use.
use gm_model::{Node, Param, Schema};

/// The embeddings, parameters and left nodes that an expression can name: those of a schema and of
/// a rule. Nodes without a left word may be among the nodes, and can't be named.
#[derive(Clone, Copy)]
pub struct Env<'a> {
    pub schema: &'a Schema,
    pub params: &'a [Param],
    pub nodes: &'a [Node],
}
