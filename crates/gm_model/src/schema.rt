//! The schema of maps and books: a dimension and embeddings.

use crate::dim::Dim;
use crate::items::Items;
use crate::name::Name;
use crate::value::Kind;
use crate::word::Mask;

/// An embedding: each orbit over the labels of `mask` has one value, of this kind.
#[derive(Clone, Copy, PartialEq, Eq)]
pub struct Embed {
    pub name: Name,
    pub mask: Mask,
    pub kind: Kind,
}

/// The dimension of a map and its embeddings, in order. A number of an embedding is its index here.
#[derive(Drop)]
pub struct Schema {
    pub dim: Dim,
    pub embeds: Items<Embed>,
}
