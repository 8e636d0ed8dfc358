//! Darts of an application's result that walks reached.
use crate::packed::PackedAt;

/// A dart of a result, and the index of the instance that decides its orbit.
#[derive(Clone, Copy)]
pub struct Mark {
    pub at: PackedAt,
    pub instance: u32,
    /// A label along which a marked dart lies, where one is known: a walk needn't go there.
    pub over: Option<u8>,
}
