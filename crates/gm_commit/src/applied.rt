//! How many darts an application adds and removes.

/// How many darts an application adds and removes.
#[derive(Clone, Copy, PartialEq, Eq)]
pub struct Applied {
    pub added: u32,
    pub removed: u32,
}
