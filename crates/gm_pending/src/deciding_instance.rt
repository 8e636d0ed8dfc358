//! An instance that decides.
use gm_model::Value;

/// An instance that decides the value of an orbit, and the value that was given to it.
#[derive(Clone, Copy, Default)]
pub struct DecidingInstance {
    pub node: u8,
    pub position: u32,
    pub given: Option<Value>,
}
