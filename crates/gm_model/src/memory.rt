//! The answer of a call for which memory ran out.

ghost use Rattle.std.specs.Prelude.{◌≡◌};
ghost use Rattle.gm_model.specs.declared.memory.OutOfMemory.{OutOfMemory};

use std::alloc::{AllocError, AllocFailed};

/// Memory ran out. Whoever answers this has left what was lent to it unchanged, unless its
/// documentation says otherwise.
#[derive(Clone, Copy, Debug, PartialEq, Eq)]
pub struct OutOfMemory;

impl From<AllocError> for OutOfMemory {
    fn from(_error: AllocError) -> OutOfMemory {
        OutOfMemory
    }
}

impl<T: Drop> From<AllocFailed<T>> for OutOfMemory {
    fn from(_error: AllocFailed<T>) -> OutOfMemory {
        OutOfMemory
    }
}
