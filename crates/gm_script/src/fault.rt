//! Why a text gives no script under a book.

ghost use Rattle.std.specs.Prelude.{◌≡◌};

use crate::reader::TextFault;
use gm_model::{LimitKind, OutOfMemory};
use std::alloc::{AllocError, AllocFailed};
use thiserror::Error;

/// Why a text gives no script under a book. Places are byte indices, and one may be the length of
/// the text.
#[derive(Clone, Copy, Debug, Error)]
pub enum ScriptFault {
    /// No script goes on with what stands at the place.
    #[error("no script goes on so")]
    Text { place: usize },
    /// What stands at the place passes a limit.
    #[error("a limit is passed")]
    Limit { what: LimitKind, place: usize },
    /// The label at the place was mentioned before in its orbit.
    #[error("a label is mentioned twice")]
    Twice { place: usize },
    /// The book has no rule with the name that stands at the place.
    #[error("the book has no such rule")]
    UnknownRule { place: usize },
    /// The statement that begins at the place has not as many hooks as its rule, which for an `each`
    /// is one.
    #[error("the rule has another number of hooks")]
    HookCount { place: usize },
    /// The values of the statement that begins at the place are not those of its rule's parameters.
    #[error("the rule has other parameters")]
    Params { place: usize },
    /// Memory ran out, which says nothing of the text.
    #[error("out of memory")]
    OutOfMemory,
}

impl From<AllocError> for ScriptFault {
    ghost use Rattle.gm_script.specs.declared.fault.ScriptFault.TheVariants as faults;

    ghost from_gives = { λ _ fault. fault ≡ faults.OutOfMemory };

    fn from(_error: AllocError) -> ScriptFault {
        ScriptFault::OutOfMemory
    }
}

impl<T: Drop> From<AllocFailed<T>> for ScriptFault {
    ghost use Rattle.gm_script.specs.declared.fault.ScriptFault.TheVariants as faults;

    ghost from_gives = { λ _ fault. fault ≡ faults.OutOfMemory };

    fn from(_error: AllocFailed<T>) -> ScriptFault {
        ScriptFault::OutOfMemory
    }
}

impl From<OutOfMemory> for ScriptFault {
    ghost use Rattle.gm_script.specs.declared.fault.ScriptFault.TheVariants as faults;

    ghost from_gives = { λ _ fault. fault ≡ faults.OutOfMemory };

    fn from(_error: OutOfMemory) -> ScriptFault {
        ScriptFault::OutOfMemory
    }
}

impl From<TextFault> for ScriptFault {
    ghost use Rattle.gm_script.specs.inner.Faults.{of_text};

    ghost from_gives = { λ fault given. given ≡ of_text fault };

    fn from(fault: TextFault) -> ScriptFault {
        match fault {
            TextFault::Text { place } => ScriptFault::Text { place },
            TextFault::Limit { what, place } => ScriptFault::Limit { what, place },
            TextFault::Twice { place } => ScriptFault::Twice { place },
            TextFault::OutOfMemory => ScriptFault::OutOfMemory,
        }
    }
}
