//! Why an expression can't be read.
use gm_model::{LimitKind, OutOfMemory};
use std::alloc::{AllocError, AllocFailed};

/// Why no expression stands where a lexer is. Places are byte indices, and one may be the length of
/// the text.
#[derive(Clone, Copy, Debug)]
pub enum SyntaxFault {
    /// No expression goes on with what stands at the place.
    Text { place: usize },
    /// What stands at the place passes a limit.
    Limit { what: LimitKind, place: usize },
}

/// Why an expression has no meaning.
#[derive(Clone, Copy, Debug)]
pub enum ExprFault {
    /// The name at the place is none of what its place asks for: a parameter, a left node, an
    /// embedding, or a function with as many arguments as stand there.
    Unknown { place: usize },
    /// The label at the place was mentioned before in its orbit.
    Twice { place: usize },
    /// Memory ran out, which says nothing of the text.
    OutOfMemory,
}

impl From<AllocError> for ExprFault {
    ghost use Rattle.std.specs.Prelude.{◌≡◌};
    ghost use Rattle.gm_parse.specs.declared.fault.ExprFault.TheVariants as faults;

    ghost from_gives = { λ _ fault. fault ≡ faults.OutOfMemory };

    fn from(_error: AllocError) -> ExprFault {
        ExprFault::OutOfMemory
    }
}

impl<T: Drop> From<AllocFailed<T>> for ExprFault {
    ghost use Rattle.std.specs.Prelude.{◌≡◌};
    ghost use Rattle.gm_parse.specs.declared.fault.ExprFault.TheVariants as faults;

    ghost from_gives = { λ _ fault. fault ≡ faults.OutOfMemory };

    fn from(_error: AllocFailed<T>) -> ExprFault {
        ExprFault::OutOfMemory
    }
}

impl From<OutOfMemory> for ExprFault {
    ghost use Rattle.std.specs.Prelude.{◌≡◌};
    ghost use Rattle.gm_parse.specs.declared.fault.ExprFault.TheVariants as faults;

    ghost from_gives = { λ _ fault. fault ≡ faults.OutOfMemory };

    fn from(_error: OutOfMemory) -> ExprFault {
        ExprFault::OutOfMemory
    }
}
