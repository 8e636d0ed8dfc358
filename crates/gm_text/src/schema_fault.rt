//! Why no schema stands where a lexer is.
use gm_model::LimitKind;
use std::alloc::{AllocError, AllocFailed};

/// Why a schema can't be read. Places are byte indices, and one may be the length of the text.
#[derive(Clone, Copy, Debug)]
pub enum SchemaFault {
    /// No schema goes on with what stands at the place.
    Text { place: usize },
    /// What stands at the place passes a limit.
    Limit { what: LimitKind, place: usize },
    /// The name at the place was declared before, or the label mentioned before in its orbit.
    Twice { place: usize },
    /// Memory ran out, which says nothing of the text.
    OutOfMemory,
}

impl From<AllocError> for SchemaFault {
    ghost use Rattle.std.specs.Prelude.{◌≡◌};
    ghost use Rattle.gm_text.specs.declared.schema_fault.SchemaFault.TheVariants as faults;

    ghost from_gives = { λ _ fault. fault ≡ faults.OutOfMemory };

    fn from(_error: AllocError) -> SchemaFault {
        SchemaFault::OutOfMemory
    }
}

impl<T: Drop> From<AllocFailed<T>> for SchemaFault {
    ghost use Rattle.std.specs.Prelude.{◌≡◌};
    ghost use Rattle.gm_text.specs.declared.schema_fault.SchemaFault.TheVariants as faults;

    ghost from_gives = { λ _ fault. fault ≡ faults.OutOfMemory };

    fn from(_error: AllocFailed<T>) -> SchemaFault {
        SchemaFault::OutOfMemory
    }
}
