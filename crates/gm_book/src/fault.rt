//! Why a text gives no book.

ghost use Rattle.std.specs.Prelude.{◌≡◌};

use crate::names::NameFault;
use gm_forms::FormFault;
use gm_model::{LimitKind, OutOfMemory};
use gm_text::SchemaFault;
use std::alloc::{AllocError, AllocFailed};
use thiserror::Error;

/// Why a text gives no book. Places are byte indices, and one may be the length of the text.
#[derive(Clone, Copy, Debug, Error)]
pub enum BookFault {
    /// No text of a book goes on with what stands at the place.
    #[error("no book's text goes on so")]
    Text { place: usize },
    /// What stands at the place passes a limit.
    #[error("a limit is passed")]
    Limit { what: LimitKind, place: usize },
    /// An embedding has the name of an earlier embedding, a rule that of an earlier rule, a
    /// parameter that of an earlier one of its rule, or a node that of an earlier node of its side;
    /// or an embedding is assigned again on its node, or a label is mentioned again in its orbit.
    #[error("a name is given twice")]
    Twice { place: usize },
    /// A link names no node of its side, `with` no embedding, or an expression nothing that it could.
    #[error("a name stands for nothing")]
    Unknown { place: usize },
    /// The expression that begins at the place hasn't the kind that an assignment's embedding or a
    /// precondition needs, or has none.
    #[error("an expression of the wrong kind")]
    WrongKind { place: usize },
    /// Memory ran out, which says nothing of the text.
    #[error("out of memory")]
    OutOfMemory,
}

impl From<AllocError> for BookFault {
    ghost use Rattle.gm_book.specs.declared.fault.BookFault.TheVariants as faults;

    ghost from_gives = { λ _ fault. fault ≡ faults.OutOfMemory };

    fn from(_error: AllocError) -> BookFault {
        BookFault::OutOfMemory
    }
}

impl<T: Drop> From<AllocFailed<T>> for BookFault {
    ghost use Rattle.gm_book.specs.declared.fault.BookFault.TheVariants as faults;

    ghost from_gives = { λ _ fault. fault ≡ faults.OutOfMemory };

    fn from(_error: AllocFailed<T>) -> BookFault {
        BookFault::OutOfMemory
    }
}

impl From<OutOfMemory> for BookFault {
    ghost use Rattle.gm_book.specs.declared.fault.BookFault.TheVariants as faults;

    ghost from_gives = { λ _ fault. fault ≡ faults.OutOfMemory };

    fn from(_error: OutOfMemory) -> BookFault {
        BookFault::OutOfMemory
    }
}

impl From<NameFault> for BookFault {
    ghost use Rattle.gm_book.specs.inner.Building.{book_fault_of};

    ghost from_gives = { λ fault given. given ≡ book_fault_of fault };

    fn from(fault: NameFault) -> BookFault {
        match fault {
            NameFault::Twice { place } => BookFault::Twice { place },
            NameFault::Unknown { place } => BookFault::Unknown { place },
            NameFault::WrongKind { place } => BookFault::WrongKind { place },
        }
    }
}

impl From<FormFault> for BookFault {
    ghost use Rattle.gm_book.specs.inner.Faults.{book_fault_of_form};

    ghost from_gives = { λ fault given. given ≡ book_fault_of_form fault };

    fn from(fault: FormFault) -> BookFault {
        match fault {
            FormFault::Text { place } => BookFault::Text { place },
            FormFault::Limit { what, place } => BookFault::Limit { what, place },
            FormFault::OutOfMemory => BookFault::OutOfMemory,
        }
    }
}

impl From<SchemaFault> for BookFault {
    ghost use Rattle.gm_book.specs.inner.Faults.{book_fault_of_schema};

    ghost from_gives = { λ fault given. given ≡ book_fault_of_schema fault };

    fn from(fault: SchemaFault) -> BookFault {
        match fault {
            SchemaFault::Text { place } => BookFault::Text { place },
            SchemaFault::Limit { what, place } => BookFault::Limit { what, place },
            SchemaFault::Twice { place } => BookFault::Twice { place },
            SchemaFault::OutOfMemory => BookFault::OutOfMemory,
        }
    }
}
