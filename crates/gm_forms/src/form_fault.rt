//! Why a text has no form.

use gm_model::LimitKind;
use gm_parse::SyntaxFault;
use std::alloc::{AllocError, AllocFailed};

/// Why a text has no form: its first fault from left to right, or that memory ran out.
#[derive(Drop)]
pub enum FormFault {
    /// No text of a book goes on with what stands at the place.
    Text { place: usize },
    /// A limit is passed by what stands at the place.
    Limit { what: LimitKind, place: usize },
    OutOfMemory,
}

impl From<AllocError> for FormFault {
    ghost use Rattle.std.specs.Prelude.{◌≡◌};
    ghost use Rattle.gm_forms.specs.declared.form_fault.FormFault.TheVariants as faults;

    ghost from_gives = { λ _ fault. fault ≡ faults.OutOfMemory };

    fn from(_error: AllocError) -> FormFault {
        FormFault::OutOfMemory
    }
}

impl<T: Drop> From<AllocFailed<T>> for FormFault {
    ghost use Rattle.std.specs.Prelude.{◌≡◌};
    ghost use Rattle.gm_forms.specs.declared.form_fault.FormFault.TheVariants as faults;

    ghost from_gives = { λ _ fault. fault ≡ faults.OutOfMemory };

    fn from(_error: AllocFailed<T>) -> FormFault {
        FormFault::OutOfMemory
    }
}

impl From<SyntaxFault> for FormFault {
    ghost use Rattle.std.specs.Prelude.{◌≡◌};
    ghost use Rattle.gm_forms.specs.inner.Values.{form_fault_of_syntax};

    ghost from_gives = { λ fault given. given ≡ form_fault_of_syntax fault };

    fn from(fault: SyntaxFault) -> FormFault {
        match fault {
            SyntaxFault::Text { place } => FormFault::Text { place },
            SyntaxFault::Limit { what, place } => FormFault::Limit { what, place },
        }
    }
}
