//! Why a text gives no map.

ghost use Rattle.std.specs.Prelude.{◌≡◌};

use gm_laws::{LawFault, MapBreach};
use gm_model::{LimitKind, Name};
use gm_text::SchemaFault;
use std::alloc::{AllocError, AllocFailed};
use thiserror::Error;

/// Why a text gives no map. Places are byte indices, and one may be the length of the text.
#[derive(Clone, Copy, Debug, Error)]
pub enum MapFault {
    /// No text of a map goes on with what stands at the place.
    #[error("no map's text goes on so")]
    Text { place: usize },
    /// What stands at the place passes a limit.
    #[error("a limit is passed")]
    Limit { what: LimitKind, place: usize },
    /// The name at the place was declared before, or the label mentioned before in its orbit.
    #[error("a name or a label stands twice")]
    Twice { place: usize },
    /// The least name that two darts have.
    #[error("two darts have one name")]
    DartTwice { dart: u32 },
    /// The least name that isn't below the next one that the text states.
    #[error("a name isn't below the next one")]
    Next { dart: u32 },
    /// The first dart and label whose neighbour is no dart.
    #[error("a neighbour is no dart")]
    NoTarget { dart: u32, label: u8 },
    /// The first breach of the laws of a map.
    #[error("a law of maps is broken")]
    Breach(MapBreach),
    /// Memory ran out, which says nothing of the text.
    #[error("out of memory")]
    OutOfMemory,
}

impl From<AllocError> for MapFault {
    ghost use Rattle.gm_mapfile.specs.declared.fault.MapFault.TheVariants as faults;

    ghost from_gives = { λ _ fault. fault ≡ faults.OutOfMemory };

    fn from(_error: AllocError) -> MapFault {
        MapFault::OutOfMemory
    }
}

impl<T: Drop> From<AllocFailed<T>> for MapFault {
    ghost use Rattle.gm_mapfile.specs.declared.fault.MapFault.TheVariants as faults;

    ghost from_gives = { λ _ fault. fault ≡ faults.OutOfMemory };

    fn from(_error: AllocFailed<T>) -> MapFault {
        MapFault::OutOfMemory
    }
}

impl From<gm_model::OutOfMemory> for MapFault {
    ghost use Rattle.gm_mapfile.specs.declared.fault.MapFault.TheVariants as faults;

    ghost from_gives = { λ _ fault. fault ≡ faults.OutOfMemory };

    fn from(_error: gm_model::OutOfMemory) -> MapFault {
        MapFault::OutOfMemory
    }
}

impl From<LawFault> for MapFault {
    ghost use Rattle.gm_mapfile.specs.inner.Answered.{map_fault_of_laws};

    ghost from_gives = { λ fault given. given ≡ map_fault_of_laws fault };

    fn from(fault: LawFault) -> MapFault {
        match fault {
            LawFault::Breach(breach) => MapFault::Breach(breach),
            LawFault::OutOfMemory => MapFault::OutOfMemory,
        }
    }
}

impl From<SchemaFault> for MapFault {
    ghost use Rattle.gm_mapfile.specs.inner.Answered.{map_fault_of_text};

    ghost from_gives = { λ fault given. given ≡ map_fault_of_text fault };

    fn from(fault: SchemaFault) -> MapFault {
        match fault {
            SchemaFault::Text { place } => MapFault::Text { place },
            SchemaFault::Limit { what, place } => MapFault::Limit { what, place },
            SchemaFault::Twice { place } => MapFault::Twice { place },
            SchemaFault::OutOfMemory => MapFault::OutOfMemory,
        }
    }
}

/// Why a text gives no map, with all that its line says, so that the text is no longer needed.
#[derive(Clone, Copy, Debug)]
pub struct NoMap {
    pub fault: MapFault,
    /// The name of the embedding whose values differ, where that is the fault.
    pub embed: Option<Name>,
}

impl From<SchemaFault> for NoMap {
    ghost use Rattle.std.specs.Prelude.{None};
    ghost use Rattle.gm_mapfile.specs.inner.Answered.{map_fault_of_text};

    ghost from_gives = { λ fault given. given ≡ record { fault = map_fault_of_text fault; embed = None } };

    fn from(fault: SchemaFault) -> NoMap {
        NoMap {
            fault: fault.into(),
            embed: None,
        }
    }
}

impl From<MapFault> for NoMap {
    ghost use Rattle.std.specs.Prelude.{None};

    ghost from_gives = { λ fault given. given ≡ record { fault = fault; embed = None } };

    fn from(fault: MapFault) -> NoMap {
        NoMap { fault, embed: None }
    }
}
