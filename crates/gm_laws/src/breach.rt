//! Where a map breaks a law.

use gm_model::OutOfMemory;

/// Where a map breaks a law. The darts go by name.
#[derive(Clone, Copy, Debug)]
pub enum MapBreach {
    /// The neighbour along the label does not lead back.
    Involution { dart: u32, label: u8 },
    /// The labels, `j` at least two above `i`, do not commute.
    Cycle { dart: u32, i: u8, j: u8 },
    /// The dart and its neighbour along a label of the embedding's orbits have two values.
    Embedding { embed: u8, dart: u32, other: u32 },
}

/// Why a map was not found lawful.
#[derive(Clone, Copy, Debug)]
pub enum LawFault {
    /// It breaks a law, here first.
    Breach(MapBreach),
    OutOfMemory,
}

impl From<OutOfMemory> for LawFault {
    ghost use Rattle.std.specs.Prelude.{◌≡◌};
    ghost use Rattle.gm_laws.specs.declared.breach.LawFault.TheVariants as faults;

    ghost from_gives = { λ _ fault. fault ≡ faults.OutOfMemory };

    fn from(_error: OutOfMemory) -> LawFault {
        LawFault::OutOfMemory
    }
}
