//! Why a rule doesn't match.

use gm_model::OutOfMemory;

/// Why a rule isn't matched. Nodes go by their index in the rule, and with a position they name an
/// instance.
#[derive(Clone, Copy, Debug)]
pub enum MatchFault {
    /// The hook at this index names no live dart. It is the first such hook.
    NoDart {
        index: u8,
    },
    /// The neighbour along the label isn't where the left step of the node leads. It is the first
    /// such step, by node, position and label.
    Arc {
        node: u8,
        position: u32,
        label: u8,
    },
    /// Both instances have one dart. The second is the least, by node and position, whose dart an
    /// earlier instance has, and the first is this earlier one.
    Same {
        node: u8,
        position: u32,
        node2: u8,
        position2: u32,
    },
    OutOfMemory,
}

impl From<OutOfMemory> for MatchFault {
    ghost use Rattle.std.specs.Prelude.{◌≡◌};
    ghost use Rattle.gm_match.specs.declared.fault.MatchFault.TheVariants as faults;

    ghost from_gives = { λ _ fault. fault ≡ faults.OutOfMemory };

    fn from(_error: OutOfMemory) -> MatchFault {
        MatchFault::OutOfMemory
    }
}
