//! Why an application is refused.

use gm_match::MatchFault;
use gm_model::OutOfMemory;

/// Why an application is refused. The map is then as it was. Nodes and embeddings go by their
/// index.
#[derive(Clone, Copy, Debug)]
pub enum Refusal {
    /// The hook at this index names no live dart. It is the first such hook.
    NoDart {
        index: u8,
    },
    /// The neighbour along the label isn't where the left step of the node leads. It is the first
    /// such step, by node, position and label.
    Arc {
        node: u8,
        position: u32,
        label: u8,
    },
    /// Both instances have one dart. The second is the least, by node and position, whose dart an
    /// earlier instance has, and the first is this earlier one.
    Same {
        node: u8,
        position: u32,
        node2: u8,
        position2: u32,
    },
    /// The precondition has no value.
    PreNoValue,
    /// The precondition is false.
    PreFalse,
    /// The darts that stay, `live` of them, and those to be added, `more`, are too many for a map.
    FullDarts {
        live: u32,
        more: u64,
    },
    /// The names from `next` on are too few for the darts to be added, `more` of them.
    FullNames {
        next: u32,
        more: u64,
    },
    /// The first deciding instance without a value, by embedding and node.
    NoValue {
        embed: u8,
        node: u8,
    },
    /// Memory ran out, which says nothing of the application.
    OutOfMemory,
}

impl From<OutOfMemory> for Refusal {
    ghost use Rattle.std.specs.Prelude.{◌≡◌};
    ghost use Rattle.gm_apply.specs.declared.refusal.Refusal.TheVariants as refusals;

    ghost from_gives = { λ _ refusal. refusal ≡ refusals.OutOfMemory };

    fn from(_error: OutOfMemory) -> Refusal {
        Refusal::OutOfMemory
    }
}

impl From<MatchFault> for Refusal {
    ghost use Rattle.std.specs.Prelude.{◌≡◌};
    ghost use Rattle.gm_apply.specs.inner.Outcomes.{refusal_of_match};

    ghost from_gives = { λ fault refusal. refusal ≡ refusal_of_match fault };

    fn from(fault: MatchFault) -> Refusal {
        match fault {
            MatchFault::NoDart { index } => Refusal::NoDart { index },
            MatchFault::Arc {
                node,
                position,
                label,
            } => Refusal::Arc {
                node,
                position,
                label,
            },
            MatchFault::Same {
                node,
                position,
                node2,
                position2,
            } => Refusal::Same {
                node,
                position,
                node2,
                position2,
            },
            MatchFault::OutOfMemory => Refusal::OutOfMemory,
        }
    }
}
