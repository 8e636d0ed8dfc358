//! What is found for each embedding that is asked for: its deciding instances, and the darts that they reach.
ghost use Rattle.std.specs.Prelude.{◌≡◌, replicate, None, IfOk};

use crate::deciding_instance::DecidingInstance;
use crate::marks::Marks;
use gm_model::OutOfMemory;
use smallvec::SmallVec;
use std::alloc::Global;

/// The instances that decide. Most applications have one or two for each embedding, and those need no
/// memory of their own.
pub type DecidingInstances = SmallVec<DecidingInstance, 2>;

/// The orbits of one embedding that instances decide: these instances, and marks of the darts in
/// the orbits.
#[derive(Drop)]
pub struct DecidedOrbits {
    pub instances: DecidingInstances,
    pub marks: Marks,
}

/// By embedding, the orbits that are decided, where they were asked for. Where there is no embedding,
/// it takes no memory.
pub type OrbitsByEmbed = Vec<Option<DecidedOrbits>>;

/// Those of `embeds` embeddings that were not asked for.
pub(crate) fn no_orbits(alloc: Global, embeds: usize) -> Result<OrbitsByEmbed, OutOfMemory>
    ensures { IfOk result (λ orbits. orbits.items ≡ replicate embeds None) }
{
    let mut orbits = Vec::with_capacity(alloc, embeds)?;
    for _ in 0..embeds {
        orbits.push(None)?;
    }
    Ok(orbits)
}
