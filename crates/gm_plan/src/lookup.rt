//! Which instance lies at a slot.
ghost use Rattle.std.specs.Prelude.{◌≡◌, ◌≢◌, ℕ, ◌+◌, ◌/◌, ◌%◌, ◌<◌, ◌≤◌, MatchOption, IfOk, OnOk};
ghost use Rattle.gm_plan.specs.inner.InArena.{slot_number};
ghost use Rattle.gm_plan.specs.inner.Lookup.{IsWithin, IsAtSlot, IsLookupUpTo, IsLookupIn};

use crate::instances::Instances;
use gm_arena::Slot;
use gm_model::OutOfMemory;
use std::alloc::Global;
use std::collections::HashMap;

/// The left nodes and positions by the slots at which they lie. It is made once where many darts
/// are looked up.
#[derive(Drop)]
pub struct Lookup {
    instances: Box<HashMap<u32, (u8, u32)>>,
}

impl Lookup {
    /// The instances of `nodes` left nodes.
    pub fn build(alloc: Global, found: &Instances, nodes: u8) -> Result<Lookup, OutOfMemory>
        requires { nodes ≡ found.now.nodes }
        ensures { IfOk result (IsLookupIn found.now) }
    {
        let mut instances = HashMap::new(alloc);
        add_nodes(&mut instances, found, nodes)?;
        let instances = Box::new(alloc, instances)?;
        Ok(Lookup { instances })
    }

    /// The left node and the position that lie at the slot; none where no instance does.
    // A call of its own, so that the search of a few slots stays small where darts are walked.
    #[inline(never)]
    pub fn find(&self, found: &Instances, slot: Slot) -> Option<(u8, u32)>
        requires { IsLookupIn found.now self.now }
        ensures { MatchOption result
            ((x p : ℕ) → IsWithin found.now x p → slot_number found.now x p ≢ slot.at)
            (λ i. IsAtSlot found.now slot.at i.0 i.1) }
    {
        self.instances.get(&slot.at).copied()
    }
}

/// Adds the instances of `nodes` left nodes, where there are none.
fn add_nodes(
    instances: &mut HashMap<u32, (u8, u32)>,
    found: &Instances,
    nodes: u8,
) -> Result<(), OutOfMemory>
    requires nodes { nodes ≡ found.now.nodes }
    requires none { IsLookupUpTo found.now instances.old 0 0 }
    ensures { OnOk result (IsLookupUpTo found.now instances.new nodes 0) }
{
    for node in 0..nodes {
        add_node(instances, found, node)?;
    }
    Ok(())
}

/// Adds the instances of a node.
fn add_node(
    instances: &mut HashMap<u32, (u8, u32)>,
    found: &Instances,
    node: u8,
) -> Result<(), OutOfMemory>
    requires node { node < found.now.nodes }
    requires earlier { IsLookupUpTo found.now instances.old node 0 }
    ensures { OnOk result (IsLookupUpTo found.now instances.new (node + 1) 0) }
{
    for position in 0..found.positions() {
        instances.insert(found.slot(node, position).at, (node, position))?;
    }
    Ok(())
}

/// The left node and the position that lie at the slot; none where no instance does.
///
/// It looks through what is matched, so that an application that asks for no old dart pays nothing.
#[inline(always)]
pub fn instance_at(found: &Instances, nodes: u8, slot: Slot) -> Option<(u8, u32)>
    requires { nodes ≡ found.now.nodes }
    ensures { MatchOption result
        ((x p : ℕ) → IsWithin found.now x p → slot_number found.now x p ≢ slot.at)
        (λ i. IsAtSlot found.now slot.at i.0 i.1) }
{
    // The instances tell here that their positions have numbers.
    prove!(found.positions() >= 1);
    let slots = found.slots();
    for place in 0..slots.len() {
        if slots[place].at == slot.at {
            let (position, node) = divided(place, nodes as usize);
            return Some((node as u8, position as u32));
        }
    }
    None
}

/// The quotient and the rest. It subtracts, since a division takes longer where the quotient is
/// small, and otherwise as many steps were gone before.
#[inline(always)]
fn divided(number: usize, by: usize) -> (usize, usize)
    requires { 1 ≤ by }
    ensures { (result.0 ≡ number / by) × (result.1 ≡ number % by) }
{
    let (mut quotient, mut rest) = (0, number);
    while rest >= by {
        rest -= by;
        quotient += 1;
    }
    (quotient, rest)
}
