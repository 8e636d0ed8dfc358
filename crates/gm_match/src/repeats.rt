//! That no two instances of a candidate have one dart, or which two do.

ghost use Rattle.std.specs.Prelude.{◌≡◌, ◌≢◌, ℕ, ◌+◌, ◌<◌, length, slice_get, IsTrue, MatchResult};
ghost use Rattle.std.specs.List.{All};
ghost use Rattle.gm_arena.specs.declared.slot.Slot.{Slot};
ghost use Rattle.gm_match.specs.inner.Taken.{AreApart, AreSlotsOf, IsTaken, TakeEachOnce, TakesEachOnce, IsFirstTwice};

use crate::fault::MatchFault;
use gm_arena::Slot;
use gm_plan::Instances;
use gm_walk::Scratch;

/// At most this many slots are compared with one another, since that is faster than to mark them.
const FEW: usize = 8;

/// Tests that no two instances have one slot. Where it is said so, those of the first hook are walked,
/// and none of them comes twice.
pub(crate) fn take_once(
    found: &Instances,
    nodes: u8,
    first_hook: u8,
    is_walked: bool,
    scratch: &mut Scratch,
) -> Result<(), MatchFault>
    requires nodes { nodes ≡ found.now.nodes }
    requires room { All (λ (s : Slot). s.at < scratch.old.bound) found.now.slots }
    requires walked { IsTrue is_walked → AreSlotsOf found.now first_hook scratch.old.walked }
    requires distinct { TakesEachOnce found.now first_hook }
    ensures once { MatchResult result (λ _. TakeEachOnce found.now) (IsFirstTwice found.now) }
    ensures room { scratch.new.bound ≡ scratch.old.bound }
{
    if are_known_apart(found, nodes, first_hook, is_walked, scratch) {
        return Ok(());
    }
    // Only where a slot comes twice it matters in which order they are taken.
    scratch.clear();
    for node in 0..nodes {
        take_node(found, node, scratch)?;
    }
    Ok(())
}

/// Whether it is seen without an order that no two instances have one slot.
fn are_known_apart(
    found: &Instances,
    nodes: u8,
    first_hook: u8,
    is_walked: bool,
    scratch: &mut Scratch,
) -> bool
    requires nodes { nodes ≡ found.now.nodes }
    requires room { All (λ (s : Slot). s.at < scratch.old.bound) found.now.slots }
    requires walked { IsTrue is_walked → AreSlotsOf found.now first_hook scratch.old.walked }
    requires distinct { TakesEachOnce found.now first_hook }
    ensures apart { IsTrue result → TakeEachOnce found.now }
    ensures room { scratch.new.bound ≡ scratch.old.bound }
{
    if is_walked {
        return take_others(found, nodes, first_hook, scratch);
    }
    are_apart(found)
}

/// Whether few slots are known to be different: each is compared with those before it, which touches
/// nothing else. Of more than few it isn't known.
fn are_apart(found: &Instances) -> bool
    ensures { IsTrue result → TakeEachOnce found.now }
{
    let slots = found.slots();
    if slots.len() > FEW {
        return false;
    }
    for place in 1..slots.len() {
        if !is_new(slots, place) {
            return false;
        }
    }
    true
}

/// Whether none of the slots before the place is the one there.
fn is_new(slots: &[Slot], place: usize) -> bool
    requires { place < length slots.now }
    ensures { IsTrue result → (earlier : ℕ) → earlier < place → slice_get slots.now earlier ≢ slice_get slots.now place }
{
    for earlier in 0..place {
        if slots[earlier] == slots[place] {
            return false;
        }
    }
    true
}

/// Takes the slots of all nodes but the first hook, whose own are walked, and tells whether each was
/// new: then no two instances have one slot. It ends at the first that was not.
fn take_others(found: &Instances, nodes: u8, first_hook: u8, scratch: &mut Scratch) -> bool
    requires nodes { nodes ≡ found.now.nodes }
    requires room { All (λ (s : Slot). s.at < scratch.old.bound) found.now.slots }
    requires walked { AreSlotsOf found.now first_hook scratch.old.walked }
    requires distinct { TakesEachOnce found.now first_hook }
    ensures apart { IsTrue result → TakeEachOnce found.now }
    ensures room { scratch.new.bound ≡ scratch.old.bound }
{
    for node in 0..nodes {
        if node == first_hook {
            continue;
        }
        if !take_apart(found, node, scratch) {
            return false;
        }
    }
    true
}

/// Takes the slots of the node, and tells whether each was new.
fn take_apart(found: &Instances, node: u8, scratch: &mut Scratch) -> bool
    requires node { node < found.now.nodes }
    requires room { All (λ (s : Slot). s.at < scratch.old.bound) found.now.slots }
    ensures apart { IsTrue result → (hook : ℕ) → AreApart found.now hook node 0 scratch.old.walked → AreApart found.now hook (node + 1) 0 scratch.new.walked }
    ensures room { scratch.new.bound ≡ scratch.old.bound }
{
    for position in 0..found.positions() {
        if !scratch.take_new(found.slot(node, position)) {
            return false;
        }
    }
    true
}

/// Takes the slots of the node, by position, where those of the nodes before it are taken.
fn take_node(found: &Instances, node: u8, scratch: &mut Scratch) -> Result<(), MatchFault>
    requires node { node < found.now.nodes }
    requires room { All (λ (s : Slot). s.at < scratch.old.bound) found.now.slots }
    requires taken { IsTaken found.now node 0 scratch.old.walked }
    ensures taken { MatchResult result (λ _. IsTaken found.now (node + 1) 0 scratch.new.walked) (IsFirstTwice found.now) }
    ensures room { scratch.new.bound ≡ scratch.old.bound }
{
    let positions = found.positions();
    for position in 0..positions {
        let slot = found.slot(node, position);
        if !scratch.take_new(slot) {
            let place = scratch.place(slot).unwrap();
            return Err(MatchFault::Same {
                node: (place / positions) as u8,
                position: place % positions,
                node2: node,
                position2: position,
            });
        }
    }
    Ok(())
}
