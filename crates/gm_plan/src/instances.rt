//! Where the left nodes of a rule lie in an arena, by position.

ghost use Rattle.std.specs.Prelude.{◌≡◌, ℕ, ◌*◌, ◌<◌, ◌≤◌, IfOk, Some, length};
ghost use Rattle.std.specs.List.{All};
ghost use Rattle.gm_plan.specs.inner.Placed.{slot_at, turn_at, HasRowsOf};

use gm_arena::Slot;
use gm_model::OutOfMemory;
use std::alloc::Global;
use std::marker::Model;

/// Where the left nodes of a rule lie in an arena, at each position of an application, and to which
/// position each position turns. Nodes, positions and places are counted from 0.
#[derive(Drop)]
pub struct Instances {
    slots: Vec<Slot>,
    turns: Vec<u32>,
    positions: u32,
    /// The number of slots per position.
    nodes: usize,
    places: u8,
}

impl Model for Instances {
    ghost use Rattle.gm_plan.specs.inner.Placed.{Placed, IsPlaced, placed_of};

    ghost Value = { Placed };

    ghost view = { λ a. placed_of a.slots.items a.turns.items a.positions a.nodes a.places };

    ghost invariant = { λ a. IsPlaced (placed_of a.slots.items a.turns.items a.positions a.nodes a.places) };
}

impl Instances {
    /// The slots of position 0 by node, then those of position 1, and so on; and likewise the
    /// positions to which each position turns, by place. `places` is the number of places.
    pub fn new(slots: Vec<Slot>, turns: Vec<u32>, positions: u32, places: u8) -> Instances
        requires some_position { 1 ≤ positions }
        requires slots { HasRowsOf positions (length slots.items) }
        requires turns { positions * places ≡ length turns.items }
        requires turns_within { All (λ q. q < positions) turns.items }
        ensures slots { result.slots ≡ slots.items }
        ensures turns { result.turns ≡ turns.items }
        ensures positions { result.positions ≡ positions }
        ensures places { result.places ≡ places }
        ensures nodes { positions * result.nodes ≡ length slots.items }
    {
        let nodes = slots.len() / positions as usize;
        Instances::with_nodes(slots, turns, positions, nodes, places)
    }

    /// The same where it is known how many nodes there are.
    // A processor takes as long to divide as to match a short rule's node.
    pub fn with_nodes(
        slots: Vec<Slot>,
        turns: Vec<u32>,
        positions: u32,
        nodes: usize,
        places: u8,
    ) -> Instances
        requires some_position { 1 ≤ positions }
        requires slots { positions * nodes ≡ length slots.items }
        requires turns { positions * places ≡ length turns.items }
        requires turns_within { All (λ q. q < positions) turns.items }
        ensures slots { result.slots ≡ slots.items }
        ensures turns { result.turns ≡ turns.items }
        ensures positions { result.positions ≡ positions }
        ensures places { result.places ≡ places }
        ensures nodes { result.nodes ≡ nodes }
    {
        Instances {
            slots,
            turns,
            positions,
            nodes,
            places,
        }
    }

    /// The number of positions.
    pub fn positions(&self) -> u32
        ensures value { result ≡ self.now.positions }
        ensures some { 1 ≤ self.now.positions }
        ensures slots { self.now.positions * self.now.nodes ≡ length self.now.slots }
        ensures turns { self.now.positions * self.now.places ≡ length self.now.turns }
    {
        self.positions
    }

    /// The slots of position 0 by node, then those of position 1, and so on.
    pub fn slots(&self) -> &[Slot]
        ensures slots { result.now ≡ self.now.slots }
        ensures long { self.now.positions * self.now.nodes ≡ length self.now.slots }
    {
        &self.slots
    }

    /// The slot of the node at the position.
    pub fn slot(&self, node: u8, position: u32) -> Slot
        requires node { node < self.now.nodes }
        requires position { position < self.now.positions }
        ensures { slot_at self.now node position ≡ Some result }
    {
        self.slots[position as usize * self.nodes + node as usize]
    }

    /// The position to which the position turns at the place.
    pub fn turn(&self, position: u32, place: u8) -> u32
        requires position { position < self.now.positions }
        requires place { place < self.now.places }
        ensures value { result ≡ turn_at self.now position place }
        ensures within { result < self.now.positions }
    {
        self.turns[position as usize * self.places as usize + place as usize]
    }

    /// The same instances once more.
    pub fn copy(&self, alloc: Global) -> Result<Instances, OutOfMemory>
        ensures { IfOk result (λ copy. copy ≡ self.now) }
    {
        Ok(Instances {
            slots: Vec::from_slice(alloc, &self.slots)?,
            turns: Vec::from_slice(alloc, &self.turns)?,
            positions: self.positions,
            nodes: self.nodes,
            places: self.places,
        })
    }

    /// The vectors that the instances were made of.
    pub fn into_rows(self) -> (Vec<Slot>, Vec<u32>)
        ensures slots { result.0.items ≡ self.slots }
        ensures turns { result.1.items ≡ self.turns }
    {
        let Instances {
            slots,
            turns,
            positions: _,
            nodes: _,
            places: _,
        } = self;
        (slots, turns)
    }
}
