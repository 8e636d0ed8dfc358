//! What a rule changes at its instances, told edit by edit without a list.

ghost use Rattle.std.specs.Prelude.{◌≡◌, ℕ, ◌+◌, ◌*◌, ◌<◌, ◌≤◌, ◌++◌, length, slice_index_or, OnOk, IsTrue};
ghost use Rattle.std.specs.Vec.{vec_capacity};
ghost use Rattle.gm_model.specs.declared.step.Step.{Step};
ghost use Rattle.gm_plan.specs.inner.Changes.{has_bit};
ghost use Rattle.gm_commit.specs.inner.InstanceEdits.{told_by, end_of, written_step, slot_in, left_slots_of, left_slots, made_in, AreSlots};
ghost use Rattle.gm_commit.specs.inner.WrittenMap.{HasSlot, slot_of};

use gm_arena::Slot;
use gm_model::{MOST_LABELS, OutOfMemory, Step};
use gm_plan::Instances;
use std::marker::Model;

/// Which arcs of an application are meant.
#[derive(Clone, Copy)]
pub(crate) enum Arcs {
    /// Those that led to darts that are removed: each is to lead back to its own dart.
    Freed,
    /// Those of right steps. Where the left step is the same, the arc is there already.
    Made,
}

/// What a rule changes, at its instances. It tells the edits of the application one by one, so that
/// no list of them is kept.
#[derive(Drop)]
pub(crate) struct Rewrite<'a> {
    pub(crate) dim: u8,
    /// Whether some node is removed.
    pub(crate) removes: bool,
    /// Which nodes are removed: bit `x` stands for node `x`. A number is moved with the changes at less
    /// cost than an entry for each node.
    pub(crate) goes: u32,
    /// The steps that are freed, by node and by label.
    pub(crate) freed: &'a [[Step; MOST_LABELS]],
    /// The steps that are made, by node and by label.
    pub(crate) made: &'a [[Step; MOST_LABELS]],
    pub(crate) found: &'a Instances,
}

impl<'a> Model for Rewrite<'a> {
    ghost use Rattle.gm_commit.specs.inner.InstanceEdits.{RewriteRows, IsFitted, rows_at};

    ghost Value = { RewriteRows };

    ghost view = { λ a. rows_at a.dim a.removes a.goes a.freed.now a.made.now a.found.now };

    ghost invariant = { λ a. IsFitted (rows_at a.dim a.removes a.goes a.freed.now a.made.now a.found.now) };
}

impl Rewrite<'_> {
    /// The number of labels.
    pub(crate) fn labels(&self) -> u8
        ensures { result ≡ self.now.dim + 1 }
    {
        self.dim + 1
    }

    pub(crate) fn nodes(&self) -> u8
        ensures { result ≡ length self.now.made }
    {
        self.made.len() as u8
    }

    pub(crate) fn positions(&self) -> u32
        ensures { result ≡ self.now.placed.positions }
    {
        self.found.positions()
    }

    /// The step of the node at the label whose arcs are to be written.
    pub(crate) fn written_step(&self, arcs: Arcs, node: u8, label: u8) -> Step
        requires node { node < length self.now.made }
        requires label { label ≤ self.now.dim }
        ensures { result ≡ written_step (told_by self.now) arcs node label }
    {
        match arcs {
            // A left step, where it leads to darts that are removed.
            Arcs::Freed => self.freed[node as usize][label as usize],
            // A right step, unless it is the same on the left.
            Arcs::Made => self.made[node as usize][label as usize],
        }
    }

    /// The slot of a left node.
    pub(crate) fn left_slot(&self, node: u8, position: u32) -> Slot
        requires left { node < self.now.placed.nodes }
        requires position { position < self.now.placed.positions }
        ensures { result ≡ slot_in self.now.placed node position }
    {
        self.found.slot(node, position)
    }

    /// Puts the slots of all `left` left nodes in the place of what is in the vector, and
    /// makes room for those of the added ones after them.
    pub(crate) fn left_slots(
        &self,
        left: u8,
        added: u8,
        slots: &mut Vec<Slot>,
    ) -> Result<(), OutOfMemory>
        requires { left ≡ self.now.placed.nodes }
        ensures slots { OnOk result (slots.new.items ≡ left_slots (told_by self.now)) }
        ensures room { OnOk result (length slots.new.items + added * self.now.placed.positions ≤ vec_capacity slots.new) }
    {
        let nodes = left as usize + added as usize;
        slots.clear();
        slots.reserve(nodes * self.positions() as usize)?;
        for node in 0..left {
            self.put_left_slots(node, slots);
        }
        Ok(())
    }

    /// Puts the slots of a left node after the others, where there is room for them.
    fn put_left_slots(&self, node: u8, slots: &mut Vec<Slot>)
        requires left { node < self.now.placed.nodes }
        requires room { length slots.old.items + self.now.placed.positions ≤ vec_capacity slots.old }
        ensures slots { slots.new.items ≡ slots.old.items ++ left_slots_of (told_by self.now) node }
        ensures capacity { vec_capacity slots.new ≡ vec_capacity slots.old }
    {
        for position in 0..self.positions() {
            slots.push_reserved(self.left_slot(node, position));
        }
    }

    /// The slots of a node by position, from the table of all slots.
    pub(crate) fn slots_of<'s>(&self, node: u8, slots: &'s [Slot]) -> &'s [Slot]
        requires slots { AreSlots (told_by self.now) slots.now }
        requires made { (p : ℕ) → p < self.now.placed.positions → HasSlot (made_in (told_by self.now) slots.now) (end_of (told_by self.now) node p) }
        ensures some { 1 ≤ self.now.placed.positions }
        ensures long { length result.now ≡ self.now.placed.positions }
        ensures slots { (p : ℕ) → p < self.now.placed.positions → slice_index_or result.now p (record { at = 0 }) ≡ slot_of (made_in (told_by self.now) slots.now) (end_of (told_by self.now) node p) }
    {
        let positions = self.found.positions() as usize;
        let start = node as usize * positions;
        &slots[start..start + positions]
    }

    pub(crate) fn is_removed(&self, node: u8) -> bool
        requires { node < length self.now.made }
        ensures removed { result ≡ has_bit self.now.goes node }
        ensures left { IsTrue result → node < self.now.placed.nodes }
    {
        (self.goes >> node) & 1 == 1
    }
}
