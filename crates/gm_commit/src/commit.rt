//! The commit: the edits of an application, written one by one as they are told.
ghost use Rattle.std.specs.Prelude.{◌≡◌, ℕ, ◌+◌, ◌-◌, ◌*◌, ◌<◌, ◌≤◌, ◌++◌, [], length, drop};
ghost use Rattle.std.specs.FinMap.{get};
ghost use Rattle.std.specs.List.{Contains};
ghost use Rattle.std.specs.Vec.{vec_capacity};
ghost use Rattle.gm_model.specs.declared.step.Step.TheVariants.{Imp};
ghost use Rattle.gm_model.specs.Maps.{IsGeneralised};
ghost use Rattle.gm_arena.specs.inner.ArenaAsMap.{as_map};
ghost use Rattle.gm_arena.specs.inner.Parts.{part_of};
ghost use Rattle.gm_arena.specs.inner.Lawful.{AreGoodValues};
ghost use Rattle.gm_plan.specs.inner.Placed.{turn_at};
ghost use Rattle.gm_commit.specs.inner.Arcs.{Arc};
ghost use Rattle.gm_commit.specs.declared.rewrite.Arcs.TheVariants.{Freed, Made};
ghost use Rattle.gm_commit.specs.inner.InstanceEdits.{told_by, written_step, arc_between, arcs_to, arcs_at, arcs_in, all_arcs, removed_in, all_removed, left_slots, made_in, AreSlots};
ghost use Rattle.gm_commit.specs.inner.EditLists.{AreEditsHere, AreEditsOf, HasSameRows, IsReachedSumIn, IsResultOf, IsUntouched, cost_of};
ghost use Rattle.gm_pending.specs.inner.Results.{PendingOf, rule_in};
ghost use Rattle.gm_commit.specs.inner.WrittenMap.{IsWritable, CanRemove, IsExtended, end_at, with_arcs, without_darts};

use crate::changes::Changes;
use crate::old_darts::set_values;
use crate::rewrite::{Arcs, Rewrite};
use gm_arena::{Arena, Slot, Steps};
use gm_model::{Step, Value};
use gm_pending::{DecidedOrbits, OrbitsByEmbed};
use gm_walk::Mark;
use std::sync::ledger::Ledger;

impl Changes<'_> {
    /// Makes the arena the result. It can't be refused, and takes no memory.
    ///
    /// The darts that go leave before the new ones come, so that a full map can be rewritten: first
    /// the arcs that led to them are freed, then they are removed, then darts are added, then linked.
    /// An arc whose step is the same on both sides stays as it is. The values of old darts come last.
    ///
    /// It answers vectors that can be used again: the one that the changes were made with, and one in
    /// which darts were marked, where there is one. What is in them means nothing, and nothing is said of
    /// their room.
    pub fn commit<L: Ledger>(
        self,
        arena: &mut Arena,
        steps: &mut Steps<L>,
    ) -> (Vec<Slot>, Option<Vec<Mark>>)
        requires edits { AreEditsHere arena.old self }
        requires names { arena.old.next + self.added ≤ arena.old.reserved }
        requires room { self.added ≤ arena.old.spare + length self.removed }
        ensures unfolded { (app : PendingOf) → HasSameRows app.map arena.old → AreEditsOf app self.entry → IsResultOf app arena.new }
        ensures generalised { IsGeneralised (as_map arena.new) }
        ensures elsewhere { (d : ℕ) → d < arena.old.next → IsUntouched arena.old self.entry d → get arena.new.darts d ≡ get arena.old.darts d }
        ensures schema { arena.new.schema ≡ arena.old.schema }
        ensures count { arena.new.count ≡ arena.old.count - length self.entry.removed + self.entry.added }
        ensures spare { arena.new.spare + self.entry.added ≡ arena.old.spare + length self.entry.removed }
        ensures reserved { arena.new.reserved ≡ arena.old.reserved }
        ensures cost { steps.new ≡ steps.old + cost_of self.entry }
        ensures most { (app : PendingOf) (reached : ℕ) → AreEditsOf app self.entry → IsReachedSumIn app reached → steps.new ≤ steps.old + 4 * (app.map.schema.dim + 1) * (length (rule_in app).nodes * app.placed.positions + reached + 1) }
        ensures least { steps.old + self.entry.added + length self.entry.removed ≤ steps.new }
    {
        let Changes {
            rewrite,
            added,
            added_values,
            orbits,
            mut slots,
        } = self;
        rewrite.clear(&slots, arena, steps);
        add_darts(arena, added, &added_values, &mut slots, steps);
        rewrite.write(Arcs::Made, &slots, arena, steps);
        set_values(&orbits, arena, steps);
        (slots, room_of(orbits))
    }
}

/// The room in which the darts of an embedding were marked; none where none took any.
fn room_of(mut by_embed: OrbitsByEmbed) -> Option<Vec<Mark>> {
    while let Some(orbits) = by_embed.pop() {
        if let Some(DecidedOrbits { instances, marks }) = orbits {
            drop(instances);
            let room = marks.into_room();
            if room.capacity() > 0 {
                return Some(room);
            }
        }
    }
    None
}

impl Rewrite<'_> {
    /// Removes the darts that go, once the arcs that led to them are freed.
    fn clear<L: Ledger>(&self, slots: &[Slot], arena: &mut Arena, steps: &mut Steps<L>)
        requires slots { slots.now ≡ left_slots (told_by self.now) }
        requires freed { (arc : Arc) → Contains (all_arcs (told_by self.now) Freed) arc → IsWritable arena.old [] arc }
        requires removed { CanRemove (with_arcs (end_at arena.old []) arena.old (all_arcs (told_by self.now) Freed)) (all_removed (told_by self.now)) }
        ensures map { arena.new ≡ without_darts (with_arcs (end_at arena.old []) arena.old (all_arcs (told_by self.now) Freed)) (all_removed (told_by self.now)) }
        ensures cost { steps.new ≡ steps.old + length (all_arcs (told_by self.now) Freed) + length (all_removed (told_by self.now)) }
    {
        if !self.removes {
            return;
        }
        self.write(Arcs::Freed, slots, arena, steps);
        self.remove(arena, steps);
    }

    /// Makes each arc's end the neighbour of its other end.
    fn write<L: Ledger>(&self, arcs: Arcs, slots: &[Slot], arena: &mut Arena, steps: &mut Steps<L>)
        requires slots { AreSlots (told_by self.now) slots.now }
        requires arcs { (arc : Arc) → Contains (all_arcs (told_by self.now) arcs) arc → IsWritable arena.old (made_in (told_by self.now) slots.now) arc }
        ensures map { arena.new ≡ with_arcs (end_at arena.old (made_in (told_by self.now) slots.now)) arena.old (all_arcs (told_by self.now) arcs) }
        ensures cost { steps.new ≡ steps.old + length (all_arcs (told_by self.now) arcs) }
    {
        for node in 0..self.nodes() {
            self.write_node(arcs, node, slots, arena, steps);
        }
    }

    fn write_node<L: Ledger>(
        &self,
        arcs: Arcs,
        node: u8,
        slots: &[Slot],
        arena: &mut Arena,
        steps: &mut Steps<L>,
    )
        requires node { node < length self.now.made }
        requires slots { AreSlots (told_by self.now) slots.now }
        requires arcs { (arc : Arc) → Contains (arcs_in (told_by self.now) arcs node) arc → IsWritable arena.old (made_in (told_by self.now) slots.now) arc }
        ensures map { arena.new ≡ with_arcs (end_at arena.old (made_in (told_by self.now) slots.now)) arena.old (arcs_in (told_by self.now) arcs node) }
        ensures cost { steps.new ≡ steps.old + length (arcs_in (told_by self.now) arcs node) }
    {
        for label in 0..self.labels() {
            self.write_step(arcs, node, label, slots, arena, steps);
        }
    }

    /// Writes the arcs of one step, at each position.
    fn write_step<L: Ledger>(
        &self,
        arcs: Arcs,
        node: u8,
        label: u8,
        slots: &[Slot],
        arena: &mut Arena,
        steps: &mut Steps<L>,
    )
        requires node { node < length self.now.made }
        requires label { label ≤ self.now.dim }
        requires slots { AreSlots (told_by self.now) slots.now }
        requires arcs { (arc : Arc) → Contains (arcs_at (told_by self.now) arcs node label) arc → IsWritable arena.old (made_in (told_by self.now) slots.now) arc }
        ensures map { arena.new ≡ with_arcs (end_at arena.old (made_in (told_by self.now) slots.now)) arena.old (arcs_at (told_by self.now) arcs node label) }
        ensures cost { steps.new ≡ steps.old + length (arcs_at (told_by self.now) arcs node label) }
    {
        match (arcs, self.written_step(arcs, node, label)) {
            (_, Step::Absent) => {}
            (Arcs::Freed, _) => self.link_nodes(node, label, node, slots, arena, steps),
            (Arcs::Made, Step::Exp(other)) => {
                self.link_nodes(node, label, other, slots, arena, steps)
            }
            (Arcs::Made, Step::Imp(place)) => {
                self.link_turns(node, label, place, slots, arena, steps)
            }
        }
    }

    /// Gives each dart of the node a neighbour of the other node: that at the same position. Where
    /// both are one node, each dart becomes its own neighbour.
    fn link_nodes<L: Ledger>(
        &self,
        node: u8,
        label: u8,
        other: u8,
        slots: &[Slot],
        arena: &mut Arena,
        steps: &mut Steps<L>,
    )
        requires slots { AreSlots (told_by self.now) slots.now }
        requires arcs { (p : ℕ) → p < self.now.placed.positions → IsWritable arena.old (made_in (told_by self.now) slots.now) (arc_between (told_by self.now) node p label (other, p)) }
        ensures map { arena.new ≡ with_arcs (end_at arena.old (made_in (told_by self.now) slots.now)) arena.old (arcs_to (told_by self.now) node label (λ p. (other, p))) }
        ensures cost { steps.new ≡ steps.old + length (arcs_to (told_by self.now) node label (λ p. (other, p))) }
    {
        let from = self.slots_of(node, slots);
        let to = self.slots_of(other, slots);
        arena.set_alphas(from, label, to, steps);
    }

    /// Gives each dart of the node a neighbour of the same node: that at the position to which its
    /// own turns at the place.
    fn link_turns<L: Ledger>(
        &self,
        node: u8,
        label: u8,
        place: u8,
        slots: &[Slot],
        arena: &mut Arena,
        steps: &mut Steps<L>,
    )
        requires node { node < length self.now.made }
        requires label { label ≤ self.now.dim }
        requires step { Imp place ≡ written_step (told_by self.now) Made node label }
        requires slots { AreSlots (told_by self.now) slots.now }
        requires arcs { (p : ℕ) → p < self.now.placed.positions → IsWritable arena.old (made_in (told_by self.now) slots.now) (arc_between (told_by self.now) node p label (node, turn_at self.now.placed p place)) }
        ensures map { arena.new ≡ with_arcs (end_at arena.old (made_in (told_by self.now) slots.now)) arena.old (arcs_to (told_by self.now) node label (λ p. (node, turn_at self.now.placed p place))) }
        ensures cost { steps.new ≡ steps.old + length (arcs_to (told_by self.now) node label (λ p. (node, turn_at self.now.placed p place))) }
    {
        let own = self.slots_of(node, slots);
        for position in 0..self.positions() {
            let turned = self.found.turn(position, place);
            arena.set_alpha(own[position as usize], label, own[turned as usize], steps);
        }
    }

    /// Removes the darts that go.
    fn remove<L: Ledger>(&self, arena: &mut Arena, steps: &mut Steps<L>)
        requires { CanRemove arena.old (all_removed (told_by self.now)) }
        ensures map { arena.new ≡ without_darts arena.old (all_removed (told_by self.now)) }
        ensures cost { steps.new ≡ steps.old + length (all_removed (told_by self.now)) }
    {
        for node in 0..self.nodes() {
            self.remove_node(node, arena, steps);
        }
    }

    fn remove_node<L: Ledger>(&self, node: u8, arena: &mut Arena, steps: &mut Steps<L>)
        requires node { node < length self.now.made }
        requires can { CanRemove arena.old (removed_in (told_by self.now) node) }
        ensures map { arena.new ≡ without_darts arena.old (removed_in (told_by self.now) node) }
        ensures cost { steps.new ≡ steps.old + length (removed_in (told_by self.now) node) }
    {
        if !self.is_removed(node) {
            return;
        }
        for position in 0..self.positions() {
            arena.remove(self.left_slot(node, position), steps);
        }
    }
}

/// Adds `added` darts with their values, and puts their slots into the room after the others.
fn add_darts<L: Ledger>(
    arena: &mut Arena,
    added: usize,
    values: &[Value],
    slots: &mut Vec<Slot>,
    steps: &mut Steps<L>,
)
    requires long { length values.now ≡ added * length arena.old.schema.embeds }
    requires values { (number : ℕ) → number < added → AreGoodValues arena.old.schema (part_of (length arena.old.schema.embeds) values.now number) }
    requires names { arena.old.next + added ≤ arena.old.reserved }
    requires room { added ≤ arena.old.spare }
    requires capacity { length slots.old.items + added ≤ vec_capacity slots.old }
    ensures slots { slots.new.items ≡ slots.old.items ++ drop (length slots.old.items) slots.new.items }
    ensures map { IsExtended arena.old values.now (drop (length slots.old.items) slots.new.items) arena.new }
    ensures made { length (drop (length slots.old.items) slots.new.items) ≡ added }
    ensures cost { steps.new ≡ steps.old + added }
{
    let width = arena.schema().embeds.as_slice().len();
    for number in 0..added {
        let own = &values[number * width..number * width + width];
        slots.push_reserved(arena.add(arena.next(), own, steps));
    }
}
