//! An application that isn't written yet: the neighbours of the darts of its result.

ghost use Rattle.std.specs.Prelude.{◌≡◌, ◌≢◌, ℕ, ◌+◌, ◌<◌, ◌≤◌, List, [], length, false, Some, None, MatchOption, ◌↔◌, IfOk, IsTrue};

use crate::decided_orbits::{OrbitsByEmbed, no_orbits};
use crate::marks::is_set;
use gm_arena::{Arena, Slot, Steps};
use gm_model::{MOST_DARTS, Mask, OutOfMemory, Side, Step};
use gm_plan::{Instances, Lookup, Plan, instance_at};
use gm_walk::{At, Mark, PackedAt};
use std::alloc::Global;
use std::marker::Model;
use std::mem;
use std::sync::ledger::Ledger;

/// An application that nothing is written of yet. It answers for the result.
#[derive(Drop)]
pub struct Pending<'a, 'm> {
    pub(crate) plan: &'a Plan<'a>,
    pub(crate) arena: &'m Arena,
    pub(crate) found: &'a Instances,
    pub(crate) alloc: Global,
    /// The instances by their slots, where they are looked up more than once.
    pub(crate) lookup: Option<Lookup>,
    pub(crate) orbits: OrbitsByEmbed,
    /// The bits that stand for the slots of instances, or all bits. An old dart whose bit isn't set lies
    /// at none, and isn't looked up.
    pub(crate) matched: u64,
    /// An empty vector, in whose room the darts are marked that the next embedding's instances reach.
    pub(crate) room: Vec<Mark>,
}

impl<'a, 'm> Model for Pending<'a, 'm> {
    ghost use Rattle.std.specs.Coded.{codes};
    ghost use Rattle.std.specs.Prelude.{◌≡◌, []};
    ghost use Rattle.gm_model.specs.contracts.expr.Expr as expr_block;
    ghost use Rattle.gm_arena.specs.inner.ArenaMap.{arena_code};
    ghost use Rattle.gm_pending.specs.contracts.deciding_instance.DecidingInstance as instance_block;
    ghost use Rattle.gm_pending.specs.inner.Results.{PendingOf, IsPrepared};
    ghost use Rattle.gm_pending.specs.inner.AskedOrbits.{pending_as, AreDecidedOrbits, AreMatchedSeen, IsLookedUp};

    ghost Value = { PendingOf };

    ghost coded = { Prim.hlevel (arena_code, expr_block.the_row.coded, instance_block.the_row.coded, codes) };

    ghost view = { λ a. pending_as a.arena.now a.plan.now.table a.found.now a.orbits.items };

    ghost invariant = { λ a. IsPrepared (pending_as a.arena.now a.plan.now.table a.found.now a.orbits.items) × (a.arena.now.schema ≡ a.plan.now.schema) × AreDecidedOrbits (pending_as a.arena.now a.plan.now.table a.found.now a.orbits.items) a.orbits.items × IsLookedUp a.found.now a.lookup × AreMatchedSeen a.found.now a.matched × (a.room.items ≡ []) };
}

impl<'a, 'm> Pending<'a, 'm> {
    ghost use Rattle.gm_model.specs.Components.{IsAssigned};
    ghost use Rattle.gm_model.specs.Maps.{IsSound};
    ghost use Rattle.gm_model.specs.Rules.{rule_of};
    ghost use Rattle.gm_model.specs.Unfolding.{IsArcAfter, IsMadeArc};
    ghost use Rattle.gm_arena.specs.inner.ArenaAsMap.{as_map};
    ghost use Rattle.gm_plan.specs.inner.Changes.{AreMadeLabels, MakesNone};
    ghost use Rattle.gm_plan.specs.inner.InArena.{AreMatched, slot_number};
    ghost use Rattle.gm_plan.specs.inner.Lookup.{IsWithin, IsAtSlot};
    ghost use Rattle.gm_pending.specs.inner.Results.{IsPrepared, pending_of, scene_in, rule_in, name_of, IsResultDart, IsRightInstance};

    /// Takes the match of a rule in a sound map. It counts no step.
    pub fn build<L: Ledger>(
        alloc: Global,
        plan: &'a Plan<'a>,
        arena: &'m Arena,
        found: &'a Instances,
        steps: &mut Steps<L>,
    ) -> Result<Pending<'a, 'm>, OutOfMemory>
        requires schema { arena.now.schema ≡ plan.now.schema }
        requires sound { IsSound (as_map arena.now) }
        requires matched { (hooks : List ℕ) × AreMatched arena.now (rule_of plan.now.table) hooks found.now }
        ensures pending { IfOk result (λ pending. pending ≡ pending_of arena.now plan.now.table found.now) }
        ensures no_step { steps.new ≡ steps.old }
    {
        Pending::build_in(alloc, plan, arena, found, Vec::new(alloc), steps)
    }

    /// The same, where marks are made in the room of an empty vector, as a scratch lends it.
    pub fn build_in<L: Ledger>(
        alloc: Global,
        plan: &'a Plan<'a>,
        arena: &'m Arena,
        found: &'a Instances,
        room: Vec<Mark>,
        steps: &mut Steps<L>,
    ) -> Result<Pending<'a, 'm>, OutOfMemory>
        requires room { room.items ≡ [] }
        requires schema { arena.now.schema ≡ plan.now.schema }
        requires sound { IsSound (as_map arena.now) }
        requires matched { (hooks : List ℕ) × AreMatched arena.now (rule_of plan.now.table) hooks found.now }
        ensures pending { IfOk result (λ pending. pending ≡ pending_of arena.now plan.now.table found.now) }
        ensures no_step { steps.new ≡ steps.old }
    {
        // The arena and the plan tell here what their types keep.
        prove!(arena.count() <= MOST_DARTS);
        prove_eq!(plan.schema().dim, arena.schema().dim);
        let orbits = no_orbits(alloc, arena.schema().embeds.as_slice().len())?;
        Ok(Pending {
            plan,
            arena,
            found,
            alloc,
            lookup: None,
            orbits,
            matched: u64::MAX,
            room,
        })
    }

    /// The neighbour of a dart of the result along a label.
    pub fn alpha<L: Ledger>(&self, at: At, label: u8, steps: &mut Steps<L>) -> At
        requires dart { IsResultDart self.now at }
        requires label { label ≤ self.now.map.schema.dim }
        ensures arc { IsArcAfter (scene_in self.now) (name_of self.now at) label (name_of self.now result) }
        ensures dart { IsResultDart self.now result }
        ensures cost { steps.new ≤ steps.old + 1 }
        ensures least { steps.old ≤ steps.new }
    {
        // The application tells here what its type keeps.
        prove!(self.labels() <= 8);
        let from = self.pack(at);
        self.neighbour(from, label, self.made_labels().has(label), steps)
            .unpack()
    }

    /// The neighbour along a label, where `made` tells whether the rule makes arcs at the label that
    /// the old map doesn't have.
    #[inline(always)]
    pub(crate) fn neighbour<L: Ledger>(
        &self,
        at: PackedAt,
        label: u8,
        made: bool,
        steps: &mut Steps<L>,
    ) -> PackedAt
        requires dart { IsResultDart self.now at }
        requires label { label ≤ self.now.map.schema.dim }
        requires kept { made ≡ false → MakesNone (rule_in self.now) label }
        ensures arc { IsArcAfter (scene_in self.now) (name_of self.now at) label (name_of self.now result) }
        ensures dart { IsResultDart self.now result }
        ensures cost { steps.new ≤ steps.old + 1 }
        ensures least { steps.old ≤ steps.new }
    {
        // Where it makes none, an old dart isn't looked up.
        if !made && at.is_old() {
            return PackedAt::old(self.arena.alpha(at.slot(), label, steps));
        }
        if let Some(to) = self.made(at, label) {
            return to;
        }
        // At each new dart an arc is made: this one is old, and its arc is kept.
        PackedAt::old(self.arena.alpha(at.slot(), label, steps))
    }

    /// A dart of the result in one number.
    #[inline(always)]
    pub(crate) fn pack(&self, at: At) -> PackedAt
        requires { IsResultDart self.now at }
        ensures { result ≡ at }
    {
        // The application tells here what its type keeps.
        prove!(self.labels() <= 8);
        match at {
            At::Old(slot) => PackedAt::old(slot),
            At::New { node, position } => PackedAt::new(node, position),
        }
    }

    /// The room for marks, which then is none.
    pub(crate) fn take_room(&mut self) -> Vec<Mark>
        ensures empty { result.items ≡ [] }
        ensures stays { self.new ≡ self.old }
    {
        mem::replace(&mut self.room, Vec::new(self.alloc))
    }

    /// The labels at which the rule makes arcs that the old map doesn't have.
    pub(crate) fn made_labels(&self) -> Mask
        ensures { AreMadeLabels (rule_in self.now) result }
    {
        self.plan.made_labels()
    }

    /// Where the right step at the label leads from a dart of the result; none where it has no
    /// such step.
    #[inline(always)]
    fn made(&self, at: PackedAt, label: u8) -> Option<PackedAt>
        requires dart { IsResultDart self.now at }
        requires label { label ≤ self.now.map.schema.dim }
        ensures { MatchOption result
            ((e : ℕ) → IsMadeArc (scene_in self.now) (name_of self.now at) label e → ⊥)
            (λ to. IsMadeArc (scene_in self.now) (name_of self.now at) label (name_of self.now to) × IsResultDart self.now to) }
    {
        let (node, position) = self.instance(at)?;
        match self.plan.step(Side::Right, node, label) {
            Step::Absent => None,
            Step::Exp(other) => Some(self.place(other, position)),
            Step::Imp(place) => Some(self.place(node, self.found.turn(position, place))),
        }
    }

    /// The right node and the position of a dart of the result; none where no node lies there.
    #[inline(always)]
    fn instance(&self, at: PackedAt) -> Option<(u8, u32)>
        requires { IsResultDart self.now at }
        ensures { MatchOption result
            ((x p : ℕ) → IsRightInstance self.now x p → name_of self.now at ≢ (scene_in self.now).name_of x p)
            (λ i. IsRightInstance self.now i.0 i.1 × (name_of self.now at ≡ (scene_in self.now).name_of i.0 i.1)) }
    {
        match at.unpack() {
            At::Old(slot) => self.left_instance(slot),
            At::New { node, position } => Some((node, position)),
        }
    }

    /// The left node and the position that lie at the slot; none where no instance does.
    #[inline(always)]
    fn left_instance(&self, slot: Slot) -> Option<(u8, u32)>
        ensures prepared { IsPrepared self.now }
        ensures instance { MatchOption result
            ((x p : ℕ) → IsWithin self.now.placed x p → slot_number self.now.placed x p ≢ slot.at)
            (λ i. IsAtSlot self.now.placed slot.at i.0 i.1) }
    {
        if !is_set(self.matched, u64::from(slot.at) * 2) {
            return None;
        }
        match &self.lookup {
            Some(lookup) => lookup.find(self.found, slot),
            None => instance_at(self.found, self.plan.left_nodes(), slot),
        }
    }

    /// The plan of its rule, for the schema of its map.
    #[inline]
    pub fn plan(&self) -> &'a Plan<'a>
        ensures rule { result.now.table ≡ self.now.table }
        ensures schema { result.now.schema ≡ self.now.map.schema }
        ensures prepared { IsPrepared self.now }
    {
        self.plan
    }

    /// The instances of its rule.
    #[inline]
    pub fn found(&self) -> &'a Instances
        ensures { result.now ≡ self.now.placed }
    {
        self.found
    }

    /// The number of labels.
    pub(crate) fn labels(&self) -> u8
        ensures labels { result ≡ self.now.map.schema.dim + 1 }
        ensures most { result ≤ 8 }
        ensures prepared { IsPrepared self.now }
    {
        self.arena.schema().dim.top() + 1
    }

    /// The number of positions.
    pub fn positions(&self) -> u32
        ensures positions { result ≡ self.now.placed.positions }
        ensures some { 1 ≤ self.now.placed.positions }
        ensures prepared { IsPrepared self.now }
    {
        self.found.positions()
    }

    /// The number of nodes.
    pub fn nodes(&self) -> u8
        ensures nodes { result ≡ length (rule_in self.now).nodes }
        ensures prepared { IsPrepared self.now }
    {
        self.plan.rule().node_count()
    }

    /// The number of left nodes. The nodes from there on are added.
    pub fn left_nodes(&self) -> u8
        ensures left { result ≡ self.now.placed.nodes }
        ensures most { result ≤ length (rule_in self.now).nodes }
    {
        self.plan.left_nodes()
    }

    /// Whether the node has an assignment to the embedding.
    pub(crate) fn assigns(&self, embed: u8, node: u8) -> bool
        requires embed { embed < length self.now.map.schema.embeds }
        requires node { node < length (rule_in self.now).nodes }
        ensures { IsTrue result ↔ IsAssigned (rule_in self.now) embed node }
    {
        self.plan.assigns(embed, node)
    }

    /// The dart of a right node at a position.
    pub(crate) fn place(&self, node: u8, position: u32) -> PackedAt
        requires { IsRightInstance self.now node position }
        ensures name { name_of self.now result ≡ (scene_in self.now).name_of node position }
        ensures dart { IsResultDart self.now result }
    {
        if node < self.plan.left_nodes() {
            PackedAt::old(self.found.slot(node, position))
        } else {
            PackedAt::new(node, position)
        }
    }
}
