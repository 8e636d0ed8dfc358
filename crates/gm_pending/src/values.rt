//! The values of a result, as the values that were given to its deciding instances make them.
ghost use Rattle.std.specs.Prelude.{◌≡◌, ◌+◌, ◌<◌, ◌≤◌, length, map, slice_get, Some, IfSome, IsSome, IsTrue, MatchOption};
ghost use Rattle.gm_model.specs.declared.schema.Embed.{Embed};
ghost use Rattle.gm_model.specs.Maps.{IsEmbedAt};
ghost use Rattle.gm_model.specs.Values.{IsValueOf};
ghost use Rattle.gm_pending.specs.declared.deciding_instance.DecidingInstance.{DecidingInstance};
ghost use Rattle.gm_pending.specs.inner.AskedOrbits.{AreOrbitsOf};
ghost use Rattle.gm_pending.specs.inner.ReachedDarts.{AreReached};
ghost use Rattle.gm_pending.specs.inner.ValueSources.{HasSourceNode, IsKeeperFor, IsOldValue, IsSourceOf, IsUnreached, given_of};
ghost use Rattle.gm_model.specs.Rules.{is_added, is_preserved};
ghost use Rattle.gm_arena.specs.inner.ArenaMap.{IsLiveSlot};
ghost use Rattle.gm_plan.specs.inner.InArena.{slot_number};
ghost use Rattle.gm_pending.specs.inner.Results.{IsPrepared, IsAsked, AreAllGiven, IsResultDart, IsValueIn, instances_of, given_at, with_instances, name_of, place_of, rule_in};

use crate::decided_orbits::{DecidedOrbits, OrbitsByEmbed};
use crate::deciding_instance::DecidingInstance;
use crate::pending::Pending;
use gm_arena::{Slot, Steps};
use gm_model::Value;
use gm_walk::At;
use std::sync::ledger::Ledger;

impl Pending<'_, '_> {
    /// The node and the position of a deciding instance of the embedding, by its index.
    pub fn decider(&self, embed: u8, index: u32) -> (u8, u32)
        requires { index < length (instances_of self.now embed) }
        ensures { slice_get (map place_of (instances_of self.now embed)) index ≡ Some result }
    {
        let instance = self.orbits(embed).instances[index as usize];
        (instance.node, instance.position)
    }

    /// Gives a deciding instance of the embedding its value.
    pub fn give(&mut self, embed: u8, index: u32, value: Value)
        requires index { index < length (instances_of self.old embed) }
        requires value { (kept : Embed) → IsEmbedAt self.old.map.schema embed kept → IsValueOf kept.kind value }
        ensures { self.new ≡ with_instances self.old embed (given_at (instances_of self.old embed) index value) }
    {
        match &mut self.orbits[embed as usize] {
            Some(orbits) => orbits.instances.as_mut_slice()[index as usize].given = Some(value),
            None => unreachable!(),
        }
    }

    /// The value of a dart of the result, of an embedding whose deciding instances all have values.
    pub fn value<L: Ledger>(&self, at: At, embed: u8, steps: &mut Steps<L>) -> Value
        requires dart { IsResultDart self.now at }
        requires given { AreAllGiven self.now embed }
        ensures value { (kept : Embed) → IsEmbedAt self.now.map.schema embed kept → IsValueIn self.now embed kept (name_of self.now at) result }
        ensures cost { steps.new ≤ steps.old + 1 }
        ensures least { steps.old ≤ steps.new }
    {
        match self.decided_value(at, embed) {
            Some(value) => value,
            None => self.arena.value(self.source(at, embed), embed, steps),
        }
    }

    /// The value of a keeper's old dart at a position. Where there is no keeper, it may be any.
    pub fn kept_value<L: Ledger>(
        &self,
        keeper: Option<u8>,
        position: u32,
        embed: u8,
        steps: &mut Steps<L>,
    ) -> Value
        requires preserved { IfSome keeper (λ node. IsTrue (is_preserved (rule_in self.now) node)) }
        requires position { position < self.now.placed.positions }
        requires embed { embed < length self.now.map.schema.embeds }
        ensures value { IfSome keeper (λ node. IsOldValue self.now embed (slot_number self.now.placed node position) result) }
        ensures cost { steps.new ≤ steps.old + 1 }
        ensures least { steps.old ≤ steps.new }
    {
        match keeper {
            Some(node) => {
                let slot = self.kept_slot(node, position);
                self.arena.value(slot, embed, steps)
            }
            None => Value::Int(0),
        }
    }

    /// The value of the instance that decides the dart's orbit; none where no instance does.
    fn decided_value(&self, at: At, embed: u8) -> Option<Value>
        requires dart { IsResultDart self.now at }
        requires given { AreAllGiven self.now embed }
        ensures value { (kept : Embed) → IsEmbedAt self.now.map.schema embed kept → MatchOption result (IsUnreached self.now embed kept at) (IsValueIn self.now embed kept (name_of self.now at)) }
        ensures embed { embed < length self.now.map.schema.embeds }
        ensures prepared { IsPrepared self.now }
    {
        let orbits = self.orbits(embed);
        let index = orbits.marks.decided_by(self.pack(at))?;
        given(&orbits.instances, index)
    }

    /// The old dart whose value a dart has in an orbit without a deciding instance.
    fn source(&self, at: At, embed: u8) -> Slot
        requires dart { IsResultDart self.now at }
        requires embed { embed < length self.now.map.schema.embeds }
        requires keeper { (kept : Embed) → IsEmbedAt self.now.map.schema embed kept → HasSourceNode self.now kept at }
        ensures live { IsLiveSlot self.now.map result.at }
        ensures source { (kept : Embed) → IsEmbedAt self.now.map.schema embed kept → IsSourceOf self.now kept at result.at }
    {
        match at {
            At::Old(slot) => slot,
            At::New { node, position } => match self.keeper(node, embed) {
                Some(keeper) => self.kept_slot(keeper, position),
                None => unreachable!(),
            },
        }
    }

    /// The keeper of an added node: the least preserved node of its component for the embedding,
    /// if there is one.
    pub fn keeper(&self, node: u8, embed: u8) -> Option<u8>
        requires added { IsTrue (is_added (rule_in self.now) node) }
        requires embed { embed < length self.now.map.schema.embeds }
        ensures { IsKeeperFor self.now embed node result }
    {
        self.plan.keeper(embed, node)
    }

    /// The slot of a preserved node at the position.
    fn kept_slot(&self, keeper: u8, position: u32) -> Slot
        requires preserved { IsTrue (is_preserved (rule_in self.now) keeper) }
        requires position { position < self.now.placed.positions }
        ensures live { IsLiveSlot self.now.map result.at }
        ensures slot { slot_number self.now.placed keeper position ≡ result.at }
    {
        self.found.slot(keeper, position)
    }

    /// The orbits that instances decide, by embedding. What else was found is let go of.
    #[inline(always)]
    pub fn into_orbits(self) -> OrbitsByEmbed
        ensures { AreOrbitsOf self.entry result.items }
    {
        let Pending {
            plan: _,
            arena: _,
            found: _,
            alloc: _,
            lookup,
            orbits,
            matched: _,
            room,
        } = self;
        drop((lookup, room));
        orbits
    }

    /// The orbits that instances decide, of an embedding that was asked for.
    pub fn orbits(&self, embed: u8) -> &DecidedOrbits
        requires { IsAsked self.now embed }
        ensures deciders { result.now.instances.items ≡ instances_of self.now embed }
        ensures reached { (kept : Embed) → IsEmbedAt self.now.map.schema embed kept → AreReached self.now embed kept (instances_of self.now embed) result.now.marks }
        ensures embed { embed < length self.now.map.schema.embeds }
        ensures prepared { IsPrepared self.now }
    {
        match &self.orbits[embed as usize] {
            Some(orbits) => orbits,
            None => unreachable!(),
        }
    }
}

/// The value that was given to a deciding instance, if one was.
pub fn given(instances: &[DecidingInstance], index: u32) -> Option<Value>
    ensures { result ≡ given_of instances.now index }
{
    instances.get(index as usize)?.given
}
