//! Which instances decide the values of a result, and which of its darts they reach.
ghost use Rattle.std.specs.Prelude.{◌≡◌, ℕ, ◌+◌, ◌*◌, ◌<◌, ◌≤◌, ◌⊎◌, List, [], ◌∷◌, ◌++◌, length, false, Some, None, IfOk, IfSome, MatchOption, IsTrue, OnOk, OnErr};
ghost use Rattle.std.specs.List.{Contains};
ghost use Rattle.gm_model.specs.declared.schema.Embed.{Embed};
ghost use Rattle.gm_model.specs.declared.rule.Side.TheVariants.{Right};
ghost use Rattle.gm_model.specs.Components.{IsAssigned};
ghost use Rattle.gm_model.specs.Labels.{has};
ghost use Rattle.gm_model.specs.Maps.{IsEmbedAt};
ghost use Rattle.gm_model.specs.Rules.{has_word};
ghost use Rattle.gm_plan.specs.inner.Changes.{MakesNone};
ghost use Rattle.gm_theory.specs.inner.Theorem.{Unfolded};
ghost use Rattle.gm_pending.specs.declared.deciding_instance.DecidingInstance.{DecidingInstance};
ghost use Rattle.gm_walk.specs.declared.mark.Mark.{Mark};
ghost use Rattle.gm_pending.specs.inner.Marks.{HasKey};
ghost use Rattle.gm_walk.specs.inner.Keys.{key_of};
ghost use Rattle.gm_pending.specs.inner.LabelPairs.{IsPair};
ghost use Rattle.gm_pending.specs.inner.ReachedDarts.{AreReached, AreResultDarts, AreSomeReached, IsClosed, IsGrown, IsSpreadTo, IsFollowedTo, IsFollowed, IsFollowedAlong, IsFollowedBut, IsGrownAlong, IsDecidedUpTo, IsAlwaysOneOrbit, IsUnmarked, AreMarkedTo, IsFollowedOut, IsGoneOn, LeadsBackOnly, ungiven};
ghost use Rattle.gm_pending.specs.inner.Results.{IsPrepared, AreDecidingInstances, IsAsked, IsResultDart, IsUnfoldedIn, IsWithinReach, instances_of, with_instances, name_of, rule_in};
ghost use Rattle.gm_model.specs.declared.limit.TheConstants.{MOST_LABELS};

use crate::decided_orbits::{DecidedOrbits, DecidingInstances};
use crate::deciding_instance::DecidingInstance;
use crate::marks::{Marks, bits_of};
use crate::pending::Pending;
use gm_arena::Steps;
use gm_model::{Embed, Mask, OutOfMemory};
use gm_plan::Lookup;
use gm_walk::{Mark, PackedAt};
use std::sync::ledger::Ledger;

/// At most this many instances are looked through one after another, since that is faster than any
/// look-up.
const FEW: u64 = 16;

impl Pending<'_, '_> {
    /// Finds the deciding instances of an embedding, which wasn't asked for before, and answers how
    /// many they are. Where memory ran out, it counts as not asked for.
    pub fn deciding<L: Ledger>(
        &mut self,
        embed: u8,
        steps: &mut Steps<L>,
    ) -> Result<u32, OutOfMemory>
        requires embed { embed < length self.old.map.schema.embeds }
        requires unasked { IsAsked self.old embed → ⊥ }
        ensures asked { OnOk result (self.new ≡ with_instances self.old embed (instances_of self.new embed)) }
        ensures deciders { OnOk result ((kept : Embed) → IsEmbedAt self.old.map.schema embed kept → AreDecidingInstances self.old embed kept (instances_of self.new embed)) }
        ensures ungiven { OnOk result ((instance : DecidingInstance) → Contains (instances_of self.new embed) instance → instance.given ≡ None) }
        ensures count { IfOk result (λ count. count ≡ length (instances_of self.new embed)) }
        ensures err { OnErr result (self.new ≡ self.old) }
        ensures cost { (kept : Embed) → IsEmbedAt self.old.map.schema embed kept → IsWithinReach self.old embed kept steps.old steps.new }
        ensures least { steps.old ≤ steps.new }
    {
        let room = self.take_room();
        self.look_up(embed)?;
        let orbits = self.decide(embed, room, steps)?;
        let count = orbits.instances.len() as u32;
        self.orbits[embed as usize] = Some(orbits);
        Ok(count)
    }

    /// Prepares the look-up of slots, where orbits have to be walked over arcs that are made: the bits
    /// that stand for a few instances, and a table of more.
    fn look_up(&mut self, embed: u8) -> Result<(), OutOfMemory>
        requires { embed < length self.old.map.schema.embeds }
        ensures { self.new ≡ self.old }
    {
        if !self.walks_made_arcs(embed) {
            return Ok(());
        }
        let nodes = self.plan.left_nodes();
        if u64::from(nodes) * u64::from(self.found.positions()) <= FEW {
            self.matched = bits_of(self.found.slots());
        } else if self.lookup.is_none() {
            self.lookup = Some(Lookup::build(self.alloc, self.found, nodes)?);
        }
        Ok(())
    }

    /// Whether orbits of the embedding have to be walked over arcs that are made.
    fn walks_made_arcs(&self, embed: u8) -> bool
        requires { embed < length self.now.map.schema.embeds }
    {
        let mask = self.arena.schema().embeds.as_slice()[embed as usize].mask;
        if self.made_labels().bits & mask.bits == 0 {
            return false;
        }
        // Some node has an assignment to it, and its instances needn't be one orbit.
        for node in 0..self.nodes() {
            if self.assigns(embed, node) && !self.plan.is_exact(embed, node) {
                return true;
            }
        }
        false
    }

    /// Finds the deciding instances of an embedding and the darts that they reach, which are marked in
    /// the room of an empty vector.
    fn decide<L: Ledger>(
        &self,
        embed: u8,
        room: Vec<Mark>,
        steps: &mut Steps<L>,
    ) -> Result<DecidedOrbits, OutOfMemory>
        requires embed { embed < length self.now.map.schema.embeds }
        requires empty { room.items ≡ [] }
        ensures deciders { IfOk result (λ orbits. (kept : Embed) → IsEmbedAt self.now.map.schema embed kept → AreDecidingInstances self.now embed kept orbits.instances.items) }
        ensures reached { IfOk result (λ orbits. (kept : Embed) → IsEmbedAt self.now.map.schema embed kept → AreReached self.now embed kept orbits.instances.items orbits.marks) }
        ensures ungiven { IfOk result (λ orbits. (instance : DecidingInstance) → Contains orbits.instances.items instance → instance.given ≡ None) }
        ensures few { IfOk result (λ orbits. length orbits.instances.items ≤ 4294967295) }
        ensures cost { (kept : Embed) → IsEmbedAt self.now.map.schema embed kept → IsWithinReach self.now embed kept steps.old steps.new }
        ensures least { steps.old ≤ steps.new }
        ensures prepared { IsPrepared self.now }
    {
        let declared = &self.arena.schema().embeds.as_slice()[embed as usize];
        let mut orbits = DecidedOrbits {
            instances: DecidingInstances::new(self.alloc),
            marks: Marks::new(
                self.alloc,
                room,
                self.positions() as usize,
                self.arena.bound(),
            ),
        };
        let outcome = self.decide_nodes(embed, declared, &mut orbits, steps);
        // The marks tell here that no dart comes twice.
        prove!(orbits.marks.len() <= usize::MAX);
        outcome?;
        Ok(orbits)
    }

    fn decide_nodes<L: Ledger>(
        &self,
        embed: u8,
        declared: &Embed,
        orbits: &mut DecidedOrbits,
        steps: &mut Steps<L>,
    ) -> Result<(), OutOfMemory>
        requires embed { IsEmbedAt self.now.map.schema embed declared.now }
        requires earlier { IsDecidedUpTo self.now embed declared.now orbits.old.instances.items orbits.old.marks 0 0 }
        ensures decided { OnOk result (IsDecidedUpTo self.now embed declared.now orbits.new.instances.items orbits.new.marks (length (rule_in self.now).nodes) 0) }
        ensures darts { AreResultDarts self.now orbits.new.marks }
        ensures reached { AreSomeReached self.now embed declared.now orbits.new.marks }
        ensures cost { steps.new + (self.now.map.schema.dim + 1) * length orbits.old.marks ≤ steps.old + (self.now.map.schema.dim + 1) * length orbits.new.marks }
        ensures least { steps.old ≤ steps.new }
        ensures prepared { IsPrepared self.now }
    {
        let nodes = self.nodes();
        for node in 0..nodes {
            if self.assigns(embed, node) {
                self.decide_node(embed, declared, node, orbits, steps)?;
            }
        }
        Ok(())
    }

    /// Looks at the instances of a node with an assignment to the embedding.
    fn decide_node<L: Ledger>(
        &self,
        embed: u8,
        declared: &Embed,
        node: u8,
        orbits: &mut DecidedOrbits,
        steps: &mut Steps<L>,
    ) -> Result<(), OutOfMemory>
        requires embed { IsEmbedAt self.now.map.schema embed declared.now }
        requires assigned { IsAssigned (rule_in self.now) embed node }
        requires earlier { IsDecidedUpTo self.now embed declared.now orbits.old.instances.items orbits.old.marks node 0 }
        ensures decided { OnOk result (IsDecidedUpTo self.now embed declared.now orbits.new.instances.items orbits.new.marks (node + 1) 0) }
        ensures darts { AreResultDarts self.now orbits.new.marks }
        ensures reached { AreSomeReached self.now embed declared.now orbits.new.marks }
        ensures cost { steps.new + (self.now.map.schema.dim + 1) * length orbits.old.marks ≤ steps.old + (self.now.map.schema.dim + 1) * length orbits.new.marks }
        ensures least { steps.old ≤ steps.new }
    {
        // Where each letter of the node is a label of the type, its instances are joined as the
        // positions are; and where each label of the type is a letter of it, no other dart is joined
        // to them: they are one orbit, whatever is matched.
        if self.plan.is_exact(embed, node) {
            return self.decide_orbit(embed, declared, node, orbits);
        }
        for position in 0..self.positions() {
            self.decide_instance(embed, declared, node, position, orbits, steps)?;
        }
        Ok(())
    }

    /// Looks at the instances of a node that are one orbit: the first decides it, unless an earlier
    /// instance of another node reached them.
    fn decide_orbit(
        &self,
        embed: u8,
        declared: &Embed,
        node: u8,
        orbits: &mut DecidedOrbits,
    ) -> Result<(), OutOfMemory>
        requires embed { IsEmbedAt self.now.map.schema embed declared.now }
        requires assigned { IsAssigned (rule_in self.now) embed node }
        requires orbit { IsAlwaysOneOrbit self.now declared.now node }
        requires earlier { IsDecidedUpTo self.now embed declared.now orbits.old.instances.items orbits.old.marks node 0 }
        ensures decided { OnOk result (IsDecidedUpTo self.now embed declared.now orbits.new.instances.items orbits.new.marks (node + 1) 0) }
        ensures darts { AreResultDarts self.now orbits.new.marks }
        ensures reached { AreSomeReached self.now embed declared.now orbits.new.marks }
        ensures longer { length orbits.old.marks ≤ length orbits.new.marks }
    {
        // The application tells here what its type keeps.
        prove!(self.positions() >= 1);
        if orbits.marks.decided_by(self.place(node, 0)).is_some() {
            return Ok(());
        }
        let index = add_instance(&mut orbits.instances, node, 0)?;
        self.mark_instances(node, index, &mut orbits.marks)
    }

    /// Marks the instances of a right node, of which none is marked.
    fn mark_instances(&self, node: u8, index: u32, marks: &mut Marks) -> Result<(), OutOfMemory>
        requires right { IsTrue (has_word (rule_in self.now) Right node) }
        requires darts { AreResultDarts self.now marks.old }
        requires unmarked { IsUnmarked self.now marks.old node }
        ensures darts { AreResultDarts self.now marks.new }
        ensures all { OnOk result (AreMarkedTo self.now marks.old marks.new node index self.now.placed.positions) }
        ensures some { (p : ℕ) × (p ≤ self.now.placed.positions) × AreMarkedTo self.now marks.old marks.new node index p }
    {
        for position in 0..self.positions() {
            let at = self.place(node, position);
            marks.mark_new(at, index, None, self.positions() as usize)?;
        }
        Ok(())
    }

    /// Looks at an instance with an assignment: it decides, unless an earlier one reached its dart.
    fn decide_instance<L: Ledger>(
        &self,
        embed: u8,
        declared: &Embed,
        node: u8,
        position: u32,
        orbits: &mut DecidedOrbits,
        steps: &mut Steps<L>,
    ) -> Result<(), OutOfMemory>
        requires prepared { IsPrepared self.now }
        requires embed { IsEmbedAt self.now.map.schema embed declared.now }
        requires assigned { IsAssigned (rule_in self.now) embed node }
        requires position { position < self.now.placed.positions }
        requires earlier { IsDecidedUpTo self.now embed declared.now orbits.old.instances.items orbits.old.marks node position }
        ensures decided { OnOk result (IsDecidedUpTo self.now embed declared.now orbits.new.instances.items orbits.new.marks node (position + 1)) }
        ensures darts { AreResultDarts self.now orbits.new.marks }
        ensures reached { AreSomeReached self.now embed declared.now orbits.new.marks }
        ensures cost { steps.new + (self.now.map.schema.dim + 1) * length orbits.old.marks ≤ steps.old + (self.now.map.schema.dim + 1) * length orbits.new.marks }
        ensures least { steps.old ≤ steps.new }
    {
        let at = self.place(node, position);
        if orbits.marks.decided_by(at).is_some() {
            return Ok(());
        }
        let index = add_instance(&mut orbits.instances, node, position)?;
        self.reach(at, index, embed, declared, &mut orbits.marks, steps)
    }

    /// Walks the orbit of an instance, and marks its darts.
    fn reach<L: Ledger>(
        &self,
        at: PackedAt,
        index: u32,
        embed: u8,
        declared: &Embed,
        marks: &mut Marks,
        steps: &mut Steps<L>,
    ) -> Result<(), OutOfMemory>
        requires prepared { IsPrepared self.now }
        requires embed { IsEmbedAt self.now.map.schema embed declared.now }
        requires dart { IsResultDart self.now at }
        requires darts { AreResultDarts self.now marks.old }
        requires absent { HasKey marks.old (key_of at) → ⊥ }
        requires closed { (unfolded : Unfolded) → IsUnfoldedIn self.now unfolded → IsClosed self.now declared.now unfolded marks.old }
        ensures darts { AreResultDarts self.now marks.new }
        ensures spread { OnOk result ((unfolded : Unfolded) → IsUnfoldedIn self.now unfolded → IsClosed self.now declared.now unfolded marks.old → IsSpreadTo self.now declared.now unfolded marks.old marks.new index (name_of self.now at) (length marks.new) 0) }
        ensures grown { (unfolded : Unfolded) → IsUnfoldedIn self.now unfolded → IsClosed self.now declared.now unfolded marks.old → IsGrown self.now declared.now unfolded marks.old marks.new index (name_of self.now at) }
        ensures cost { steps.new + (self.now.map.schema.dim + 1) * length marks.old ≤ steps.old + (self.now.map.schema.dim + 1) * length marks.new }
        ensures least { steps.old ≤ steps.new }
    {
        let mut next = marks.len();
        marks.mark_first(at, index)?;
        // An orbit over two labels is a path or a ring, of which the dart is one place.
        if let Some((one, other)) = pair_of(declared.mask) {
            self.follow(at, index, one, other, embed, declared, marks, steps)?;
            return self.follow(at, index, other, one, embed, declared, marks, steps);
        }
        while next < marks.len() {
            let from = marks.as_slice()[next];
            self.spread(from, embed, declared, marks, steps)?;
            next += 1;
        }
        Ok(())
    }

    /// Marks the darts to which two labels lead in turns from the dart where a walk began, the first
    /// of them first, up to one that is marked.
    // Inlined with what it calls, since at a call darts and results pass through memory.
    #[inline(always)]
    fn follow<L: Ledger>(
        &self,
        from: PackedAt,
        index: u32,
        first: u8,
        second: u8,
        embed: u8,
        declared: &Embed,
        marks: &mut Marks,
        steps: &mut Steps<L>,
    ) -> Result<(), OutOfMemory>
        requires prepared { IsPrepared self.now }
        requires embed { IsEmbedAt self.now.map.schema embed declared.now }
        requires pair { IsPair declared.now.mask first second }
        requires from { IsResultDart self.now from }
        requires darts { AreResultDarts self.now marks.old }
        requires here { HasKey marks.old (key_of from) }
        requires begun { (unfolded : Unfolded) → IsUnfoldedIn self.now unfolded → (before : List Mark) × (m : ℕ) × IsFollowedBut self.now declared.now unfolded before marks.old index (name_of self.now from) (name_of self.now from) first m }
        ensures darts { AreResultDarts self.now marks.new }
        ensures here { OnOk result (HasKey marks.new (key_of from)) }
        ensures followed { OnOk result (IsFollowedAlong self.now declared.now index (name_of self.now from) first marks.old marks.new) }
        ensures grown { IsGrownAlong self.now declared.now index (name_of self.now from) first marks.old marks.new }
        ensures cost { steps.new + length marks.old ≤ steps.old + 1 + length marks.new }
        ensures longer { length marks.old ≤ length marks.new }
        ensures least { steps.old ≤ steps.new }
    {
        let made = self.made_labels();
        let (makes_first, makes_second) = (made.has(first), made.has(second));
        let mut at = self.neighbour(from, first, makes_first, steps);
        if !marks.mark_beside(from, at, index, None)? {
            return Ok(());
        }
        loop {
            let Some(to) = self.go_on(from, at, second, makes_second, index, marks, steps)? else {
                return Ok(());
            };
            let Some(next) = self.go_on(from, to, first, makes_first, index, marks, steps)? else {
                return Ok(());
            };
            at = next;
        }
    }

    /// Marks the neighbour along a label of the dart to which a walk along two labels has come, and
    /// answers it; none where it is marked.
    // Where one label led to, only the other leads on. It leads to a marked dart only where it leads
    // nowhere or where the walk began, since each other marked dart has both of its neighbours.
    #[inline(always)]
    fn go_on<L: Ledger>(
        &self,
        start: PackedAt,
        at: PackedAt,
        label: u8,
        made: bool,
        index: u32,
        marks: &mut Marks,
        steps: &mut Steps<L>,
    ) -> Result<Option<PackedAt>, OutOfMemory>
        requires prepared { IsPrepared self.now }
        requires label { label ≤ self.now.map.schema.dim }
        requires kept { made ≡ false → MakesNone (rule_in self.now) label }
        requires from { IsResultDart self.now start }
        requires dart { IsResultDart self.now at }
        requires darts { AreResultDarts self.now marks.old }
        requires here { HasKey marks.old (key_of at) }
        requires begun { HasKey marks.old (key_of start) }
        requires ends { LeadsBackOnly self.now marks.old start at label }
        ensures on { IfOk result (λ on. MatchOption on (IsFollowedOut self.now index start at label marks.old marks.new) (λ to. IsGoneOn self.now index start at label marks.old to marks.new)) }
        ensures darts { AreResultDarts self.now marks.new }
        ensures begun { HasKey marks.new (key_of start) }
        ensures err { OnErr result (marks.new ≡ marks.old) }
        ensures longer { length marks.old ≤ length marks.new }
        ensures few { OnOk result (length marks.new ≤ 18446744073709551615) }
        ensures cost { steps.new ≤ steps.old + 1 }
        ensures least { steps.old ≤ steps.new }
    {
        let to = self.neighbour(at, label, made, steps);
        let is_new = marks.mark_on(start, at, to, index)?;
        // The marks tell here that they have an end.
        prove!(marks.len() <= usize::MAX);
        if is_new { Ok(Some(to)) } else { Ok(None) }
    }

    /// Marks the neighbours of a reached dart, but that from which it was reached, which is marked.
    fn spread<L: Ledger>(
        &self,
        from: Mark,
        embed: u8,
        declared: &Embed,
        marks: &mut Marks,
        steps: &mut Steps<L>,
    ) -> Result<(), OutOfMemory>
        requires prepared { IsPrepared self.now }
        requires embed { IsEmbedAt self.now.map.schema embed declared.now }
        requires darts { AreResultDarts self.now marks.old }
        requires from { Contains marks.old from }
        ensures darts { AreResultDarts self.now marks.new }
        ensures followed { OnOk result (IsFollowedTo self.now declared.now from marks.old marks.new (self.now.map.schema.dim + 1)) }
        ensures grown { IsFollowed self.now declared.now from marks.old marks.new }
        ensures longer { length marks.old ≤ length marks.new }
        ensures cost { steps.new ≤ steps.old + (self.now.map.schema.dim + 1) }
        ensures least { steps.old ≤ steps.new }
    {
        let made = self.made_labels();
        let mut asked = without(declared.mask, from.over);
        while let Some(label) = lowest(asked) {
            asked = without(asked, Some(label));
            let to = self.neighbour(from.at, label, made.has(label), steps);
            marks.mark_beside(from.at, to, from.instance, Some(label))?;
        }
        Ok(())
    }
}

/// The two labels of a set that has two and no more.
fn pair_of(labels: Mask) -> Option<(u8, u8)>
    ensures { IfSome result (λ pair. IsPair labels pair.0 pair.1) }
{
    let one = lowest(labels)?;
    let rest = without(labels, Some(one));
    let other = lowest(rest)?;
    match lowest(without(rest, Some(other))) {
        Some(_) => None,
        None => Some((one, other)),
    }
}

/// The lowest label of a set.
fn lowest(labels: Mask) -> Option<u8>
    ensures { MatchOption result
        ((i : ℕ) → i < MOST_LABELS → has labels i ≡ false)
        (λ label. (label < MOST_LABELS) × IsTrue (has labels label) × ((i : ℕ) → i < label → has labels i ≡ false)) }
{
    if labels.bits == 0 {
        return None;
    }
    Some(labels.bits.trailing_zeros() as u8)
}

/// The labels of a set but one, where there is one.
fn without(labels: Mask, one: Option<u8>) -> Mask
    ensures among { (i : ℕ) → i < MOST_LABELS → IsTrue (has result i) → IsTrue (has labels i) }
    ensures others { (i : ℕ) → i < MOST_LABELS → has result i ≡ false → (one ≡ Some i) ⊎ (has labels i ≡ false) }
    ensures gone { (i : ℕ) → i < MOST_LABELS → one ≡ Some i → has result i ≡ false }
    ensures fewer { (i : ℕ) → i < MOST_LABELS → one ≡ Some i → IsTrue (has labels i) → result.bits < labels.bits }
{
    match one {
        Some(label) if label < 8 => Mask {
            bits: labels.bits & !(1 << label),
        },
        _ => labels,
    }
}

/// Adds a deciding instance, which has no value yet, and answers its index.
fn add_instance(
    instances: &mut DecidingInstances,
    node: u8,
    position: u32,
) -> Result<u32, OutOfMemory>
    ensures added { OnOk result (instances.new.items ≡ instances.old.items ++ ungiven node position ∷ []) }
    ensures index { IfOk result (λ index. index ≡ length instances.old.items) }
    ensures few { OnOk result (length instances.old.items < 4294967295) }
    ensures err { OnErr result (instances.new.items ≡ instances.old.items) }
{
    // More instances than that take more memory than there is.
    if instances.len() >= u32::MAX as usize {
        return Err(OutOfMemory);
    }
    let index = instances.len() as u32;
    instances.push(DecidingInstance {
        node,
        position,
        given: None,
    })?;
    Ok(index)
}
