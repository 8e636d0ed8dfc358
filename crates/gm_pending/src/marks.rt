//! The darts of a result that are reached from deciding instances.
ghost use Rattle.std.specs.Prelude.{◌≡◌, ℕ, ◌*◌, List, ◌∷◌, ◌++◌, ◌<◌, ◌≤◌, ◌⊎◌, [], length, slice_get, slice_index_or, None, Some, MatchOption, ◌↔◌, IsTrue, IfOk, IfSome, OnOk, OnErr};
ghost use Rattle.std.specs.Int.{bit_at};
ghost use Rattle.std.specs.Vec.{vec_capacity};
ghost use Rattle.gm_walk.specs.declared.mark.Mark.{Mark};
ghost use Rattle.gm_pending.specs.inner.Marks.{bit_of, reached_by, HasKey, IsIndex, IsMarkedBy, IsMarkedMore, HasDistinctKeys};
ghost use Rattle.gm_plan.specs.inner.Indices.{index_at};
ghost use Rattle.gm_walk.specs.inner.Keys.{key_of};

use gm_arena::Slot;
use gm_model::OutOfMemory;
use gm_plan::Index;
use gm_walk::{Mark, PackedAt};
use std::alloc::Global;
use std::marker::Model;

/// Fewer than this many darts are searched one after another, since that is faster than any index.
const FEW: usize = 16;

/// An index that was made with less room than for one in this many slots has no table of them.
const SLOTS_A_DART: usize = 8;

/// It is made again with one where a walk reaches one in this many.
const SLOTS_REACHED: usize = 32;

/// The darts that are reached, in the order in which they were found. None comes twice.
#[derive(Drop)]
pub struct Marks {
    alloc: Global,
    reached: Vec<Mark>,
    /// The index of the deciding instance of each dart. It is made where a search would look through
    /// more than a few darts. In a box, so that marks without it are cheap to move.
    index: Option<Box<Index>>,
    /// The bits of all marked darts. A dart whose bit isn't set is not marked, and needs no search.
    bits: u64,
    /// The index is made with room for this many darts, and for as many as there are slots where more
    /// come.
    room: usize,
    /// And for an arena of this many slots.
    slots: usize,
    /// As long as fewer darts are reached, one more needs neither room nor an index.
    quick: usize,
}

impl Model for Marks {
    ghost use Rattle.std.specs.Prelude.{List};
    ghost use Rattle.gm_walk.specs.declared.mark.Mark.{Mark};
    ghost use Rattle.std.specs.Option.{option_map};
    ghost use Rattle.gm_plan.specs.inner.Indices.{index_at};
    ghost use Rattle.std.specs.Vec.{vec_capacity};
    ghost use Rattle.gm_pending.specs.inner.Marks.{AreMarked, IsQuick};

    ghost Value = { List Mark };

    ghost view = { λ a. a.reached.items };

    ghost invariant = { λ a. AreMarked a.reached.items (option_map (λ b. index_at b.value) a.index) a.bits × IsQuick a.quick (vec_capacity a.reached) a.index };
}

impl Marks {
    /// No darts, in the room of an empty vector. It takes no memory; but where an index is needed, it is
    /// made with room for `room` darts, of an arena with `slots` slots.
    pub(crate) fn new(alloc: Global, reached: Vec<Mark>, room: usize, slots: usize) -> Marks
        requires { reached.items ≡ [] }
        ensures { result ≡ [] }
    {
        Marks {
            alloc,
            reached,
            index: None,
            bits: 0,
            room,
            slots,
            quick: 0,
        }
    }

    /// The darts.
    pub fn as_slice(&self) -> &[Mark]
        ensures reached { result.now ≡ self.now }
        ensures distinct { HasDistinctKeys self.now }
    {
        self.reached.as_slice()
    }

    /// The number of darts.
    pub(crate) fn len(&self) -> usize
        ensures len { result ≡ length self.now }
        ensures distinct { HasDistinctKeys self.now }
    {
        self.reached.len()
    }

    /// The room of marks that are no longer needed, or of none; what is in it means nothing.
    pub fn into_room(self) -> Vec<Mark> {
        let Marks {
            alloc: _,
            reached,
            index,
            bits: _,
            room: _,
            slots: _,
            quick: _,
        } = self;
        drop(index);
        reached
    }

    /// The index of the instance that decides the dart's orbit; none where it isn't reached.
    #[inline(always)]
    pub(crate) fn decided_by(&self, at: PackedAt) -> Option<u32>
        ensures instance { MatchOption result (HasKey self.now (key_of at) → ⊥) (IsMarkedBy self.now (key_of at)) }
        ensures distinct { HasDistinctKeys self.now }
    {
        let wanted = at.key();
        if !is_set(self.bits, wanted) {
            return None;
        }
        match &self.index {
            Some(index) => index.find(wanted),
            None => instance_among(&self.reached, wanted),
        }
    }

    /// Marks a dart, unless it is marked, and answers whether it wasn't. Where memory ran out,
    /// nothing is marked.
    #[inline(always)]
    pub(crate) fn mark(
        &mut self,
        at: PackedAt,
        instance: u32,
        over: Option<u8>,
    ) -> Result<bool, OutOfMemory>
        ensures ok { OnOk result (IsMarkedMore self.old self.new at instance over) }
        ensures new { IfOk result (λ new. IsTrue new ↔ (HasKey self.old (key_of at) → ⊥)) }
        ensures err { OnErr result (self.new ≡ self.old) }
        ensures distinct { HasDistinctKeys self.old }
    {
        if self.reached.len() >= self.quick {
            return self.mark_slowly(at, instance, over);
        }
        if self.decided_by(at).is_some() {
            return Ok(false);
        }
        self.bits |= 1 << bit(at.key());
        self.reached.push_reserved(Mark { at, instance, over });
        Ok(true)
    }

    /// Marks a dart, unless it is marked, as `mark` does, where room or an index may have to be made.
    // On its own, so that `mark` stays small enough to be inlined where darts are walked.
    #[cold]
    #[inline(never)]
    fn mark_slowly(
        &mut self,
        at: PackedAt,
        instance: u32,
        over: Option<u8>,
    ) -> Result<bool, OutOfMemory>
        ensures ok { OnOk result (IsMarkedMore self.old self.new at instance over) }
        ensures new { IfOk result (λ new. IsTrue new ↔ (HasKey self.old (key_of at) → ⊥)) }
        ensures err { OnErr result (self.new ≡ self.old) }
        ensures distinct { HasDistinctKeys self.old }
    {
        if self.index.is_some() || self.reached.len() >= FEW {
            return self.put(at, instance, over);
        }
        if self.decided_by(at).is_some() {
            return Ok(false);
        }
        self.mark_new(at, instance, over, FEW)?;
        self.quicken();
        Ok(true)
    }

    /// Marks the dart with which a walk begins, which isn't marked, as `mark_new` does. It makes room for
    /// a few more.
    #[inline(always)]
    pub(crate) fn mark_first(&mut self, at: PackedAt, instance: u32) -> Result<(), OutOfMemory>
        requires absent { HasKey self.old (key_of at) → ⊥ }
        ensures ok { OnOk result (IsMarkedMore self.old self.new at instance None) }
        ensures err { OnErr result (self.new ≡ self.old) }
    {
        self.mark_new(at, instance, None, FEW)?;
        self.quicken();
        Ok(())
    }

    /// Takes note of the room that there is, where there is no index.
    #[inline(always)]
    fn quicken(&mut self)
        ensures { self.new ≡ self.old }
    {
        self.quick = match self.index {
            Some(_) => 0,
            None => self.reached.capacity().min(FEW),
        };
    }

    /// Marks a neighbour of a marked dart, as `mark` does.
    #[inline(always)]
    pub(crate) fn mark_beside(
        &mut self,
        from: PackedAt,
        at: PackedAt,
        instance: u32,
        over: Option<u8>,
    ) -> Result<bool, OutOfMemory>
        requires from { HasKey self.old (key_of from) }
        ensures ok { OnOk result (IsMarkedMore self.old self.new at instance over) }
        ensures new { IfOk result (λ new. IsTrue new ↔ (HasKey self.old (key_of at) → ⊥)) }
        ensures err { OnErr result (self.new ≡ self.old) }
        ensures distinct { HasDistinctKeys self.old }
    {
        // A dart that is free at a label is its own neighbour: a walk mostly ends there.
        if at.key() == from.key() {
            // The marks tell here that no dart comes twice.
            prove!(self.len() <= usize::MAX);
            return Ok(false);
        }
        self.mark(at, instance, over)
    }

    /// Marks a neighbour of a marked dart, as `mark` does, where it is marked only if it is that dart or the
    /// one with which the walk began. Nothing is searched for.
    #[inline(always)]
    pub(crate) fn mark_on(
        &mut self,
        start: PackedAt,
        from: PackedAt,
        at: PackedAt,
        instance: u32,
    ) -> Result<bool, OutOfMemory>
        requires start { HasKey self.old (key_of start) }
        requires from { HasKey self.old (key_of from) }
        requires ends { HasKey self.old (key_of at) → (key_of at ≡ key_of from) ⊎ (key_of at ≡ key_of start) }
        ensures ok { OnOk result (IsMarkedMore self.old self.new at instance None) }
        ensures new { IfOk result (λ new. IsTrue new ↔ (HasKey self.old (key_of at) → ⊥)) }
        ensures err { OnErr result (self.new ≡ self.old) }
        ensures distinct { HasDistinctKeys self.old }
    {
        // The marks tell here that no dart comes twice.
        prove!(self.len() <= usize::MAX);
        if at.key() == from.key() || at.key() == start.key() {
            return Ok(false);
        }
        if self.reached.len() >= self.quick {
            return self.mark_slowly(at, instance, None);
        }
        self.bits |= 1 << bit(at.key());
        self.reached.push_reserved(Mark {
            at,
            instance,
            over: None,
        });
        Ok(true)
    }

    /// Marks a dart that isn't marked. Where memory ran out, nothing is marked. It makes no index,
    /// so that darts that need no search are marked without one; and where there is no room, it makes
    /// room for `room` entries at once.
    #[inline(always)]
    pub(crate) fn mark_new(
        &mut self,
        at: PackedAt,
        instance: u32,
        over: Option<u8>,
        room: usize,
    ) -> Result<(), OutOfMemory>
        requires absent { HasKey self.old (key_of at) → ⊥ }
        ensures ok { OnOk result (self.new ≡ self.old ++ reached_by at instance over ∷ []) }
        ensures err { OnErr result (self.new ≡ self.old) }
    {
        let mark = Mark { at, instance, over };
        if self.index.is_none() {
            self.bits |= 1 << bit(at.key());
            push(&mut self.reached, mark, room)
        } else {
            self.put(at, instance, over)?;
            Ok(())
        }
    }

    /// Marks a dart, unless it is marked, as `mark` does. It goes by the index, and makes one where
    /// there is none.
    // Cold, so that `mark` stays small enough to be inlined where darts are walked.
    #[cold]
    fn put(&mut self, at: PackedAt, instance: u32, over: Option<u8>) -> Result<bool, OutOfMemory>
        ensures ok { OnOk result (IsMarkedMore self.old self.new at instance over) }
        ensures new { IfOk result (λ new. IsTrue new ↔ (HasKey self.old (key_of at) → ⊥)) }
        ensures err { OnErr result (self.new ≡ self.old) }
        ensures distinct { HasDistinctKeys self.old }
    {
        self.quick = 0;
        self.reached.reserve(1)?;
        let mut index = index(
            self.alloc,
            self.index.take(),
            &self.reached,
            &mut self.room,
            self.slots,
        )?;
        let had = index.put(at.key(), instance)?;
        self.index = Some(index);
        if had.is_some() {
            return Ok(false);
        }
        self.bits |= 1 << bit(at.key());
        self.reached.push_reserved(Mark { at, instance, over });
        Ok(true)
    }
}

/// Puts an entry after the others. Where there is no room, it makes room for `room` at once.
#[inline(always)]
fn push<T: Copy>(entries: &mut Vec<T>, entry: T, room: usize) -> Result<(), OutOfMemory>
    ensures ok { OnOk result (entries.new.items ≡ entries.old.items ++ entry ∷ []) }
    ensures capacity { vec_capacity entries.old ≤ vec_capacity entries.new }
    ensures err { OnErr result (entries.new.items ≡ entries.old.items) }
{
    if entries.len() >= entries.capacity() {
        make_room(entries, room)?;
    }
    entries.push_reserved(entry);
    Ok(())
}

/// Makes room for `room` further entries, and for one at least.
// Cold and on its own, so that `push` stays a test and a write where darts are walked.
#[cold]
#[inline(never)]
fn make_room<T>(entries: &mut Vec<T>, room: usize) -> Result<(), OutOfMemory>
    ensures items { entries.new.items ≡ entries.old.items }
    ensures room { OnOk result (length entries.new.items < vec_capacity entries.new) }
    ensures capacity { vec_capacity entries.old ≤ vec_capacity entries.new }
{
    Ok(entries.reserve(room.max(1))?)
}

/// The index of the deciding instance of each dart: the one that there is, or a new one with room for
/// `room` darts of an arena with `slots` slots. Where one was made with less room and many darts are
/// reached, it is made again with a place for each slot, so that a walk of a large orbit takes no longer
/// where the rule touches little of it.
fn index(
    alloc: Global,
    index: Option<Box<Index>>,
    reached: &[Mark],
    room: &mut usize,
    slots: usize,
) -> Result<Box<Index>, OutOfMemory>
    requires distinct { HasDistinctKeys reached.now }
    requires index { IfSome index (λ index. IsIndex reached.now (index_at index.value)) }
    ensures { IfOk result (λ index. IsIndex reached.now (index_at index.value)) }
{
    if let Some(index) = index {
        if *room >= slots / SLOTS_A_DART || reached.len() < slots / SLOTS_REACHED {
            return Ok(index);
        }
        *room = slots;
    }
    let mut index = Index::build(alloc, *room, slots)?;
    for entry in reached {
        index.put(entry.at.key(), entry.instance)?;
    }
    Ok(Box::new(alloc, index)?)
}

/// The index of the deciding instance of the dart with this key. It begins with the last dart, since
/// a walk mostly ends at a dart that was marked just before.
fn instance_among(reached: &[Mark], wanted: u64) -> Option<u32>
    ensures { MatchOption result (HasKey reached.now wanted → ⊥) (IsMarkedBy reached.now wanted) }
{
    let mut place = reached.len();
    while place > 0 {
        place -= 1;
        if reached[place].at.key() == wanted {
            return Some(reached[place].instance);
        }
    }
    None
}

/// The bit, of 64, that stands for the dart of a key; others may have the same one. By the second
/// summand it tells darts apart whose numbers differ by a multiple of 64, as those of the faces of a
/// grid may.
fn bit(key: u64) -> u64
    ensures { result ≡ bit_of key }
{
    (key / 2 + key / 128) % 64
}

/// Whether the bit that stands for the dart of a key is one of the bits.
#[inline(always)]
pub(crate) fn is_set(bits: u64, key: u64) -> bool
    ensures { IsTrue result ↔ (bit_at bits (bit_of key) ≡ 1) }
{
    (bits >> bit(key)) & 1 == 1
}

/// The bits that stand for the old darts at the slots.
pub(crate) fn bits_of(slots: &[Slot]) -> u64
    ensures { (k : ℕ) → k < length slots.now → bit_at result (bit_of ((slice_index_or slots.now k (record { at = 0 })).at * 2)) ≡ 1 }
{
    let mut bits = 0;
    for slot in slots {
        bits |= 1 << bit(u64::from(slot.at) * 2);
    }
    bits
}
