//! The room in which walks are made, lent from one to the next.

ghost use Rattle.std.specs.Prelude.{◌≡◌, ◌<◌, ◌≤◌, [], length, slice_get, MatchOption, Some, IsOk, OnOk, IsTrue, ◌↔◌};
ghost use Rattle.std.specs.List.{Contains};
ghost use Rattle.gm_walk.specs.inner.Marks.{IsMarked, numbers};
ghost use Rattle.gm_walk.specs.inner.Room.{Fits, TakesIn};

use crate::mark::Mark;
use gm_arena::{Arena, Slot};
use gm_model::{MOST_DARTS, OutOfMemory};
use std::alloc::Global;
use std::marker::Model;
use std::mem;

/// How many marks are made ahead, so that a map that grows by a few darts at a time is seldom met
/// here again.
const MARKS_AHEAD: usize = 1_024;

/// The room in which walks are made, one after another. Contracts see for how many slots it has
/// room, and the slots of the last walk.
#[derive(Drop)]
pub struct Scratch {
    queue: Vec<Slot>,
    /// For each slot one more than its place in the queue, or 0 where it has none.
    marks: Vec<u32>,
    /// Empty, or what was given back of what was lent for rows: it is kept for its room alone.
    slots: Vec<Slot>,
    turns: Vec<u32>,
    /// Empty, or what was given back of what was lent for one list: it is kept for its room alone.
    list: Vec<Slot>,
    /// Empty, or what was given back of what was lent for marks: it is kept for its room alone.
    reached: Vec<Mark>,
}

impl Model for Scratch {
    ghost use Rattle.gm_walk.specs.inner.Room.{Room, room_code};

    ghost Value = { Room };

    ghost coded = { room_code };

    ghost use Rattle.std.specs.Prelude.{length};
    ghost use Rattle.std.specs.Vec.{vec_capacity};
    ghost use Rattle.gm_walk.specs.inner.Marks.{IsKept};

    ghost view = { λ s. record { bound = length s.marks.items; walked = s.queue.items } };

    ghost invariant = { λ s. IsKept s.queue.items s.marks.items (vec_capacity s.queue) };
}

impl Scratch {
    /// A scratch without room. It takes no memory.
    pub fn new(alloc: Global) -> Scratch
        ensures { result ≡ record { bound = 0; walked = [] } }
    {
        Scratch {
            queue: Vec::new(alloc),
            marks: Vec::new(alloc),
            slots: Vec::new(alloc),
            turns: Vec::new(alloc),
            list: Vec::new(alloc),
            reached: Vec::new(alloc),
        }
    }

    /// Two empty vectors, those that were last kept. How much room they have isn't said.
    pub fn lend_rows(&mut self, alloc: Global) -> (Vec<Slot>, Vec<u32>)
        ensures slots { result.0.items ≡ [] }
        ensures turns { result.1.items ≡ [] }
        ensures stays { self.new ≡ self.old }
    {
        let mut slots = mem::replace(&mut self.slots, Vec::new(alloc));
        let mut turns = mem::replace(&mut self.turns, Vec::new(alloc));
        slots.clear();
        turns.clear();
        (slots, turns)
    }

    /// Takes two vectors that are to be lent again. What is in them is forgotten, and nothing is said of
    /// their room.
    pub fn keep_rows(&mut self, slots: Vec<Slot>, turns: Vec<u32>)
        ensures { self.new ≡ self.old }
    {
        self.slots = slots;
        self.turns = turns;
    }

    /// The vector that was last kept. What is in it means nothing, and how much room it has isn't said.
    pub fn lend_slots(&mut self, alloc: Global) -> Vec<Slot>
        ensures { self.new ≡ self.old }
    {
        mem::replace(&mut self.list, Vec::new(alloc))
    }

    /// Takes a vector that is to be lent again. Nothing is said of its room.
    pub fn keep_slots(&mut self, slots: Vec<Slot>)
        ensures { self.new ≡ self.old }
    {
        self.list = slots;
    }

    /// An empty vector for marks, the one that was last kept. How much room it has isn't said.
    pub fn lend_marks(&mut self, alloc: Global) -> Vec<Mark>
        ensures marks { result.items ≡ [] }
        ensures stays { self.new ≡ self.old }
    {
        let mut marks = mem::replace(&mut self.reached, Vec::new(alloc));
        marks.clear();
        marks
    }

    /// Takes a vector that is to be lent again for marks. What is in it is forgotten, and nothing is said
    /// of its room.
    pub fn keep_marks(&mut self, marks: Vec<Mark>)
        ensures { self.new ≡ self.old }
    {
        self.reached = marks;
    }

    /// Makes room for walks in the arena, and in any arena with no greater bound. A scratch that
    /// has the room already stays as it is.
    // Inlined, the test alone is left of it where there is room.
    #[inline(always)]
    pub fn fit(&mut self, arena: &Arena) -> Result<(), OutOfMemory>
        ensures fits { OnOk result (Fits self.new arena.now) }
        ensures kept { self.old.bound ≤ self.new.bound }
        ensures walked { self.new.walked ≡ self.old.walked }
        ensures stays { arena.now.bound ≤ self.old.bound → self.new ≡ self.old }
        ensures ready { arena.now.bound ≤ self.old.bound → IsOk result }
    {
        let bound = arena.bound();
        if bound <= self.marks.len() {
            return Ok(());
        }
        self.widen(bound)
    }

    /// Makes room for the slots below the bound, for which there is none yet.
    #[cold]
    #[inline(never)]
    fn widen(&mut self, bound: usize) -> Result<(), OutOfMemory>
        requires more { self.old.bound < bound }
        ensures fits { OnOk result (bound ≤ self.new.bound) }
        ensures kept { self.old.bound ≤ self.new.bound }
        ensures walked { self.new.walked ≡ self.old.walked }
    {
        // A place in a walk is a `u32`.
        if bound > u32::MAX as usize {
            return Err(OutOfMemory);
        }
        // Room for all darts that an arena can have: what isn't touched takes no memory, and marks
        // that never move leave no room behind.
        let room = bound.max(MOST_DARTS as usize);
        self.queue.reserve_exact(room - self.queue.len())?;
        self.marks.reserve_exact(room - self.marks.len())?;
        let made = room.min(bound + MARKS_AHEAD);
        self.marks.resize(made, 0)?;
        Ok(())
    }

    /// Forgets the last walk, in time that goes by its length. A caller may then take in slots of
    /// its own, as if it walked.
    pub fn clear(&mut self)
        ensures { self.new ≡ record self.old { walked = [] } }
    {
        unmark(&self.queue, &mut self.marks);
        self.queue.clear();
    }

    /// Puts the slot after those that were walked, unless it is among them. It takes no memory.
    pub fn take_in(&mut self, slot: Slot)
        requires { slot.at < self.old.bound }
        ensures { TakesIn self.old slot self.new }
    {
        self.take(slot);
    }

    /// Puts the slot after those that were walked, unless it is among them, and tells whether it
    /// was new. It takes no memory.
    pub fn take_new(&mut self, slot: Slot) -> bool
        requires { slot.at < self.old.bound }
        ensures taken { TakesIn self.old slot self.new }
        ensures new { IsTrue result ↔ (Contains self.old.walked slot → ⊥) }
    {
        let end = self.queue.len() as u32;
        self.take(slot) == end
    }

    /// Puts the slot after those that were walked, unless it is among them, and tells its place
    /// among them, counted from 0. It takes no memory.
    #[inline(always)]
    pub fn take(&mut self, slot: Slot) -> u32
        requires { slot.at < self.old.bound }
        ensures taken { TakesIn self.old slot self.new }
        ensures place { slice_get self.new.walked result ≡ Some slot }
    {
        let place = self.queue.len() as u32;
        let mark = &mut self.marks[slot.at as usize];
        if *mark != 0 {
            return *mark - 1;
        }
        *mark = place + 1;
        self.queue.push_reserved(slot);
        place
    }

    /// The slots of the last walk, in its order, or those that were taken in since.
    pub fn walked(&self) -> &[Slot]
        ensures value { result.now ≡ self.now.walked }
        ensures few { length self.now.walked ≤ self.now.bound }
        ensures most { length self.now.walked ≤ 4294967295 }
    {
        &self.queue
    }

    /// The place of the slot among those that were walked, counted from 0; `None` where it is not
    /// among them.
    pub fn place(&self, slot: Slot) -> Option<u32>
        ensures { MatchOption result (Contains self.now.walked slot → ⊥) (λ place. slice_get self.now.walked place ≡ Some slot) }
    {
        self.marks.get(slot.at as usize)?.checked_sub(1)
    }
}

/// Takes the marks of the slots away, which are all that are marked.
fn unmark(slots: &[Slot], marks: &mut [u32])
    requires marked { IsMarked (numbers slots.now) marks.old }
    ensures none { IsMarked [] marks.new }
    ensures long { length marks.new ≡ length marks.old }
{
    for slot in slots {
        marks[slot.at as usize] = 0;
    }
}
