//! The walk of an orbit from one dart.

ghost use Rattle.std.specs.Prelude.{◌≡◌, ℕ, ◌+◌, ◌*◌, ◌<◌, ◌≤◌, length, slice_get, MatchOption, Some, IsTrue};
ghost use Rattle.std.specs.List.{Contains};
ghost use Rattle.gm_arena.specs.inner.ArenaMap.{IsLiveSlot, name_at};
ghost use Rattle.gm_arena.specs.inner.Lawful.{IsLawful};
ghost use Rattle.gm_model.specs.Labels.{has};
ghost use Rattle.gm_model.specs.Orbits.{IsWalk};
ghost use Rattle.gm_walk.specs.inner.Room.{Fits};
ghost use Rattle.gm_walk.specs.inner.Lent.{slots_of, bound_of, lender_of};
ghost use Rattle.gm_walk.specs.inner.Walks.{IsWord, letters_of, along, names_of, AreLive, IsWalkedTo};
ghost use Rattle.gm_model.specs.declared.limit.TheConstants.{MOST_DIMENSION};

use crate::scratch::Scratch;
use gm_arena::{Arena, Slot, Steps};
use gm_model::{Letter, Mask, Word};
use std::sync::ledger::Ledger;

/// A walk, in the scratch that was lent to it. Contracts see its slots in their order.
#[derive(Drop)]
pub struct Walk<'s> {
    scratch: &'s mut Scratch,
}

impl Walk<'_> {
    /// The slots of the walk, in its order.
    pub fn slots(&self) -> &[Slot]
        ensures value { result.now ≡ slots_of self.now }
        ensures most { length (slots_of self.now) ≤ 4294967295 }
    {
        self.scratch.walked()
    }

    /// The place of the slot in the walk, counted from 0; `None` where it is not in the walk.
    pub fn place(&self, slot: Slot) -> Option<u32>
        ensures { MatchOption result (Contains (slots_of self.now) slot → ⊥) (λ place. slice_get (slots_of self.now) place ≡ Some slot) }
    {
        self.scratch.place(slot)
    }
}

/// The walk from a live slot along the labels of the word, by their places. The scratch has its room
/// again once the walk is no longer used.
pub fn walk_word<'s, L: Ledger>(
    arena: &Arena,
    from: Slot,
    word: &Word,
    scratch: &'s mut Scratch,
    steps: &mut Steps<L>,
) -> Walk<'s>
    requires live { IsLiveSlot arena.now from.at }
    requires word { IsWord arena.now.schema.dim word.now }
    requires fits { Fits scratch.old arena.now }
    ensures walk { IsWalk (along arena.now word.now) (length word.now) (name_at arena.now from.at) (names_of arena.now (slots_of result)) }
    ensures live { AreLive arena.now (slots_of result) }
    ensures cost { steps.new ≤ steps.old + 4 * (arena.now.schema.dim + 1) * length (slots_of result) }
    ensures least { steps.old ≤ steps.new }
    ensures room { bound_of result ≡ scratch.old.bound }
    ensures lender { lender_of result ≡ scratch.entry.ghost_name }
{
    prove!((from.at as usize) < arena.bound());
    scratch.clear();
    scratch.take_in(from);
    let mut at = 0;
    while at < scratch.walked().len() {
        take_in_neighbours(arena, at, word, scratch, steps);
        at += 1;
    }
    Walk { scratch }
}

/// The walk from a live slot along the labels of the mask, ascending. The scratch has its room again
/// once the walk is no longer used.
pub fn walk_mask<'s, L: Ledger>(
    arena: &Arena,
    from: Slot,
    mask: Mask,
    scratch: &'s mut Scratch,
    steps: &mut Steps<L>,
) -> Walk<'s>
    requires live { IsLiveSlot arena.now from.at }
    requires mask { (label : ℕ) → label ≤ MOST_DIMENSION → IsTrue (has mask label) → label ≤ arena.now.schema.dim }
    requires fits { Fits scratch.old arena.now }
    ensures walk { IsWalk (along arena.now (letters_of mask)) (length (letters_of mask)) (name_at arena.now from.at) (names_of arena.now (slots_of result)) }
    ensures live { AreLive arena.now (slots_of result) }
    ensures cost { steps.new ≤ steps.old + 4 * (arena.now.schema.dim + 1) * length (slots_of result) }
    ensures least { steps.old ≤ steps.new }
    ensures room { bound_of result ≡ scratch.old.bound }
    ensures lender { lender_of result ≡ scratch.entry.ghost_name }
{
    walk_word(arena, from, &word_of(mask), scratch, steps)
}

/// Takes in the neighbours of the dart at a place of the walk, by the places of the word.
pub(crate) fn take_in_neighbours<L: Ledger>(
    arena: &Arena,
    at: usize,
    word: &Word,
    scratch: &mut Scratch,
    steps: &mut Steps<L>,
)
    requires lawful { IsLawful arena.now }
    requires within { at < length scratch.old.walked }
    requires live { AreLive arena.now scratch.old.walked }
    requires word { IsWord arena.now.schema.dim word.now }
    requires fits { Fits scratch.old arena.now }
    ensures walk { (d : ℕ) → IsWalkedTo arena.now word.now d at scratch.old.walked → IsWalkedTo arena.now word.now d (at + 1) scratch.new.walked }
    ensures longer { length scratch.old.walked ≤ length scratch.new.walked }
    ensures live { AreLive arena.now scratch.new.walked }
    ensures bound { scratch.new.bound ≡ scratch.old.bound }
    ensures cost { steps.new ≤ steps.old + 4 * (arena.now.schema.dim + 1) }
    ensures least { steps.old ≤ steps.new }
{
    let slot = scratch.walked()[at];
    for place in 0..word.len() {
        let Letter::At(label) = word.letter(place) else {
            unreachable!()
        };
        scratch.take_in(arena.alpha(slot, label, steps));
    }
}

/// The labels of the mask as a word, ascending.
pub fn word_of(mask: Mask) -> Word
    ensures { result ≡ letters_of mask }
{
    let mut letters = [Letter::Gone; 8];
    let mut used = 0;
    for label in [0, 1, 2, 3, 4, 5, 6, 7] {
        if mask.has(label) {
            letters[used] = Letter::At(label);
            used += 1;
        }
    }
    Word::new(&letters[..used]).unwrap()
}
