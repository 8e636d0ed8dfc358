//! A walk with its turns: the places to which each of its places leads.

ghost use Rattle.std.specs.Prelude.{◌≡◌, ℕ, List, ◌+◌, ◌*◌, ◌<◌, ◌≤◌, [], length, OnOk, OnErr};
ghost use Rattle.gm_arena.specs.inner.ArenaMap.{IsLiveSlot, name_at};
ghost use Rattle.gm_arena.specs.inner.Lawful.{IsLawful};
ghost use Rattle.gm_model.specs.Orbits.{IsWalk};
ghost use Rattle.gm_walk.specs.inner.Cells.{AreCells};
ghost use Rattle.gm_walk.specs.inner.Room.{Fits};
ghost use Rattle.gm_walk.specs.inner.Turns.{IsBrokenOff, IsTurn};
ghost use Rattle.gm_walk.specs.inner.Walks.{IsWord, along, names_of, AreLive, IsWalkedTo};

use crate::scratch::Scratch;
use gm_arena::{Arena, Slot, Steps};
use gm_model::{Letter, OutOfMemory, Word};
use std::sync::ledger::Ledger;

/// The walk from a live slot along the labels of the word, by their places, which stays in the
/// scratch; and into the empty vector, for each place of the walk, the places of the walk to which
/// it turns, by the places of the word. Each neighbour is looked up once. Where memory ran out,
/// both have what was found so far, and the scratch fits as it did.
pub fn walk_turns<L: Ledger>(
    arena: &Arena,
    from: Slot,
    word: &Word,
    scratch: &mut Scratch,
    turns: &mut Vec<u32>,
    steps: &mut Steps<L>,
) -> Result<(), OutOfMemory>
    requires live { IsLiveSlot arena.now from.at }
    requires word { IsWord arena.now.schema.dim word.now }
    requires fits { Fits scratch.old arena.now }
    requires empty { turns.old.items ≡ [] }
    ensures walk { OnOk result (IsWalk (along arena.now word.now) (length word.now) (name_at arena.now from.at) (names_of arena.now scratch.new.walked)) }
    ensures live { AreLive arena.now scratch.new.walked }
    ensures turns { OnOk result (AreCells (IsTurn arena.now word.now (names_of arena.now scratch.new.walked)) (length scratch.new.walked) (length word.now) turns.new.items) }
    ensures err { OnErr result (IsBrokenOff arena.now word.now (name_at arena.now from.at) (names_of arena.now scratch.new.walked) turns.new.items) }
    ensures cost { (walk : List ℕ) → IsWalk (along arena.now word.now) (length word.now) (name_at arena.now from.at) walk → steps.new ≤ steps.old + length walk * length word.now }
    ensures least { steps.old ≤ steps.new }
    ensures room { scratch.new.bound ≡ scratch.old.bound }
{
    prove!((from.at as usize) < arena.bound());
    scratch.clear();
    scratch.take_in(from);
    let mut at = 0;
    while at < scratch.walked().len() {
        take_in_turns(arena, at, word, scratch, turns, steps)?;
        at += 1;
    }
    Ok(())
}

/// Takes in the neighbours of the dart at a place of the walk, by the places of the word, and puts
/// their places after the turns of the places before it.
fn take_in_turns<L: Ledger>(
    arena: &Arena,
    at: usize,
    word: &Word,
    scratch: &mut Scratch,
    turns: &mut Vec<u32>,
    steps: &mut Steps<L>,
) -> Result<(), OutOfMemory>
    requires lawful { IsLawful arena.now }
    requires within { at < length scratch.old.walked }
    requires live { AreLive arena.now scratch.old.walked }
    requires word { IsWord arena.now.schema.dim word.now }
    requires fits { Fits scratch.old arena.now }
    ensures walk { OnOk result ((d : ℕ) → IsWalkedTo arena.now word.now d at scratch.old.walked → IsWalkedTo arena.now word.now d (at + 1) scratch.new.walked) }
    ensures turns { OnOk result (AreCells (IsTurn arena.now word.now (names_of arena.now scratch.old.walked)) at (length word.now) turns.old.items → AreCells (IsTurn arena.now word.now (names_of arena.now scratch.new.walked)) (at + 1) (length word.now) turns.new.items) }
    ensures err { OnErr result ((d : ℕ) → IsWalkedTo arena.now word.now d at scratch.old.walked → AreCells (IsTurn arena.now word.now (names_of arena.now scratch.old.walked)) at (length word.now) turns.old.items → IsBrokenOff arena.now word.now d (names_of arena.now scratch.new.walked) turns.new.items) }
    ensures longer { length scratch.old.walked ≤ length scratch.new.walked }
    ensures live { AreLive arena.now scratch.new.walked }
    ensures bound { scratch.new.bound ≡ scratch.old.bound }
    ensures cost { steps.new ≤ steps.old + length word.now }
    ensures least { steps.old ≤ steps.new }
{
    let slot = scratch.walked()[at];
    for place in 0..word.len() {
        let Letter::At(label) = word.letter(place) else {
            unreachable!()
        };
        turns.push(scratch.take(arena.alpha(slot, label, steps)))?;
    }
    Ok(())
}
