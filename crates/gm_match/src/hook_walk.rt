//! The walk of the first hook, with its turns.

ghost use Rattle.std.specs.Prelude.{◌≡◌, ℕ, List, ◌+◌, ◌*◌, ◌≤◌, [], length, take, IfOk};
ghost use Rattle.gm_arena.specs.inner.ArenaAsMap.{as_map};
ghost use Rattle.gm_arena.specs.inner.ArenaMap.{IsLiveSlot, name_at};
ghost use Rattle.gm_arena.specs.inner.Lawful.{IsLawful};
ghost use Rattle.gm_model.specs.Maps.{IsGeneralised};
ghost use Rattle.gm_model.specs.Orbits.{IsWalk};
ghost use Rattle.gm_walk.specs.inner.Cells.{AreCells};
ghost use Rattle.gm_walk.specs.inner.Room.{Fits};
ghost use Rattle.gm_walk.specs.inner.Turns.{IsTurn};
ghost use Rattle.gm_walk.specs.inner.Walks.{IsWord, along, names_of, AreLive};
ghost use Rattle.gm_match.specs.inner.Layout.{ends, walk_of};

use gm_arena::{Arena, Slot, Steps};
use gm_model::{Letter, OutOfMemory, Word};
use gm_walk::{Scratch, walk_turns};
use std::sync::ledger::Ledger;

/// The walk of a hook from its slot, and its turns in the empty vector, as `walk_turns` has them. Where
/// the word has one letter, the walk is the slot and the one that is answered, or the slot alone, as many
/// as there are turns; and else it stays in the scratch.
pub(crate) fn walk_hook<L: Ledger>(
    arena: &Arena,
    from: Slot,
    word: &Word,
    scratch: &mut Scratch,
    turns: &mut Vec<u32>,
    steps: &mut Steps<L>,
) -> Result<Slot, OutOfMemory>
    requires lawful { IsLawful arena.now }
    requires generalised { IsGeneralised (as_map arena.now) }
    requires live { IsLiveSlot arena.now from.at }
    requires word { IsWord arena.now.schema.dim word.now }
    requires fits { Fits scratch.old arena.now }
    requires empty { turns.old.items ≡ [] }
    ensures few { length word.now ≡ 1 → IfOk result (λ _. length turns.new.items ≤ 2) }
    ensures walk { IfOk result (λ to. IsWalk (along arena.now word.now) (length word.now) (name_at arena.now from.at) (names_of arena.now (walk_of (length word.now) (ends from to turns.new.items) scratch.new.walked))) }
    ensures live { IfOk result (λ to. AreLive arena.now (walk_of (length word.now) (ends from to turns.new.items) scratch.new.walked)) }
    ensures turns { IfOk result (λ to. AreCells (IsTurn arena.now word.now (names_of arena.now (walk_of (length word.now) (ends from to turns.new.items) scratch.new.walked))) (length (walk_of (length word.now) (ends from to turns.new.items) scratch.new.walked)) (length word.now) turns.new.items) }
    ensures cost { (walk : List ℕ) → IsWalk (along arena.now word.now) (length word.now) (name_at arena.now from.at) walk → steps.new ≤ steps.old + length walk * length word.now }
    ensures least { steps.old ≤ steps.new }
    ensures room { scratch.new.bound ≡ scratch.old.bound }
{
    if word.len() == 1 {
        let to = walk_edge(arena, from, word, turns, steps)?;
        return Ok(to);
    }
    walk_turns(arena, from, word, scratch, turns, steps)?;
    Ok(from)
}

/// The slots of a walk that `walk_hook` made.
pub(crate) fn walk_in<'a>(
    places: u8,
    both: &'a [Slot; 2],
    turns: &[u32],
    scratch: &'a Scratch,
) -> &'a [Slot]
    requires { places ≡ 1 → length turns.now ≤ 2 }
    ensures walk { result.now ≡ walk_of places (take (length turns.now) both.now) scratch.now.walked }
    ensures few { length result.now ≤ 4294967295 }
    ensures short { places ≡ 1 → length result.now ≤ 2 }
{
    if places == 1 {
        return &both[..turns.len()];
    }
    scratch.walked()
}

/// The neighbour of the slot along the only label of the word. The walk has the slot and its
/// neighbour, and either turns to the other; or the slot alone, where it is its own neighbour. So it
/// has as many slots as there are turns, which are put into the empty vector. Nothing is marked.
fn walk_edge<L: Ledger>(
    arena: &Arena,
    from: Slot,
    word: &Word,
    turns: &mut Vec<u32>,
    steps: &mut Steps<L>,
) -> Result<Slot, OutOfMemory>
    requires lawful { IsLawful arena.now }
    requires generalised { IsGeneralised (as_map arena.now) }
    requires live { IsLiveSlot arena.now from.at }
    requires word { IsWord arena.now.schema.dim word.now }
    requires one { length word.now ≡ 1 }
    requires empty { turns.old.items ≡ [] }
    ensures live { IfOk result (λ to. IsLiveSlot arena.now to.at) }
    ensures few { IfOk result (λ _. length turns.new.items ≤ 2) }
    ensures walk { IfOk result (λ to. IsWalk (along arena.now word.now) (length word.now) (name_at arena.now from.at) (names_of arena.now (ends from to turns.new.items))) }
    ensures turns { IfOk result (λ to. AreCells (IsTurn arena.now word.now (names_of arena.now (ends from to turns.new.items))) (length turns.new.items) (length word.now) turns.new.items) }
    ensures cost { steps.new ≤ steps.old + 1 }
    ensures least { steps.old ≤ steps.new }
{
    let Letter::At(label) = word.letter(0) else {
        unreachable!()
    };
    turns.reserve(2)?;
    let to = arena.alpha(from, label, steps);
    if to == from {
        turns.push_reserved(0);
        return Ok(to);
    }
    turns.push_reserved(1);
    turns.push_reserved(0);
    Ok(to)
}
