//! Walks in a square of eight darts.
ghost use Rattle.std.specs.Prelude.{◌≡◌};
ghost use Rattle.gm_walk.specs.inner.Lent.{slots_of};
ghost use Rattle.gm_walk.specs.inner.Room.{Fits};
ghost use Rattle.gm_walk.specs.inner.Walks.{AreLive, IsWord};

use crate::expect::{expect_number, expect_same};
use crate::texts::{SQUARE, map};
use gm_arena::{Arena, Slot, Steps};
use gm_model::{Letter, Word};
use gm_walk::{Scratch, Walk, walk_word};
use std::alloc::Global;
use std::process::Abort;
use std::sync::ledger::Ledger;

/// The word of these letters, which are labels of dimension 2.
fn low_word(rt: &impl Abort, letters: &[Letter]) -> Word
    ensures { IsWord 2 result }
{
    let word = Word::new(letters).expect(rt, "a word");
    for place in 0..word.len() {
        match word.letter(place) {
            Letter::At(label) if label <= 2 => {}
            _ => panic!(rt; "no label of dimension 2"),
        }
    }
    word
}

/// The walk has these names, and the darts of the square have their places in it.
fn expect_walk<L: Ledger>(
    rt: &impl Abort,
    arena: &Arena,
    walk: &Walk<'_>,
    names: &[u32],
    steps: &mut Steps<L>,
)
    requires { AreLive arena.now (slots_of walk.now) }
{
    expect_names(rt, arena, walk.slots(), names, steps);
    for name in 0..8 {
        expect_place(rt, arena, walk, name, names, steps);
    }
}

/// The darts at these slots have these names.
fn expect_names<L: Ledger>(
    rt: &impl Abort,
    arena: &Arena,
    slots: &[Slot],
    names: &[u32],
    steps: &mut Steps<L>,
)
    requires { AreLive arena.now slots.now }
{
    expect_number(rt, slots.len(), names.len());
    for (place, slot) in slots.iter().enumerate() {
        expect_number(
            rt,
            arena.name_of(*slot, steps) as usize,
            names[place] as usize,
        );
    }
}

/// The dart of this name has the place in the walk that the name has among these.
fn expect_place<L: Ledger>(
    rt: &impl Abort,
    arena: &Arena,
    walk: &Walk<'_>,
    name: u32,
    names: &[u32],
    steps: &mut Steps<L>,
) {
    let slot = arena.slot_of(name, steps).expect(rt, "a dart");
    let place = names.iter().position(|other| *other == name);
    expect_same(rt, &walk.place(slot).map(|place| place as usize), &place);
}

/// A name, a word, and the names of the walk that starts at the dart of the name.
type Case<'a> = (u32, &'a [Letter], &'a [u32]);

static WORDS: [Case; 4] = [
    (
        0,
        &[Letter::At(0), Letter::At(1)],
        &[0, 1, 7, 2, 6, 3, 5, 4],
    ),
    (0, &[], &[0]),
    (
        3,
        &[Letter::At(1), Letter::At(0)],
        &[3, 4, 2, 5, 1, 6, 0, 7],
    ),
    (6, &[Letter::At(0), Letter::At(2)], &[6, 7]),
];

fn walk_words<L: Ledger>(
    rt: &impl Abort,
    arena: &Arena,
    scratch: &mut Scratch,
    steps: &mut Steps<L>,
)
    requires { Fits scratch.old arena.now }
{
    assert!(rt; arena.schema().dim.top() == 2);
    for (from, letters, names) in &WORDS {
        let from = arena.slot_of(*from, steps).expect(rt, "a dart");
        let word = low_word(rt, *letters);
        let walk = walk_word(arena, from, &word, scratch, steps);
        expect_walk(rt, arena, &walk, *names, steps);
    }
}

/// A square is walked from some of its darts.
pub(crate) fn walk_square<L: Ledger>(rt: &impl Abort, alloc: Global, steps: &mut Steps<L>) {
    let arena = map(rt, alloc, SQUARE, steps);
    let mut scratch = Scratch::new(alloc);
    scratch.fit(&arena).expect(rt, "memory");
    walk_words(rt, &arena, &mut scratch, steps);
}
