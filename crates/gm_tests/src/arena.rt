//! Slots that are free are used again.
ghost use Rattle.std.specs.Prelude.{◌≡◌, ℕ, ◌+◌, ◌<◌, ◌≤◌, []};
ghost use Rattle.gm_arena.specs.inner.ArenaMap.{alpha};

use crate::expect::expect_number;
use gm_arena::{Arena, Steps};
use gm_model::{Dim, Items, Schema};
use std::alloc::Global;
use std::process::Abort;
use std::sync::ledger::Ledger;

/// Adds eight darts without neighbours, by name from `first` on.
fn add_eight<L: Ledger>(rt: &impl Abort, arena: &mut Arena, first: u32, steps: &mut Steps<L>)
    requires first { first ≤ 8 }
    requires embeds { arena.old.schema.embeds ≡ [] }
    requires room { 8 ≤ arena.old.spare }
    requires names { 16 ≤ arena.old.reserved }
    ensures schema { arena.new.schema ≡ arena.old.schema }
    ensures room { arena.new.spare + 8 ≡ arena.old.spare }
    ensures names { arena.new.reserved ≡ arena.old.reserved }
{
    for name in first..first + 8 {
        assert!(rt; arena.slot_of(name, steps).is_none());
        arena.add(name, &[], steps);
    }
}

/// Makes each of the eight darts its own neighbour, along each label.
fn set_free<L: Ledger>(rt: &impl Abort, arena: &mut Arena, steps: &mut Steps<L>)
    requires { arena.old.schema.dim ≡ 2 }
    ensures free { (name label : ℕ) → name < 8 → label < 3 → alpha arena.new label name ≡ name }
    ensures schema { arena.new.schema ≡ arena.old.schema }
    ensures room { arena.new.spare ≡ arena.old.spare }
    ensures names { arena.new.reserved ≡ arena.old.reserved }
{
    for name in 0..8 {
        let slot = arena.slot_of(name, steps).expect(rt, "a dart");
        for label in 0..3 {
            assert!(rt; arena.bound() > 0);
            arena.set_alpha(slot, label, slot, steps);
        }
    }
}

/// Removes the eight darts, the only ones, each of which is free for every label.
fn remove_eight<L: Ledger>(rt: &impl Abort, arena: &mut Arena, steps: &mut Steps<L>)
    requires free { (name label : ℕ) → name < 8 → label < 3 → alpha arena.old label name ≡ name }
    requires dim { arena.old.schema.dim ≡ 2 }
    ensures schema { arena.new.schema ≡ arena.old.schema }
    ensures room { arena.new.spare ≡ arena.old.spare + 8 }
    ensures names { arena.new.reserved ≡ arena.old.reserved }
{
    expect_number(rt, arena.next() as usize, 8);
    for name in 0..8 {
        let slot = arena.slot_of(name, steps).expect(rt, "a dart");
        arena.remove(slot, steps);
    }
}

/// That `count` darts are live, `next` is the next name, and `bound` slots were ever in use.
fn expect_counts(rt: &impl Abort, arena: &Arena, count: usize, next: usize, bound: usize)
    ensures { arena.now.count ≡ count }
{
    expect_number(rt, arena.count() as usize, count);
    expect_number(rt, arena.next() as usize, next);
    expect_number(rt, arena.bound(), bound);
}

/// Fills an empty arena, empties it, and fills the slots that are free.
fn fill_twice<L: Ledger>(rt: &impl Abort, arena: &mut Arena, steps: &mut Steps<L>)
    requires dim { arena.old.schema.dim ≡ 2 }
    requires embeds { arena.old.schema.embeds ≡ [] }
{
    expect_counts(rt, arena, 0, 0, 0);
    arena.reserve(8, 16).expect(rt, "memory");
    add_eight(rt, arena, 0, steps);
    expect_counts(rt, arena, 8, 8, 8);
    set_free(rt, arena, steps);
    remove_eight(rt, arena, steps);
    expect_counts(rt, arena, 0, 8, 8);
    add_eight(rt, arena, 8, steps);
    expect_counts(rt, arena, 8, 16, 8);
}

/// A schema without embeddings.
fn schema(rt: &impl Abort, alloc: Global) -> Schema
    ensures dim { result.dim ≡ 2 }
    ensures embeds { result.embeds ≡ [] }
{
    Schema {
        dim: Dim::new(2).expect(rt, "a dimension"),
        embeds: Items::new(Vec::new(alloc)),
    }
}

/// Slots are used again.
pub(crate) fn check_slots<L: Ledger>(rt: &impl Abort, alloc: Global, steps: &mut Steps<L>) {
    let mut arena = Arena::new(alloc, schema(rt, alloc));
    fill_twice(rt, &mut arena, steps);
}
