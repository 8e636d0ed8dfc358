//! Maps and plans, which are made of texts.
ghost use Rattle.std.specs.Prelude.{◌≡◌, IsTrue, []};
ghost use Rattle.std.specs.List.{AllByRecursion};
ghost use Rattle.gm_model.specs.Kinds.{IsTyped};
ghost use Rattle.gm_model.specs.Maps.{IsSchema, IsSound};
ghost use Rattle.gm_model.specs.Rules.{rule_of};
ghost use Rattle.gm_model.specs.Structure.{IsInRange, IsWithinLimits};
ghost use Rattle.gm_arena.specs.inner.ArenaAsMap.{as_map};

use gm_arena::{Arena, Steps};
use gm_mapfile::{MapRead, read_map};
use gm_model::{Book, Schema};
use gm_plan::{Plan, compile};
use std::alloc::Global;
use std::process::Abort;
use std::sync::ledger::Ledger;

/// A square of eight darts.
pub(crate) const SQUARE: &str =
    "gmap 1 dim 2 darts 8 0 1 7 0 1 0 2 1 2 3 1 2 3 2 4 3 4 5 3 4 5 4 6 5 6 7 5 6 7 6 0 7";

/// The map that the text stands for.
pub(crate) fn map<L: Ledger>(
    rt: &impl Abort,
    alloc: Global,
    text: &str,
    steps: &mut Steps<L>,
) -> Arena
    ensures { IsSound (as_map result) }
{
    let MapRead { arena, .. } = read_map(alloc, text.as_bytes(), steps).expect(rt, "a map");
    arena
}

/// The plan of the first rule of a book that was read.
pub(crate) fn plan<'b>(rt: &impl Abort, alloc: Global, book: &'b Book) -> Plan<'b>
    requires schema { IsSchema book.now.schema }
    requires in_range { AllByRecursion (λ rule. IsInRange book.now.schema (rule_of rule)) book.now.rules }
    requires limits { AllByRecursion (λ rule. IsWithinLimits (rule_of rule)) book.now.rules }
    requires typed { AllByRecursion (λ rule. IsTyped book.now.schema (rule_of rule)) book.now.rules }
{
    let rules = book.rules.as_slice();
    assert!(rt; rules.len() > 0);
    compile(alloc, &book.schema, &rules[0]).expect(rt, "a plan")
}

/// Whether both schemas have the same dimension and no embeddings.
pub(crate) fn are_same(one: &Schema, other: &Schema) -> bool
    ensures same { IsTrue result → one.now ≡ other.now }
    ensures no_embeds { IsTrue result → other.now.embeds ≡ [] }
{
    if one.embeds.as_slice().len() != 0 || other.embeds.as_slice().len() != 0 {
        return false;
    }
    one.dim.top() == other.dim.top()
}
