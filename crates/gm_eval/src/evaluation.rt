//! The value of an expression where it is read, for callers.

ghost use Rattle.std.specs.Prelude.{◌≡◌, ◌+◌, ◌*◌, ◌<◌, ◌≤◌, ◌⊎◌, ℕ, IsSome, MatchOption};
ghost use Rattle.std.specs.List.{Contains};
ghost use Rattle.gm_arena.specs.inner.ArenaAsMap.{as_map};
ghost use Rattle.gm_model.specs.Expressions.{HasValue, HasNoValue, HasUnits};
ghost use Rattle.gm_model.specs.Trees.{tree_of};
ghost use Rattle.gm_walk.specs.inner.Room.{Fits};
ghost use Rattle.gm_eval.specs.inner.Keeping.{AreKept};
ghost use Rattle.gm_eval.specs.declared.kept.Collector.{Collector as CollectorOf};
ghost use Rattle.gm_eval.specs.inner.Places.{AreLiveAt, IsTypedFor, reading_in};
ghost use Rattle.gm_eval.specs.inner.Sharing.{AreKeptOnce, HasRoom, HasUnitsBeside, IsAtHand, IsShared, Reads, StillKept, collectors_of};

use crate::kept::Kept;
use crate::reader::Reader;
use gm_arena::{Arena, Steps};
use gm_model::{Expr, MOST_DARTS, Value};
use gm_plan::Instances;
use gm_walk::Scratch;
use std::sync::ledger::Ledger;

/// The value of the expression at a position, read in the map as it is; `None` exactly where it has
/// no value there. It takes no memory.
pub fn eval<L: Ledger>(
    arena: &Arena,
    found: &Instances,
    position: u32,
    params: &[Value],
    expr: &Expr,
    scratch: &mut Scratch,
    steps: &mut Steps<L>,
) -> Option<Value>
    requires position { position < found.now.positions }
    requires live { AreLiveAt arena.now found.now position }
    requires typed { IsTypedFor arena.now.schema found.now.nodes params.now (tree_of expr.now) }
    requires fits { Fits scratch.old arena.now }
    ensures value { let reading = reading_in arena.now found.now position params.now in
        MatchOption result (HasNoValue reading (tree_of expr.now)) (HasValue reading (tree_of expr.now)) }
    ensures cost { (u : ℕ) → HasUnits (reading_in arena.now found.now position params.now) (tree_of expr.now) u
        → steps.new ≤ steps.old + 6 * (arena.now.schema.dim + 1) * u }
    ensures least { steps.old ≤ steps.new }
    ensures room { scratch.new.bound ≡ scratch.old.bound }
{
    let mut kept = Kept::closed();
    eval_keeping(
        arena, found, position, params, expr, &mut kept, scratch, steps,
    )
}

/// The value of the expression at a position, as `eval` gives it. What is collected over an orbit that
/// holds a node at all positions is kept for the next reading in the same map, at the same instances.
// Inlined, it gives a value where its caller wants it, and the outermost form is read without a call.
#[inline(always)]
pub fn eval_keeping<L: Ledger>(
    arena: &Arena,
    found: &Instances,
    position: u32,
    params: &[Value],
    expr: &Expr,
    kept: &mut Kept,
    scratch: &mut Scratch,
    steps: &mut Steps<L>,
) -> Option<Value>
    requires position { position < found.now.positions }
    requires live { AreLiveAt arena.now found.now position }
    requires typed { IsTypedFor arena.now.schema found.now.nodes params.now (tree_of expr.now) }
    requires fits { Fits scratch.old arena.now }
    requires kept { AreKept arena.now found.now params.now kept.old.entries }
    ensures value { let reading = reading_in arena.now found.now position params.now in
        MatchOption result (HasNoValue reading (tree_of expr.now)) (HasValue reading (tree_of expr.now)) }
    ensures cost { (u : ℕ) → HasUnits (reading_in arena.now found.now position params.now) (tree_of expr.now) u
        → steps.new ≤ steps.old + 6 * (arena.now.schema.dim + 1) * u }
    ensures cheap { (u : ℕ) → HasUnitsBeside (IsAtHand kept.old.entries) (reading_in arena.now found.now position params.now) (tree_of expr.now) u
        → steps.new ≤ steps.old + 6 * (arena.now.schema.dim + 1) * u }
    ensures least { steps.old ≤ steps.new }
    ensures room { scratch.new.bound ≡ scratch.old.bound }
    ensures kept { AreKept arena.now found.now params.now kept.new.entries }
    ensures stays { StillKept kept.old.entries kept.new.entries }
    ensures reader { kept.new.reader ≡ kept.old.reader }
    ensures among { (c : CollectorOf) → IsAtHand kept.new.entries c → IsAtHand kept.old.entries c ⊎ Contains (collectors_of (tree_of expr.now)) c }
    ensures once { AreKeptOnce kept.old.entries → AreKeptOnce kept.new.entries }
    ensures remembers { IsSome result → HasRoom kept.new.entries → (c : CollectorOf) → Reads (reading_in arena.now found.now position params.now) (tree_of expr.now) c
        → IsShared arena.now found.now position c → IsAtHand kept.new.entries c }
{
    // The arena tells here what its type keeps.
    prove!(arena.count() <= MOST_DARTS);
    let reader = Reader {
        arena,
        found,
        position,
        params,
    };
    reader.value(expr, &mut kept.entries, scratch, steps)
}
