//! Totals and extremes of an embedding's values over slots.

ghost use Rattle.std.specs.Prelude.{◌≡◌, ◌+◌, ◌<◌, ◌≤◌, length, IsSome, MatchOption, Some};
ghost use Rattle.std.specs.Int.{int_max, int_min};
ghost use Rattle.std.specs.List.{fold};
ghost use Rattle.gm_model.specs.Expressions.{IsMade};
ghost use Rattle.gm_model.specs.Kinds.{sum_kind};
ghost use Rattle.gm_model.specs.declared.value.Kind.{Kind as KindOf};
ghost use Rattle.gm_walk.specs.inner.Walks.{AreLive};
ghost use Rattle.gm_eval.specs.inner.Made.{IsNone};
ghost use Rattle.gm_eval.specs.inner.Sums.{first_at, part, parts_at, parts_for, sum_of};

use crate::numbers::{int, vec2, vec3};
use gm_arena::{Arena, Slot, Steps};
use gm_model::{Kind, Value};
use std::sync::ledger::Ledger;

/// The sum of values, component by component. It stays 0 for components that they don't have.
#[derive(Clone, Copy)]
pub(crate) struct Totals {
    x: i128,
    y: i128,
    z: i128,
}

impl Totals {
    /// The sum as a value, where the values that were added are of this kind.
    pub(crate) fn value(self, kind: Kind) -> Option<Value>
        requires kind { IsSome (sum_kind kind) }
        ensures { (sum : KindOf) → sum_kind kind ≡ Some sum → MatchOption result
            (IsNone (IsMade sum (parts_for kind self.x self.y self.z)))
            (IsMade sum (parts_for kind self.x self.y self.z)) }
    {
        match kind {
            Kind::Int => int(self.x),
            Kind::Vec2 => vec2(self.x, self.y),
            Kind::Vec3 | Kind::Rgb => vec3(self.x, self.y, self.z),
            Kind::Bool => unreachable!(),
        }
    }
}

/// The exact sum of the embedding's values at the slots.
pub(crate) fn add_up<L: Ledger>(
    arena: &Arena,
    slots: &[Slot],
    embed: u8,
    steps: &mut Steps<L>,
) -> Totals
    requires live { AreLive arena.now slots.now }
    requires few { length slots.now ≤ 4294967295 }
    requires embed { embed < length arena.now.schema.embeds }
    ensures x { result.x ≡ sum_of (parts_at arena.now embed 0 slots.now) }
    ensures y { result.y ≡ sum_of (parts_at arena.now embed 1 slots.now) }
    ensures z { result.z ≡ sum_of (parts_at arena.now embed 2 slots.now) }
    ensures cost { steps.new ≡ steps.old + length slots.now }
{
    let mut totals = Totals { x: 0, y: 0, z: 0 };
    for slot in slots {
        let (x, y, z) = parts(arena.value(*slot, embed, steps));
        totals.x += x as i128;
        totals.y += y as i128;
        totals.z += z as i128;
    }
    totals
}

/// The least and the greatest of the embedding's numbers at the slots, of which there is one at least.
pub(crate) fn extremes<L: Ledger>(
    arena: &Arena,
    slots: &[Slot],
    embed: u8,
    steps: &mut Steps<L>,
) -> (i64, i64)
    requires some { 1 ≤ length slots.now }
    requires live { AreLive arena.now slots.now }
    requires embed { embed < length arena.now.schema.embeds }
    ensures least { result.0 ≡ fold int_min (first_at arena.now embed slots.now) (parts_at arena.now embed 0 slots.now) }
    ensures greatest { result.1 ≡ fold int_max (first_at arena.now embed slots.now) (parts_at arena.now embed 0 slots.now) }
    ensures cost { steps.new ≡ steps.old + length slots.now + 1 }
{
    let mut least = parts(arena.value(slots[0], embed, steps)).0;
    let mut greatest = least;
    for slot in slots {
        let number = parts(arena.value(*slot, embed, steps)).0;
        least = least.min(number);
        greatest = greatest.max(number);
    }
    (least, greatest)
}

/// The components of a value, 0 for those that it doesn't have.
fn parts(value: Value) -> (i64, i64, i64)
    ensures x { result.0 ≡ part 0 value }
    ensures y { result.1 ≡ part 1 value }
    ensures z { result.2 ≡ part 2 value }
{
    match value {
        Value::Int(x) => (x, 0, 0),
        Value::Bool(_) => (0, 0, 0),
        Value::Vec2(x, y) => (x, y, 0),
        Value::Vec3(x, y, z) => (x, y, z),
        Value::Rgb(red, green, blue) => (red as i64, green as i64, blue as i64),
    }
}
