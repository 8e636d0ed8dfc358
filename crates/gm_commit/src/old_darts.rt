//! The values that old darts get, set embedding by embedding.

ghost use Rattle.std.specs.Prelude.{◌≡◌, ◌+◌, ◌≤◌, length};
ghost use Rattle.std.specs.List.{Contains};
ghost use Rattle.gm_pending.specs.inner.ValueSources.{given_of};
ghost use Rattle.gm_commit.specs.declared.changes.ValueAt.{ValueAt};
ghost use Rattle.gm_commit.specs.inner.OldDartValues.{told_of, values_told};
ghost use Rattle.gm_commit.specs.inner.WrittenMap.{IsSettable, with_values};

use gm_arena::{Arena, Steps};
use gm_model::Value;
use gm_pending::{DecidedOrbits, DecidingInstance, given};
use gm_walk::{At, Mark};
use std::sync::ledger::Ledger;

/// Sets the values that old darts get, embedding by embedding.
pub(crate) fn set_values<L: Ledger>(
    by_embed: &[Option<DecidedOrbits>],
    arena: &mut Arena,
    steps: &mut Steps<L>,
)
    requires few { length by_embed.now ≤ 255 }
    requires settable { (at : ValueAt) → Contains (values_told by_embed.now) at → IsSettable arena.old at }
    ensures map { arena.new ≡ with_values arena.old (values_told by_embed.now) }
    ensures cost { steps.new ≡ steps.old + length (values_told by_embed.now) }
{
    for embed in 0..by_embed.len() as u8 {
        if let Some(orbits) = &by_embed[embed as usize] {
            set_values_of(
                embed,
                &orbits.instances,
                orbits.marks.as_slice(),
                arena,
                steps,
            );
        }
    }
}

/// Sets the values of the embedding that old darts get.
fn set_values_of<L: Ledger>(
    embed: u8,
    instances: &[DecidingInstance],
    marks: &[Mark],
    arena: &mut Arena,
    steps: &mut Steps<L>,
)
    requires { (at : ValueAt) → Contains (told_of embed instances.now marks.now) at → IsSettable arena.old at }
    ensures map { arena.new ≡ with_values arena.old (told_of embed instances.now marks.now) }
    ensures cost { steps.new ≡ steps.old + length (told_of embed instances.now marks.now) }
{
    let (mut last, mut value) = (0, given(instances, 0));
    for mark in marks {
        look_at(instances, mark.instance, &mut last, &mut value);
        if let At::Old(slot) = mark.at.unpack() {
            if let Some(value) = value {
                arena.set_value(slot, embed, value, steps);
            }
        }
    }
}

/// Looks up the value that was given to an instance, unless it is the one that was looked up last:
/// the marks of an instance mostly stand one after another.
#[inline(always)]
fn look_at(instances: &[DecidingInstance], index: u32, last: &mut u32, value: &mut Option<Value>)
    requires { value.old ≡ given_of instances.now last.old }
    ensures last { last.new ≡ index }
    ensures value { value.new ≡ given_of instances.now index }
{
    if *last != index {
        *last = index;
        *value = given(instances, index);
    }
}
