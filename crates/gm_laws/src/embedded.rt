//! The law that the darts of an embedding's orbit have one value.

ghost use Rattle.std.specs.Prelude.{◌≡◌, ◌↔◌, ◌+◌, ◌*◌, ◌<◌, ◌≤◌, true, length, slice_get, Some, MatchOption};
ghost use Rattle.std.specs.FinMap.{keys};
ghost use Rattle.gm_model.specs.Maps.{IsEmbedAt};
ghost use Rattle.gm_arena.specs.inner.ArenaMap.{IsLiveSlot, name_at};
ghost use Rattle.gm_arena.specs.inner.Lawful.{IsLawful};
ghost use Rattle.gm_arena.specs.inner.ArenaAsMap.{value};
ghost use Rattle.gm_laws.specs.inner.Darts.{IsFirst, IsOrbitLabel, HasSame, IsAlike, AreAlike, IsFirstUnlike};
ghost use Rattle.gm_laws.specs.inner.Faults.{ArePointedBack, DoCommute, AreValuesShared, IsFirstBreach};

use crate::breach::MapBreach;
use gm_arena::{Arena, Slot, Steps};
use gm_model::{Mask, Value};
use std::sync::ledger::Ledger;

/// The first embedding, and its first dart and label, along which its value changes, where all
/// neighbours lead back and distant labels commute.
pub(crate) fn first_not_embedded<L: Ledger>(
    arena: &Arena,
    names: &[u32],
    steps: &mut Steps<L>,
) -> Option<MapBreach>
    requires lawful { IsLawful arena.now }
    requires names { names.now ≡ keys arena.now.darts }
    requires back { ArePointedBack arena.now }
    requires commuting { DoCommute arena.now }
    ensures breach { MatchOption result (AreValuesShared arena.now) (IsFirstBreach arena.now) }
    ensures cost { steps.new ≤ steps.old + 8 * ((2 * (arena.now.schema.dim + 1) + 2) * length names.now + 2) }
    ensures least { steps.old ≤ steps.new }
{
    for (embed, kept) in arena.schema().embeds.as_slice().iter().enumerate() {
        if let Some((dart, other)) = first_not_alike(arena, names, embed, kept.mask, steps) {
            return Some(MapBreach::Embedding {
                embed: embed as u8,
                dart,
                other,
            });
        }
    }
    None
}

/// The first dart that differs from a neighbour along a label of the mask in the embedding's value,
/// and the first such neighbour.
fn first_not_alike<L: Ledger>(
    arena: &Arena,
    names: &[u32],
    embed: usize,
    mask: Mask,
    steps: &mut Steps<L>,
) -> Option<(u32, u32)>
    requires lawful { IsLawful arena.now }
    requires names { names.now ≡ keys arena.now.darts }
    requires embed { embed < length arena.now.schema.embeds }
    ensures darts { MatchOption result (AreAlike arena.now embed mask) (IsFirstUnlike arena.now embed mask) }
    ensures cost { steps.new ≤ steps.old + ((2 * (arena.now.schema.dim + 1) + 2) * length names.now + 2) }
    ensures least { steps.old ≤ steps.new }
{
    for name in names {
        let slot = arena.slot_of(*name, steps).unwrap();
        if let Some(label) = label_not_alike(arena, slot, embed, mask, steps) {
            let other = arena.alpha(slot, label, steps);
            return Some((*name, arena.name_of(other, steps)));
        }
    }
    None
}

/// The first label of the mask along which the dart's neighbour has another value of the embedding.
fn label_not_alike<L: Ledger>(
    arena: &Arena,
    slot: Slot,
    embed: usize,
    mask: Mask,
    steps: &mut Steps<L>,
) -> Option<u8>
    requires lawful { IsLawful arena.now }
    requires live { IsLiveSlot arena.now slot.at }
    requires embed { embed < length arena.now.schema.embeds }
    ensures label { let d = name_at arena.now slot.at in MatchOption result (IsAlike arena.now embed mask d) (IsFirst (IsOrbitLabel arena.now mask) (HasSame arena.now embed d)) }
    ensures cost { steps.new ≤ steps.old + (2 * (arena.now.schema.dim + 1) + 1) }
    ensures least { steps.old ≤ steps.new }
{
    let own = value_at(arena, slot, embed, steps);
    for label in 0..arena.schema().dim.top() + 1 {
        if mask.has(label) && !has_same(arena, slot, label, embed, own, steps) {
            return Some(label);
        }
    }
    None
}

/// Whether the dart's neighbour along the label has the dart's own value of the embedding.
fn has_same<L: Ledger>(
    arena: &Arena,
    slot: Slot,
    label: u8,
    embed: usize,
    own: Value,
    steps: &mut Steps<L>,
) -> bool
    requires lawful { IsLawful arena.now }
    requires live { IsLiveSlot arena.now slot.at }
    requires label { label ≤ arena.now.schema.dim }
    requires embed { embed < length arena.now.schema.embeds }
    requires own { own ≡ value arena.now embed (name_at arena.now slot.at) }
    ensures same { (result ≡ true) ↔ HasSame arena.now embed (name_at arena.now slot.at) label }
    ensures cost { steps.new ≡ steps.old + 2 }
{
    let to = arena.alpha(slot, label, steps);
    value_at(arena, to, embed, steps) == own
}

/// The dart's value of the embedding.
fn value_at<L: Ledger>(arena: &Arena, slot: Slot, embed: usize, steps: &mut Steps<L>) -> Value
    requires lawful { IsLawful arena.now }
    requires live { IsLiveSlot arena.now slot.at }
    requires embed { embed < length arena.now.schema.embeds }
    ensures value { result ≡ value arena.now embed (name_at arena.now slot.at) }
    ensures cost { steps.new ≡ steps.old + 1 }
{
    arena.row(slot, steps).values[embed]
}
