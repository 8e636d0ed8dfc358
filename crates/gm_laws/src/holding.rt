//! Whether all laws hold, in one pass over the darts that reads each neighbour once and looks for no
//! first breach. It goes on where something is wrong, so that nothing waits for what it found.
ghost use Rattle.std.specs.Prelude.{◌≡◌, ℕ, ◌+◌, ◌*◌, ◌<◌, ◌≤◌, length, All, IsTrue};
ghost use Rattle.gm_model.specs.Labels.{has};
ghost use Rattle.gm_arena.specs.declared.slot.Slot as declared;
ghost use Rattle.gm_arena.specs.inner.ArenaMap.{IsLiveSlot, name_at};
ghost use Rattle.gm_arena.specs.inner.Lawful.{IsLawful};
ghost use Rattle.gm_laws.specs.inner.Darts.{IsLabel};
ghost use Rattle.gm_laws.specs.inner.Faults.{KeepsLaws};
ghost use Rattle.gm_laws.specs.inner.Holding.{IsRowAt, DoMeet, AreSameAlong, Holds};
ghost use Rattle.gm_model.specs.declared.limit.TheConstants.{MOST_DIMENSION};

use gm_arena::{Arena, Slot, Steps};
use gm_model::{Embed, Mask, Value};
use std::sync::ledger::Ledger;

/// Whether each slot has a dart and all laws hold. Where some slot is free nothing is tested.
pub(crate) fn do_laws_hold<L: Ledger>(arena: &Arena, steps: &mut Steps<L>) -> bool
    ensures laws { IsTrue result → KeepsLaws arena.now }
    ensures lawful { IsLawful arena.now }
    ensures cost { let labels = arena.now.schema.dim + 1 in steps.new ≤ steps.old + (labels * labels + 1) * arena.now.count }
    ensures least { steps.old ≤ steps.new }
{
    let bound = arena.bound();
    if arena.is_dense() {
        return do_slots_hold(arena, bound, steps);
    }
    false
}

/// Whether all laws hold, where each slot has a dart.
// The compiler is told the labels of a surface and of a solid, and goes over them without a loop.
fn do_slots_hold<L: Ledger>(arena: &Arena, bound: usize, steps: &mut Steps<L>) -> bool
    requires lawful { IsLawful arena.now }
    requires bound { bound ≡ arena.now.bound }
    requires live { (at : ℕ) → at < arena.now.bound → IsLiveSlot arena.now at }
    requires count { arena.now.bound ≡ arena.now.count }
    ensures laws { IsTrue result → KeepsLaws arena.now }
    ensures cost { let labels = arena.now.schema.dim + 1 in steps.new ≤ steps.old + (labels * labels + 1) * arena.now.count }
    ensures least { steps.old ≤ steps.new }
{
    let labels = arena.schema().dim.top() as usize + 1;
    match labels {
        3 => do_slots_hold_along(arena, bound, 3, steps),
        4 => do_slots_hold_along(arena, bound, 4, steps),
        _ => do_slots_hold_along(arena, bound, labels, steps),
    }
}

/// The same for labels of which the caller may tell how many there are.
#[inline(always)]
fn do_slots_hold_along<L: Ledger>(
    arena: &Arena,
    bound: usize,
    labels: usize,
    steps: &mut Steps<L>,
) -> bool
    requires lawful { IsLawful arena.now }
    requires bound { bound ≡ arena.now.bound }
    requires labels { labels ≡ arena.now.schema.dim + 1 }
    requires live { (at : ℕ) → at < arena.now.bound → IsLiveSlot arena.now at }
    requires count { arena.now.bound ≡ arena.now.count }
    ensures laws { IsTrue result → KeepsLaws arena.now }
    ensures cost { let labels = arena.now.schema.dim + 1 in steps.new ≤ steps.old + (labels * labels + 1) * arena.now.count }
    ensures least { steps.old ≤ steps.new }
{
    let embeds = arena.schema().embeds.as_slice();
    let mut hold = true;
    for at in 0..bound {
        hold &= does_dart_hold(arena, embeds, labels, Slot { at: at as u32 }, steps);
    }
    hold
}

/// Whether the laws hold at the dart along each label.
#[inline(always)]
fn does_dart_hold<L: Ledger>(
    arena: &Arena,
    embeds: &[Embed],
    labels: usize,
    slot: Slot,
    steps: &mut Steps<L>,
) -> bool
    requires lawful { IsLawful arena.now }
    requires embeds { embeds.now ≡ arena.now.schema.embeds }
    requires labels { labels ≡ arena.now.schema.dim + 1 }
    requires live { IsLiveSlot arena.now slot.at }
    ensures holds { IsTrue result → (i : ℕ) → IsLabel arena.now i → Holds arena.now slot.at (name_at arena.now slot.at) i }
    ensures cost { let labels = arena.now.schema.dim + 1 in steps.new ≤ steps.old + (labels * labels + 1) }
    ensures least { steps.old ≤ steps.new }
{
    let own = arena.row(slot, steps);
    let mut hold = true;
    for label in 0..labels {
        hold &= does_label_hold(
            arena, embeds, labels, slot, own.alphas, own.values, label, steps,
        );
    }
    hold
}

/// Whether the laws hold at the dart along the label, where these are its neighbours and its values.
#[inline(always)]
fn does_label_hold<L: Ledger>(
    arena: &Arena,
    embeds: &[Embed],
    labels: usize,
    slot: Slot,
    alphas: &[Slot],
    values: &[Value],
    label: usize,
    steps: &mut Steps<L>,
) -> bool
    requires lawful { IsLawful arena.now }
    requires embeds { embeds.now ≡ arena.now.schema.embeds }
    requires labels { labels ≡ arena.now.schema.dim + 1 }
    requires row { IsRowAt arena.now slot.at alphas.now values.now }
    requires live { All (λ (s : declared.Slot). IsLiveSlot arena.now s.at) alphas.now }
    requires label { IsLabel arena.now label }
    ensures holds { IsTrue result → Holds arena.now slot.at (name_at arena.now slot.at) label }
    ensures cost { steps.new ≤ steps.old + (arena.now.schema.dim + 1) }
    ensures least { steps.old ≤ steps.new }
{
    let to = alphas[label];
    let row = arena.row(to, steps);
    let leads_back = is_same_slot(row.alphas[label], slot);
    let shares = does_share(embeds, label as u8, slot, to, values, row.values);
    let commutes = does_commute(arena, labels, label, alphas, row.alphas, steps);
    leads_back & shares & commutes
}

/// Whether the two are one.
fn is_same_slot(slot: Slot, other: Slot) -> bool
    ensures { IsTrue result → slot ≡ other }
{
    slot == other
}

/// Whether the label commutes with each distant label above it, where these are the neighbours of a
/// dart and those of its neighbour along the label.
#[inline(always)]
fn does_commute<L: Ledger>(
    arena: &Arena,
    labels: usize,
    label: usize,
    alphas: &[Slot],
    across: &[Slot],
    steps: &mut Steps<L>,
) -> bool
    requires lawful { IsLawful arena.now }
    requires labels { labels ≡ arena.now.schema.dim + 1 }
    requires label { IsLabel arena.now label }
    requires alphas { length alphas.now ≡ arena.now.schema.dim + 1 }
    requires across { length across.now ≡ arena.now.schema.dim + 1 }
    requires live { All (λ (s : declared.Slot). IsLiveSlot arena.now s.at) alphas.now }
    ensures meet { IsTrue result → DoMeet arena.now label alphas.now across.now }
    ensures cost { steps.new ≤ steps.old + arena.now.schema.dim }
    ensures least { steps.old ≤ steps.new }
{
    let mut meet = true;
    for above in label + 2..labels {
        meet &= across[above] == arena.alpha(alphas[above], label as u8, steps);
    }
    meet
}

/// Whether two neighbours along the label share the values of the embeddings whose orbits have it.
/// It is tested from the lower slot alone.
fn does_share(
    embeds: &[Embed],
    label: u8,
    slot: Slot,
    to: Slot,
    values: &[Value],
    others: &[Value],
) -> bool
    requires label { label ≤ MOST_DIMENSION }
    requires values { length values.now ≡ length embeds.now }
    requires others { length others.now ≡ length embeds.now }
    ensures same { IsTrue result → slot.at < to.at → AreSameAlong embeds.now label values.now others.now }
{
    if to.at <= slot.at {
        return true;
    }
    are_same_along(embeds, label, values, others)
}

/// Whether the values are the same in each embedding whose orbits have the label.
fn are_same_along(embeds: &[Embed], label: u8, values: &[Value], others: &[Value]) -> bool
    requires label { label ≤ MOST_DIMENSION }
    requires values { length values.now ≡ length embeds.now }
    requires others { length others.now ≡ length embeds.now }
    ensures same { IsTrue result → AreSameAlong embeds.now label values.now others.now }
{
    let mut same = true;
    for (embed, kept) in embeds.iter().enumerate() {
        same &= is_same_along(kept.mask, label, values[embed], others[embed]);
    }
    same
}

/// Whether the two values are the same, where the mask has the label.
fn is_same_along(mask: Mask, label: u8, value: Value, other: Value) -> bool
    requires label { label ≤ MOST_DIMENSION }
    ensures same { IsTrue result → IsTrue (has mask label) → other ≡ value }
{
    if mask.has(label) {
        return other == value;
    }
    true
}
