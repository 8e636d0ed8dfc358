//! The arena of the darts that a text lists.
//!
//! The lines are brought into the order of their names where the text has another, so that slots follow
//! names. Where the names then run from 0 on and each neighbour is one of them, the arena is made of the
//! lines at once and takes their values over, and nothing is looked up. Else the darts are added one
//! after another, each free for every label, and then linked to their neighbours. A name above all that
//! were added is that of no dart.
ghost use Rattle.gm_model.specs.Limits.{most_darts, most_names};
ghost use Rattle.gm_model.specs.Maps.{IsSchema};
ghost use Rattle.std.specs.Prelude.{◌≡◌, ℕ, ◌+◌, ◌*◌, ◌/◌, ◌<◌, ◌≤◌, length, get_or, min, nat_lt, if◌then◌else◌, Some, None, All, IsTrue, IsPermutation, MatchOption, IfOk, IfErr, IfSome, IfNone, OnSome, OnOk};
ghost use Rattle.std.specs.FinMap.{get};
ghost use Rattle.gm_arena.specs.inner.ArenaMap.{IsAt, IsLiveName};
ghost use Rattle.gm_arena.specs.inner.Lines.{AreLines};
ghost use Rattle.gm_mapfile.specs.inner.Draft.{version_in};
ghost use Rattle.gm_mapfile.specs.MapFaults.{AreBelow, AreBelowStated};
ghost use Rattle.gm_mapfile.specs.inner.Rows.{rows_in, darts_in};
ghost use Rattle.gm_mapfile.specs.inner.Faults.{IsNameFault};
ghost use Rattle.gm_mapfile.specs.inner.Building.{AreInRoom, AreSlotsLive, AreWhole, AreLive, AreValued, IsFresh, IsNextLeast, AreAdded, IsNotBelow, IsLeastNotBelowStated, IsNextSet, IsRelinked, IsDartLinked, IsLabelWithoutTarget, AreLinkedUnless, IsHeld};

use crate::fault::MapFault;
use crate::ordering::in_order;
use crate::reading::Draft;
use gm_arena::{Arena, Slot, Steps};
use gm_model::{OutOfMemory, Schema, Value};
use std::alloc::Global;
use std::sync::ledger::Ledger;

/// The arena of the darts in the lines of the draft, each linked to its neighbours. The fault is
/// a name that two darts have, one that isn't below the next name where the text states it, or a
/// neighbour that is no dart.
pub(crate) fn build<L: Ledger>(
    alloc: Global,
    draft: Draft,
    steps: &mut Steps<L>,
) -> Result<Arena, MapFault>
    requires schema { IsSchema draft.schema }
    requires room { AreInRoom draft.schema draft.numbers.items draft.values.items }
    requires next { IfSome draft.stated (λ next. next ≤ most_names) }
    ensures held { IfOk result (IsHeld (version_in draft.stated) draft.schema (darts_in draft.schema draft.numbers.items draft.values.items)) }
    ensures fault { IfErr result (IsNameFault (version_in draft.stated) draft.schema.dim (darts_in draft.schema draft.numbers.items draft.values.items)) }
    ensures most { steps.new ≤ steps.old + (2 * draft.schema.dim + 5) * length (darts_in draft.schema draft.numbers.items draft.values.items) }
    ensures least { IfOk result (λ arena. steps.old + arena.count ≤ steps.new) }
{
    let Draft {
        stated,
        schema,
        mut numbers,
        mut values,
    } = draft;
    let Some(end) = end_in_order(alloc, &schema, &mut numbers, &mut values)? else {
        return arena_of_lines(alloc, schema, stated, numbers, values, steps);
    };
    let (numbers, values) = (numbers.as_slice(), values.as_slice());
    build_lines(alloc, schema, stated, end, numbers, values, steps)
}

/// Brings the lines into the order of their names. The answer is above each of these, and `None`
/// where the lines are then those of the darts 0, 1 and so on.
fn end_in_order(
    alloc: Global,
    schema: &Schema,
    numbers: &mut Vec<u32>,
    values: &mut Vec<Value>,
) -> Result<Option<u32>, OutOfMemory>
    requires room { AreInRoom schema.now numbers.old.items values.old.items }
    ensures room { IfOk result (λ _. AreInRoom schema.now numbers.new.items values.new.items) }
    ensures darts { IfOk result (λ _. IsPermutation (darts_in schema.now numbers.old.items values.old.items) (darts_in schema.now numbers.new.items values.new.items)) }
    ensures own { IfOk result (λ end. IfNone end (AreLines schema.now numbers.new.items values.new.items)) }
    ensures end { IfOk result (λ end. IfSome end (AreBelow (rows_in schema.now.dim numbers.new.items))) }
    ensures names { IfOk result (λ end. IfSome end (λ most. most ≤ most_names)) }
{
    if are_own(schema, numbers.as_slice()) {
        return Ok(None);
    }
    let end = in_order(alloc, schema, numbers, values)?;
    if are_own(schema, numbers.as_slice()) {
        return Ok(None);
    }
    Ok(Some(end))
}

/// Whether the lines are those of the darts 0, 1 and so on, and each neighbour is one of these.
fn are_own(schema: &Schema, numbers: &[u32]) -> bool
    requires { length numbers.now / (schema.now.dim + 2) ≤ most_darts }
    ensures named { IsTrue result → (at : ℕ) → at < length numbers.now / (schema.now.dim + 2) → get_or numbers.now (at * (schema.now.dim + 2)) 0 ≡ at }
    ensures within { IsTrue result → All (λ x. x < length numbers.now / (schema.now.dim + 2)) numbers.now }
{
    let width = schema.dim.top() as usize + 2;
    are_numbered(numbers, width) && are_below(numbers, (numbers.len() / width) as u32)
}

/// Whether the name on each line, of `width` numbers, is how many lines stand before it.
fn are_numbered(numbers: &[u32], width: usize) -> bool
    requires { 0 < width }
    ensures { IsTrue result → (at : ℕ) → at < length numbers.now / width → get_or numbers.now (at * width) 0 ≡ at }
{
    for at in 0..numbers.len() / width {
        if numbers[at * width] as usize != at {
            return false;
        }
    }
    true
}

/// Whether each of the numbers is below the end. All are compared, so that many are at once.
fn are_below(numbers: &[u32], end: u32) -> bool
    ensures { IsTrue result → All (λ x. x < end) numbers.now }
{
    let mut below = true;
    for number in numbers {
        below &= *number < end;
    }
    below
}

/// The arena of lines that are those of the darts 0, 1 and so on.
fn arena_of_lines<L: Ledger>(
    alloc: Global,
    schema: Schema,
    stated: Option<u32>,
    numbers: Vec<u32>,
    values: Vec<Value>,
    steps: &mut Steps<L>,
) -> Result<Arena, MapFault>
    requires schema { IsSchema schema }
    requires lines { AreLines schema numbers.items values.items }
    requires next { IfSome stated (λ next. next ≤ most_names) }
    ensures held { IfOk result (IsHeld (version_in stated) schema (darts_in schema numbers.items values.items)) }
    ensures fault { IfErr result (IsNameFault (version_in stated) schema.dim (darts_in schema numbers.items values.items)) }
    ensures most { steps.new ≤ steps.old + (2 * schema.dim + 5) * length (darts_in schema numbers.items values.items) }
    ensures least { IfOk result (λ arena. steps.old + arena.count ≤ steps.new) }
{
    let mut arena = Arena::of_lines(alloc, schema, numbers, values, steps)?;
    if let Some(dart) = set_above(&mut arena, stated) {
        drop(arena);
        return Err(MapFault::Next { dart });
    }
    Ok(arena)
}

/// Sets the next name of the darts 0, 1 and so on, where the text states one. The answer is that name
/// where a dart has it, and then the arena is left as it was.
fn set_above(arena: &mut Arena, stated: Option<u32>) -> Option<u32>
    requires names { (name : ℕ) → IsLiveName arena.old name → name < arena.old.count }
    requires most { IfSome stated (λ next. next ≤ most_names) }
    ensures set { IfNone result (IsNextSet (version_in stated) arena.old arena.new) }
    ensures stated { IfSome result (λ next. stated ≡ Some next) }
    ensures within { IfSome result (λ next. next < arena.old.count) }
{
    let next = stated?;
    if next < arena.count() {
        return Some(next);
    }
    arena.set_next(next);
    None
}

/// The same of the lines in their order, where the text may state the next name. No name reaches
/// the end.
fn build_lines<L: Ledger>(
    alloc: Global,
    schema: Schema,
    stated: Option<u32>,
    end: u32,
    numbers: &[u32],
    values: &[Value],
    steps: &mut Steps<L>,
) -> Result<Arena, MapFault>
    requires schema { IsSchema schema }
    requires room { AreInRoom schema numbers.now values.now }
    requires end { AreBelow (rows_in schema.dim numbers.now) end }
    requires names { end ≤ most_names }
    requires next { IfSome stated (λ next. next ≤ most_names) }
    ensures held { IfOk result (IsHeld (version_in stated) schema (darts_in schema numbers.now values.now)) }
    ensures fault { IfErr result (IsNameFault (version_in stated) schema.dim (darts_in schema numbers.now values.now)) }
    ensures most { steps.new ≤ steps.old + (2 * schema.dim + 5) * length (darts_in schema numbers.now values.now) }
    ensures least { IfOk result (λ arena. steps.old + arena.count ≤ steps.new) }
{
    let mut arena = Arena::new(alloc, schema);
    if let Err(fault) = fill_with_room(&mut arena, stated, end, numbers, values, steps) {
        drop(arena);
        return Err(fault);
    }
    Ok(arena)
}

/// Makes room for the darts of the lines in an arena without darts, and fills it. No name reaches
/// the end. The arena is borrowed, so that no way out has to drop it.
fn fill_with_room<L: Ledger>(
    arena: &mut Arena,
    stated: Option<u32>,
    end: u32,
    numbers: &[u32],
    values: &[Value],
    steps: &mut Steps<L>,
) -> Result<(), MapFault>
    requires fresh { IsFresh arena.old }
    requires room { AreInRoom arena.old.schema numbers.now values.now }
    requires end { AreBelow (rows_in arena.old.schema.dim numbers.now) end }
    requires names { end ≤ most_names }
    requires next { IfSome stated (λ next. next ≤ most_names) }
    ensures held { OnOk result (IsHeld (version_in stated) arena.old.schema (darts_in arena.old.schema numbers.now values.now) arena.new) }
    ensures fault { IfErr result (IsNameFault (version_in stated) arena.old.schema.dim (darts_in arena.old.schema numbers.now values.now)) }
    ensures most { steps.new ≤ steps.old + (2 * arena.old.schema.dim + 5) * length (darts_in arena.old.schema numbers.now values.now) }
    ensures least { OnOk result (steps.old + arena.new.count ≤ steps.new) }
{
    let width = arena.schema().dim.top() as usize + 2;
    arena.reserve((numbers.len() / width) as u32, end)?;
    fill(arena, stated, numbers, values, steps)
}

/// Adds the darts of the lines to an arena without darts, sets the next name where it is stated, and
/// links the darts.
fn fill<L: Ledger>(
    arena: &mut Arena,
    stated: Option<u32>,
    numbers: &[u32],
    values: &[Value],
    steps: &mut Steps<L>,
) -> Result<(), MapFault>
    requires fresh { IsFresh arena.old }
    requires room { AreInRoom arena.old.schema numbers.now values.now }
    requires spare { length numbers.now / (arena.old.schema.dim + 2) ≤ arena.old.spare }
    requires reserved { AreBelow (rows_in arena.old.schema.dim numbers.now) arena.old.reserved }
    requires next { IfSome stated (λ next. next ≤ most_names) }
    ensures held { OnOk result (IsHeld (version_in stated) arena.old.schema (darts_in arena.old.schema numbers.now values.now) arena.new) }
    ensures fault { IfErr result (IsNameFault (version_in stated) arena.old.schema.dim (darts_in arena.old.schema numbers.now values.now)) }
    ensures most { steps.new ≤ steps.old + (2 * arena.old.schema.dim + 5) * length (darts_in arena.old.schema numbers.now values.now) }
    ensures least { OnOk result (steps.old + arena.new.count ≤ steps.new) }
{
    if let Some(dart) = add_darts(arena, numbers, values, steps) {
        return Err(MapFault::DartTwice { dart });
    }
    if let Some(dart) = set_stated(arena, numbers, stated) {
        return Err(MapFault::Next { dart });
    }
    if let Some((dart, label)) = link_darts(arena, numbers, steps) {
        return Err(MapFault::NoTarget { dart, label });
    }
    Ok(())
}

/// Adds the dart of each line with its values, free for every label. The answer is the least name
/// that two lines have.
// By itself, it keeps in registers what it would not among all that reads a map.
#[inline(never)]
fn add_darts<L: Ledger>(
    arena: &mut Arena,
    numbers: &[u32],
    values: &[Value],
    steps: &mut Steps<L>,
) -> Option<u32>
    requires fresh { IsFresh arena.old }
    requires room { AreInRoom arena.old.schema numbers.now values.now }
    requires spare { length numbers.now / (arena.old.schema.dim + 2) ≤ arena.old.spare }
    requires reserved { AreBelow (rows_in arena.old.schema.dim numbers.now) arena.old.reserved }
    ensures schema { arena.new.schema ≡ arena.old.schema }
    ensures added { AreAdded arena.old.schema.dim (rows_in arena.old.schema.dim numbers.now) arena.new result }
    ensures values { AreValued (darts_in arena.old.schema numbers.now values.now) arena.new }
    ensures next { IsNextLeast arena.new }
    ensures most { steps.new ≤ steps.old + 2 * length (rows_in arena.old.schema.dim numbers.now) }
    ensures least { steps.old + length (rows_in arena.old.schema.dim numbers.now) ≤ steps.new }
{
    let width = arena.schema().embeds.as_slice().len();
    let mut rest = values;
    let mut twice: Option<u32> = None;
    for line in numbers.chunks_exact(arena.schema().dim.top() as usize + 2) {
        let name = line[0];
        let (own, others) = rest.split_at(width);
        rest = others;
        if slot_there(arena, name, steps).is_none() {
            arena.add(name, own, steps);
        } else {
            twice = Some(lesser(twice, name));
        }
    }
    twice
}

/// The slot of a name, where a dart has it. Nothing is looked up for a name above all others, as each
/// is where they come in ascending order.
fn slot_there<L: Ledger>(arena: &Arena, name: u32, steps: &mut Steps<L>) -> Option<Slot>
    requires next { IsNextLeast arena.now }
    ensures slot { MatchOption result (get arena.now.darts name ≡ None) (λ s. IsAt arena.now s.at name) }
    ensures found { OnSome result (steps.new ≡ steps.old + 1) }
    ensures most { steps.new ≤ steps.old + 1 }
    ensures least { steps.old ≤ steps.new }
{
    if arena.next() <= name {
        return None;
    }
    arena.slot_of(name, steps)
}

/// The lesser of the name and of one that was found before.
fn lesser(found: Option<u32>, name: u32) -> u32
    ensures { MatchOption found (result ≡ name) (λ least. result ≡ min least name) }
{
    match found {
        Some(least) => least.min(name),
        None => name,
    }
}

/// Sets the next name, where the text states one. The answer is the least name of a line that
/// isn't below it, and then the arena is left as it was.
fn set_stated(arena: &mut Arena, numbers: &[u32], stated: Option<u32>) -> Option<u32>
    requires next { IsNextLeast arena.old }
    requires live { AreLive (rows_in arena.old.schema.dim numbers.now) arena.old }
    requires most { IfSome stated (λ next. next ≤ most_names) }
    ensures below { MatchOption result (AreBelowStated (version_in stated) (rows_in arena.old.schema.dim numbers.now)) (IsLeastNotBelowStated (version_in stated) (rows_in arena.old.schema.dim numbers.now)) }
    ensures set { MatchOption result (IsNextSet (version_in stated) arena.old arena.new) (λ _. arena.new ≡ arena.old) }
{
    let next = stated?;
    let least = least_not_below(arena, numbers, next);
    if least.is_none() {
        arena.set_next(next);
    }
    least
}

/// The least name of a line that isn't below the number.
fn least_not_below(arena: &Arena, numbers: &[u32], next: u32) -> Option<u32>
    requires next { IsNextLeast arena.now }
    requires live { AreLive (rows_in arena.now.schema.dim numbers.now) arena.now }
    ensures { IsNotBelow (rows_in arena.now.schema.dim numbers.now) next result }
{
    if arena.next() <= next {
        return None;
    }
    let mut least: Option<u32> = None;
    for line in numbers.chunks_exact(arena.schema().dim.top() as usize + 2) {
        let name = line[0];
        if name >= next {
            least = Some(lesser(least, name));
        }
    }
    least
}

/// Links the dart of each line to its neighbours. The answer is the first dart and label whose
/// neighbour is no dart.
fn link_darts<L: Ledger>(
    arena: &mut Arena,
    numbers: &[u32],
    steps: &mut Steps<L>,
) -> Option<(u32, u8)>
    requires added { AreAdded arena.old.schema.dim (rows_in arena.old.schema.dim numbers.now) arena.old None }
    ensures relinked { IsRelinked arena.old.schema.dim arena.old arena.new }
    ensures linked { AreLinkedUnless arena.old.schema.dim arena.old arena.new (rows_in arena.old.schema.dim numbers.now) result }
    ensures most { steps.new ≤ steps.old + (2 * arena.old.schema.dim + 3) * length (rows_in arena.old.schema.dim numbers.now) }
    ensures least { steps.old ≤ steps.new }
{
    let mut missing: Option<(u32, u8)> = None;
    for line in numbers.chunks_exact(arena.schema().dim.top() as usize + 2) {
        let name = line[0];
        if let Some(label) = link_dart(arena, name, &line[1..], steps) {
            missing = Some(earlier(missing, name, label));
        }
    }
    missing
}

/// The dart and label, or those that were found before where their dart has a lower name.
fn earlier(found: Option<(u32, u8)>, dart: u32, label: u8) -> (u32, u8)
    ensures { MatchOption found (result ≡ (dart, label)) (λ first. result ≡ (if nat_lt first.0 dart then first else (dart, label))) }
{
    match found {
        Some(first) if first.0 < dart => first,
        _ => (dart, label),
    }
}

/// Links a dart to its neighbours by label. The answer is the first label whose neighbour is no
/// dart, and none is linked from there on.
fn link_dart<L: Ledger>(
    arena: &mut Arena,
    name: u32,
    neighbours: &[u32],
    steps: &mut Steps<L>,
) -> Option<u8>
    requires live { IsLiveName arena.old name }
    requires slots { AreSlotsLive arena.old }
    requires whole { AreWhole arena.old.schema.dim arena.old }
    requires labels { length neighbours.now ≡ arena.old.schema.dim + 1 }
    ensures linked { MatchOption result (IsDartLinked arena.old.schema.dim arena.old arena.new name neighbours.now (arena.old.schema.dim + 1)) (λ label. IsDartLinked arena.old.schema.dim arena.old arena.new name neighbours.now label × IsLabelWithoutTarget arena.old.schema.dim arena.old neighbours.now label) }
    ensures most { steps.new ≤ steps.old + (2 * arena.old.schema.dim + 3) }
    ensures least { steps.old ≤ steps.new }
{
    let slot = arena.slot_of(name, steps)?;
    for label in 0..=arena.schema().dim.top() {
        let Some(to) = arena.slot_of(neighbours[label as usize], steps) else {
            return Some(label);
        };
        arena.set_alpha(slot, label, to, steps);
    }
    None
}
