//! One side of a change, written in the place of the other.
ghost use Rattle.std.specs.Prelude.{◌≡◌, ◌≢◌, ℕ, ◌+◌, ◌-◌, ◌*◌, ◌<◌, ◌≤◌, false, All, Some, None, length};
ghost use Rattle.std.specs.FinMap.{get};
ghost use Rattle.gm_model.specs.Limits.{most_names};
ghost use Rattle.gm_arena.specs.inner.ArenaMap.{Dart, IsAt, IsLiveName, IsLiveSlot, alpha, name_at};
ghost use Rattle.gm_arena.specs.inner.Edits.{IsAlone};
ghost use Rattle.gm_arena.specs.inner.Lawful.{AreGoodValues};
ghost use Rattle.gm_undo.specs.inner.Flat.{row_in};
ghost use Rattle.gm_undo.specs.inner.Standing.{Rows, rows_in};
ghost use Rattle.gm_undo.specs.inner.Writing.{AreOnce, CanCome, CanGo, CanLink, CanWrite, HasFrame, HasRoomOf, IsAddedRow, IsAmong, IsClearedRow, IsFreeRow, IsOwnRow, IsWritten};

use crate::rows::KeptRows;
use gm_arena::{Arena, Slot, Steps};
use gm_model::{MOST_DARTS, Value};
use std::sync::ledger::Ledger;

/// A part of the kept rows: those from the one number to the other.
#[derive(Clone, Copy)]
pub(crate) struct Part {
    pub(crate) start: usize,
    pub(crate) end: usize,
}

/// Makes of the map on the one side of a change that on the other, whose next name this is. It takes
/// no memory.
///
/// The arcs of the old rows are freed, so that no dart that stays leads to one that goes; then darts
/// go and come, and each new row is written.
pub(crate) fn write<L: Ledger>(
    rows: &KeptRows,
    from: Part,
    to: Part,
    next: u32,
    arena: &mut Arena,
    steps: &mut Steps<L>,
)
    requires from { from.start ≤ from.end }
    requires from_end { from.end ≤ length rows.now.rows }
    requires to { to.start ≤ to.end }
    requires to_end { to.end ≤ length rows.now.rows }
    requires can { (there : Rows) × CanWrite rows.now.rows from.start from.end to.start to.end arena.old there × (next ≡ there.next) }
    ensures rows { (there : Rows) → CanWrite rows.now.rows from.start from.end to.start to.end arena.old there → next ≡ there.next → rows_in arena.new ≡ there }
    ensures room { HasRoomOf arena.old arena.new }
    ensures cost { steps.new ≤ steps.old + 7 * (arena.old.schema.dim + 1) * (from.end - from.start + (to.end - to.start)) }
    ensures rises { steps.old ≤ steps.new }
{
    // The arena tells here what it holds.
    prove!(arena.count() <= MOST_DARTS);
    free_rows(rows, from, arena, steps);
    remove_rows(rows, from, arena, steps);
    add_rows(rows, to, arena, steps);
    link_rows(rows, to, arena, steps);
    arena.set_next(next);
}

/// Makes each dart of the rows its own neighbour.
fn free_rows<L: Ledger>(rows: &KeptRows, part: Part, arena: &mut Arena, steps: &mut Steps<L>)
    requires part { part.start ≤ part.end }
    requires end { part.end ≤ length rows.now.rows }
    requires once { AreOnce rows.now.rows part.start part.end }
    requires live { (k : ℕ) → IsAmong part.start part.end k → IsLiveName arena.old (row_in rows.now.rows k).name }
    ensures written { IsWritten (IsFreeRow arena.old.schema.dim) rows.now.rows part.start part.end arena.old arena.new }
    ensures live { (d : ℕ) → IsLiveName arena.new d → IsLiveName arena.old d }
    ensures frame { HasFrame arena.old arena.new }
    ensures cost { steps.new ≡ steps.old + (arena.old.schema.dim + 2) * (part.end - part.start) }
{
    // The arena tells here what it holds.
    prove!(arena.count() <= MOST_DARTS);
    let labels = arena.schema().dim.top() + 1;
    for index in part.start..part.end {
        free_row(rows.name(index), labels, arena, steps);
    }
}

/// Makes the dart of the name its own neighbour for each of the labels.
fn free_row<L: Ledger>(name: u32, labels: u8, arena: &mut Arena, steps: &mut Steps<L>)
    requires live { IsLiveName arena.old name }
    requires labels { labels ≡ arena.old.schema.dim + 1 }
    ensures free { (i : ℕ) → i ≤ arena.old.schema.dim → alpha arena.new i name ≡ name }
    ensures live { IsLiveName arena.new name }
    ensures others { (d : ℕ) → d ≢ name → get arena.new.darts d ≡ get arena.old.darts d }
    ensures frame { HasFrame arena.old arena.new }
    ensures cost { steps.new ≡ steps.old + (arena.old.schema.dim + 2) }
{
    // The arena tells here what it holds.
    prove!(arena.count() <= MOST_DARTS);
    let Some(slot) = arena.slot_of(name, steps) else {
        unreachable!();
    };
    for label in 0..labels {
        arena.set_alpha(slot, label, slot, steps);
    }
}

/// Removes the darts of the rows that don't stay.
fn remove_rows<L: Ledger>(rows: &KeptRows, part: Part, arena: &mut Arena, steps: &mut Steps<L>)
    requires part { part.start ≤ part.end }
    requires end { part.end ≤ length rows.now.rows }
    requires once { AreOnce rows.now.rows part.start part.end }
    requires can { CanGo rows.now.rows part.start part.end arena.old }
    ensures written { IsWritten (IsClearedRow arena.old) rows.now.rows part.start part.end arena.old arena.new }
    ensures room { HasRoomOf arena.old arena.new }
    ensures cost { steps.new ≤ steps.old + 2 * (part.end - part.start) }
    ensures rises { steps.old ≤ steps.new }
{
    for index in part.start..part.end {
        remove_row(rows, index, arena, steps);
    }
}

/// Removes the dart of the row, unless it stays.
fn remove_row<L: Ledger>(rows: &KeptRows, index: usize, arena: &mut Arena, steps: &mut Steps<L>)
    requires index { index < length rows.now.rows }
    requires can { (row_in rows.now.rows index).stays ≡ false → IsLiveName arena.old (row_in rows.now.rows index).name × IsAlone arena.old (row_in rows.now.rows index).name }
    ensures own { IsClearedRow arena.old (row_in rows.now.rows index) (get arena.new.darts (row_in rows.now.rows index).name) }
    ensures others { (d : ℕ) → d ≢ (row_in rows.now.rows index).name → get arena.new.darts d ≡ get arena.old.darts d }
    ensures room { HasRoomOf arena.old arena.new }
    ensures cost { steps.new ≤ steps.old + 2 }
    ensures rises { steps.old ≤ steps.new }
{
    if rows.stays(index) {
        return;
    }
    remove_dart(rows.name(index), arena, steps);
}

/// Removes the dart of the name.
fn remove_dart<L: Ledger>(name: u32, arena: &mut Arena, steps: &mut Steps<L>)
    requires live { IsLiveName arena.old name }
    requires alone { IsAlone arena.old name }
    ensures gone { get arena.new.darts name ≡ None }
    ensures others { (d : ℕ) → d ≢ name → get arena.new.darts d ≡ get arena.old.darts d }
    ensures room { HasRoomOf arena.old arena.new }
    ensures cost { steps.new ≡ steps.old + 2 }
{
    // The arena tells here what it holds.
    prove!(arena.count() <= MOST_DARTS);
    let Some(slot) = arena.slot_of(name, steps) else {
        unreachable!();
    };
    arena.remove(slot, steps);
}

/// Adds the darts of the rows that didn't stay, with their values.
fn add_rows<L: Ledger>(rows: &KeptRows, part: Part, arena: &mut Arena, steps: &mut Steps<L>)
    requires part { part.start ≤ part.end }
    requires end { part.end ≤ length rows.now.rows }
    requires once { AreOnce rows.now.rows part.start part.end }
    requires can { (there : Rows) × CanCome rows.now.rows part.start part.end arena.old there }
    ensures written { IsWritten (IsAddedRow arena.old) rows.now.rows part.start part.end arena.old arena.new }
    ensures room { HasRoomOf arena.old arena.new }
    ensures cost { steps.new ≤ steps.old + (part.end - part.start) }
    ensures rises { steps.old ≤ steps.new }
{
    for index in part.start..part.end {
        // The arena tells here what it holds.
        prove!(arena.count() <= MOST_DARTS);
        add_row(rows, index, arena, steps);
    }
}

/// Adds the dart of the row, unless it stayed.
fn add_row<L: Ledger>(rows: &KeptRows, index: usize, arena: &mut Arena, steps: &mut Steps<L>)
    requires index { index < length rows.now.rows }
    requires room { (row_in rows.now.rows index).stays ≡ false → 0 < arena.old.spare }
    requires reserved { (row_in rows.now.rows index).stays ≡ false → (row_in rows.now.rows index).name < arena.old.reserved }
    requires new_name { (row_in rows.now.rows index).stays ≡ false → get arena.old.darts (row_in rows.now.rows index).name ≡ None }
    requires values { AreGoodValues arena.old.schema (row_in rows.now.rows index).dart.values }
    ensures own { IsAddedRow arena.old (row_in rows.now.rows index) (get arena.new.darts (row_in rows.now.rows index).name) }
    ensures others { (d : ℕ) → d ≢ (row_in rows.now.rows index).name → get arena.new.darts d ≡ get arena.old.darts d }
    ensures room { HasRoomOf arena.old arena.new }
    ensures cost { steps.new ≤ steps.old + 1 }
    ensures rises { steps.old ≤ steps.new }
{
    if rows.stays(index) {
        return;
    }
    arena.add(rows.name(index), rows.values(index), steps);
}

/// Gives the darts of the rows their neighbours and values.
fn link_rows<L: Ledger>(rows: &KeptRows, part: Part, arena: &mut Arena, steps: &mut Steps<L>)
    requires part { part.start ≤ part.end }
    requires end { part.end ≤ length rows.now.rows }
    requires once { AreOnce rows.now.rows part.start part.end }
    requires can { CanLink rows.now.rows part.start part.end arena.old }
    ensures written { IsWritten IsOwnRow rows.now.rows part.start part.end arena.old arena.new }
    ensures frame { HasFrame arena.old arena.new }
    ensures cost { steps.new ≡ steps.old + (2 * (arena.old.schema.dim + 1) + length arena.old.schema.embeds + 1) * (part.end - part.start) }
{
    for index in part.start..part.end {
        link_row(
            rows.name(index),
            rows.neighbours(index),
            rows.values(index),
            arena,
            steps,
        );
    }
}

/// Gives the dart of the name these neighbours and values.
fn link_row<L: Ledger>(
    name: u32,
    neighbours: &[u32],
    values: &[Value],
    arena: &mut Arena,
    steps: &mut Steps<L>,
)
    requires live { IsLiveName arena.old name }
    requires whole { length neighbours.now ≡ arena.old.schema.dim + 1 }
    requires neighbours { All (IsLiveName arena.old) neighbours.now }
    requires values { AreGoodValues arena.old.schema values.now }
    ensures own { get arena.new.darts name ≡ Some (record { alphas = neighbours.now; values = values.now }) }
    ensures others { (d : ℕ) → d ≢ name → get arena.new.darts d ≡ get arena.old.darts d }
    ensures frame { HasFrame arena.old arena.new }
    ensures cost { steps.new ≡ steps.old + (2 * (arena.old.schema.dim + 1) + length arena.old.schema.embeds + 1) }
{
    // The arena tells here what it holds.
    prove!(arena.count() <= MOST_DARTS);
    let Some(slot) = arena.slot_of(name, steps) else {
        unreachable!();
    };
    link(slot, neighbours, arena, steps);
    set_values(slot, values, arena, steps);
}

/// Gives the dart at the slot these neighbours, by label.
fn link<L: Ledger>(slot: Slot, neighbours: &[u32], arena: &mut Arena, steps: &mut Steps<L>)
    requires live { IsLiveSlot arena.old slot.at }
    requires whole { length neighbours.now ≡ arena.old.schema.dim + 1 }
    requires few { arena.old.schema.dim ≤ 7 }
    requires neighbours { All (IsLiveName arena.old) neighbours.now }
    ensures own { (dart : Dart) → get arena.old.darts (name_at arena.old slot.at) ≡ Some dart → length dart.alphas ≡ length neighbours.now
        → get arena.new.darts (name_at arena.old slot.at) ≡ Some (record { alphas = neighbours.now; values = dart.values }) }
    ensures others { (d : ℕ) → d ≢ name_at arena.old slot.at → get arena.new.darts d ≡ get arena.old.darts d }
    ensures frame { HasFrame arena.old arena.new }
    ensures cost { steps.new ≡ steps.old + 2 * length neighbours.now }
{
    for (label, neighbour) in neighbours.iter().enumerate() {
        let Some(to) = arena.slot_of(*neighbour, steps) else {
            unreachable!();
        };
        arena.set_alpha(slot, label as u8, to, steps);
    }
}

/// Gives the dart at the slot these values, by embedding.
fn set_values<L: Ledger>(slot: Slot, values: &[Value], arena: &mut Arena, steps: &mut Steps<L>)
    requires live { IsLiveSlot arena.old slot.at }
    requires values { AreGoodValues arena.old.schema values.now }
    requires few { length values.now ≤ 8 }
    ensures own { (dart : Dart) → get arena.old.darts (name_at arena.old slot.at) ≡ Some dart → length dart.values ≡ length values.now
        → get arena.new.darts (name_at arena.old slot.at) ≡ Some (record { alphas = dart.alphas; values = values.now }) }
    ensures others { (d : ℕ) → d ≢ name_at arena.old slot.at → get arena.new.darts d ≡ get arena.old.darts d }
    ensures frame { HasFrame arena.old arena.new }
    ensures cost { steps.new ≡ steps.old + length values.now }
{
    for (embed, value) in values.iter().enumerate() {
        arena.set_value(slot, embed as u8, *value, steps);
    }
}
