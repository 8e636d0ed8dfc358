//! Rows of darts that are kept, one after another.
ghost use Rattle.std.specs.Prelude.{◌≡◌, ℕ, ◌+◌, ◌*◌, ◌<◌, ◌≤◌, ◌++◌, ◌∷◌, [], List, true, false, length, map, take, Some, slice_get, slice_set, slice_index_or, IfOk, OnErr, OnOk};
ghost use Rattle.std.specs.FinMap.{get};
ghost use Rattle.std.specs.Vec.{vec_capacity};
ghost use Rattle.gm_arena.specs.inner.ArenaMap.{Dart, IsLiveSlot, name_at};
ghost use Rattle.gm_arena.specs.inner.Parts.{part_of};
ghost use Rattle.gm_arena.specs.declared.slot.Slot.{Slot};
ghost use Rattle.gm_undo.specs.inner.Kept.{KeptRow};
ghost use Rattle.gm_undo.specs.inner.Flat.{RowsOf, row_in, staying};

use gm_arena::{Arena, Slot, Steps};
use gm_model::{OutOfMemory, Value};
use std::alloc::Global;
use std::marker::Model;
use std::sync::ledger::Ledger;

/// The rows of darts of maps with one number of labels and one of embeddings.
#[derive(Drop)]
pub(crate) struct KeptRows {
    labels: usize,
    width: usize,
    /// For how many rows there is room without taking memory.
    room: usize,
    names: Vec<u32>,
    staying: Vec<bool>,
    /// The neighbours' names of the rows one after another, `labels` for each.
    neighbours: Vec<u32>,
    /// The values of the rows one after another, `width` for each.
    values: Vec<Value>,
}

impl Model for KeptRows {
    ghost use Rattle.std.specs.Prelude.{length};
    ghost use Rattle.std.specs.Vec.{vec_capacity};
    ghost use Rattle.gm_undo.specs.inner.Flat.{RowsOf, rows_code, flat_rows, AreFlat};

    ghost Value = { RowsOf };

    ghost coded = { rows_code };

    ghost view = { λ r. flat_rows r.labels r.width r.room r.names.items r.staying.items r.neighbours.items r.values.items };

    ghost invariant = { λ r. AreFlat r.labels r.width r.room (length r.names.items) (length r.staying.items) (length r.neighbours.items) (length r.values.items) (vec_capacity r.names) (vec_capacity r.staying) (vec_capacity r.neighbours) (vec_capacity r.values) };
}

impl KeptRows {
    /// No rows. It takes no memory.
    pub(crate) fn new(alloc: Global) -> KeptRows
        ensures { result ≡ record { labels = 0; width = 0; room = 0; rows = [] } }
    {
        KeptRows {
            labels: 0,
            width: 0,
            room: 0,
            names: Vec::new(alloc),
            staying: Vec::new(alloc),
            neighbours: Vec::new(alloc),
            values: Vec::new(alloc),
        }
    }

    pub(crate) fn len(&self) -> usize
        ensures { result ≡ length self.now.rows }
    {
        self.names.len()
    }

    /// Makes room for `rows` rows in all, of maps with `labels` labels and `width` embeddings. Where it is
    /// missing, twice the room is made, so that most calls only compare.
    pub(crate) fn reserve(
        &mut self,
        rows: usize,
        labels: usize,
        width: usize,
    ) -> Result<(), OutOfMemory>
        requires more { length self.old.rows ≤ rows }
        requires labels { 0 < length self.old.rows → labels ≡ self.old.labels }
        requires width { 0 < length self.old.rows → width ≡ self.old.width }
        ensures rows { OnOk result (self.new ≡ record { labels = labels; width = width; room = self.new.room; rows = self.old.rows }) }
        ensures room { OnOk result (rows ≤ self.new.room) }
        ensures stays { OnErr result (self.new ≡ self.old) }
    {
        if rows <= self.room && labels == self.labels && width == self.width {
            return Ok(());
        }
        self.grow(rows.max(self.room.saturating_mul(2)), labels, width)
    }

    /// Makes room for `rows` rows in all, of maps with `labels` labels and `width` embeddings.
    #[cold]
    #[inline(never)]
    fn grow(&mut self, rows: usize, labels: usize, width: usize) -> Result<(), OutOfMemory>
        requires more { length self.old.rows ≤ rows }
        requires labels { 0 < length self.old.rows → labels ≡ self.old.labels }
        requires width { 0 < length self.old.rows → width ≡ self.old.width }
        ensures room { OnOk result (self.new ≡ record { labels = labels; width = width; room = rows; rows = self.old.rows }) }
        ensures stays { OnErr result (self.new ≡ self.old) }
    {
        let neighbours = times(rows, labels)?;
        let values = times(rows, width)?;
        make_room(&mut self.names, rows)?;
        make_room(&mut self.staying, rows)?;
        make_room(&mut self.neighbours, neighbours)?;
        make_room(&mut self.values, values)?;
        self.labels = labels;
        self.width = width;
        self.room = rows;
        Ok(())
    }

    /// Puts the row of the dart at the slot after the others, where there is room.
    // Inlined, since it is short and is called for each row.
    #[inline(always)]
    pub(crate) fn push<L: Ledger>(
        &mut self,
        stays: bool,
        slot: Slot,
        arena: &Arena,
        steps: &mut Steps<L>,
    )
        requires room { length self.old.rows < self.old.room }
        requires labels { self.old.labels ≡ arena.now.schema.dim + 1 }
        requires width { self.old.width ≡ length arena.now.schema.embeds }
        requires live { IsLiveSlot arena.now slot.at }
        ensures row { (dart : Dart) → get arena.now.darts (name_at arena.now slot.at) ≡ Some dart
            → self.new ≡ record self.old { rows = self.old.rows ++ record { name = name_at arena.now slot.at; stays = stays; dart = dart } ∷ [] } }
        ensures cost { steps.new ≡ steps.old + (arena.now.schema.dim + 2) }
    {
        // The arena tells here what it holds.
        prove!(arena.count() <= gm_model::MOST_DARTS);
        let row = arena.row(slot, steps);
        self.names.push_reserved(row.name);
        self.staying.push_reserved(stays);
        push_names(&mut self.neighbours, row.alphas, arena, steps);
        push_values(&mut self.values, row.values);
    }

    /// That the dart of the row is a dart on the other side too.
    pub(crate) fn mark_staying(&mut self, index: usize)
        requires { index < length self.old.rows }
        ensures { self.new ≡ record self.old { rows = slice_set self.old.rows index (staying (row_in self.old.rows index)) } }
    {
        self.staying[index] = true;
    }

    /// Forgets all rows but the first `rows`.
    pub(crate) fn truncate(&mut self, rows: usize)
        requires { rows ≤ length self.old.rows }
        ensures { self.new ≡ record self.old { rows = take rows self.old.rows } }
    {
        self.names.truncate(rows);
        self.staying.truncate(rows);
        self.neighbours.truncate(rows * self.labels);
        self.values.truncate(rows * self.width);
    }

    pub(crate) fn name(&self, index: usize) -> u32
        requires { index < length self.now.rows }
        ensures { result ≡ (row_in self.now.rows index).name }
    {
        self.names[index]
    }

    pub(crate) fn stays(&self, index: usize) -> bool
        requires { index < length self.now.rows }
        ensures { result ≡ (row_in self.now.rows index).stays }
    {
        self.staying[index]
    }

    /// The names of the neighbours, by label.
    pub(crate) fn neighbours(&self, index: usize) -> &[u32]
        requires { index < length self.now.rows }
        ensures { result.now ≡ (row_in self.now.rows index).dart.alphas }
    {
        part(&self.neighbours, self.labels, index)
    }

    /// The values, by embedding.
    pub(crate) fn values(&self, index: usize) -> &[Value]
        requires { index < length self.now.rows }
        ensures { result.now ≡ (row_in self.now.rows index).dart.values }
    {
        part(&self.values, self.width, index)
    }
}

/// What a row has of the items, of which each row has `width`.
fn part<T>(items: &[T], width: usize, index: usize) -> &[T]
    requires { index * width + width ≤ length items.now }
    ensures { result.now ≡ part_of width items.now index }
{
    &items[index * width..index * width + width]
}

/// The product, refused where no vector has room for it.
fn times(count: usize, each: usize) -> Result<usize, OutOfMemory>
    ensures { IfOk result (λ all. all ≡ count * each) }
{
    match count.checked_mul(each) {
        Some(all) => Ok(all),
        None => Err(OutOfMemory),
    }
}

/// Makes room for `count` items in all.
fn make_room<T>(items: &mut Vec<T>, count: usize) -> Result<(), OutOfMemory>
    ensures room { OnOk result (count ≤ vec_capacity items.new) }
    ensures items { items.new.items ≡ items.old.items }
    ensures capacity { vec_capacity items.old ≤ vec_capacity items.new }
{
    let more = count.saturating_sub(items.len());
    Ok(items.reserve(more)?)
}

/// Puts the names of the darts at the slots after the others, where there is room for them.
fn push_names<L: Ledger>(names: &mut Vec<u32>, slots: &[Slot], arena: &Arena, steps: &mut Steps<L>)
    requires live { (k : ℕ) → k < length slots.now → IsLiveSlot arena.now (slice_index_or slots.now k (record { at = 0 })).at }
    requires room { length names.old.items + length slots.now ≤ vec_capacity names.old }
    ensures names { names.new.items ≡ names.old.items ++ map (λ (s : Slot). name_at arena.now s.at) slots.now }
    ensures capacity { vec_capacity names.new ≡ vec_capacity names.old }
    ensures cost { steps.new ≡ steps.old + length slots.now }
{
    for slot in slots {
        names.push_reserved(arena.name_of(*slot, steps));
    }
}

fn push_values(values: &mut Vec<Value>, own: &[Value])
    requires { length values.old.items + length own.now ≤ vec_capacity values.old }
    ensures values { values.new.items ≡ values.old.items ++ own.now }
    ensures capacity { vec_capacity values.new ≡ vec_capacity values.old }
{
    for value in own {
        values.push_reserved(*value);
    }
}
