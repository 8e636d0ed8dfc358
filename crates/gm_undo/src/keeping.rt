//! The rows that an application changes are kept.
ghost use Rattle.std.specs.Prelude.{◌≡◌, ℕ, ◌+◌, ◌-◌, ◌*◌, ◌<◌, ◌≤◌, ◌++◌, List, length, drop, OnErr, OnOk};
ghost use Rattle.std.specs.Vec.{vec_capacity};
ghost use Rattle.gm_model.specs.Applications.{Application, IsDone};
ghost use Rattle.gm_model.specs.Maps.{IsSound};
ghost use Rattle.gm_arena.specs.inner.ArenaAsMap.{as_map};
ghost use Rattle.gm_arena.specs.inner.ArenaMap.{IsLiveName, IsLiveSlot};
ghost use Rattle.gm_arena.specs.inner.Lawful.{IsLawful};
ghost use Rattle.gm_arena.specs.declared.slot.Slot.{Slot};
ghost use Rattle.gm_apply.specs.inner.Prepared.{IsReadyToCommit, cost_with_rows, rows_of};
ghost use Rattle.gm_undo.specs.inner.Keeping.{AreAddedKept, AreBehindKept, AreTouchedKept};
ghost use Rattle.gm_undo.specs.inner.Layout.{change_in, end_of};
ghost use Rattle.gm_undo.specs.inner.Standing.{LeadsTo, rows_in};
ghost use Rattle.std.specs.List.{Contains};

use crate::rows::KeptRows;
use gm_arena::{Arena, Slot, Steps};
use gm_commit::Edits;
use gm_model::{MOST_DARTS, OutOfMemory};
use std::sync::ledger::Ledger;

/// What one application made of the map: its kept rows from `first` to `middle` are those before it,
/// and from there to `end` those after it.
#[derive(Clone, Copy)]
pub(crate) struct Made {
    /// Whether an entry of the past or the future begins with it.
    pub(crate) begins: bool,
    pub(crate) first: usize,
    pub(crate) middle: usize,
    pub(crate) end: usize,
    pub(crate) next_before: u32,
    pub(crate) next_after: u32,
}

/// Where the rows of the first changes end.
pub(crate) fn kept_end(changes: &[Made], count: usize) -> usize
    requires { count ≤ length changes.now }
    ensures { result ≡ end_of changes.now count }
{
    if count == 0 {
        0
    } else {
        changes[count - 1].end
    }
}

/// Makes room for the rows and the change of the edits, after the first `kept` rows.
pub(crate) fn make_room(
    rows: &mut KeptRows,
    changes: &mut Vec<Made>,
    kept: usize,
    edits: &Edits,
    arena: &Arena,
) -> Result<(), OutOfMemory>
    requires kept { kept ≤ length rows.old.rows }
    requires labels { 0 < length rows.old.rows → rows.old.labels ≡ arena.now.schema.dim + 1 }
    requires width { 0 < length rows.old.rows → rows.old.width ≡ length arena.now.schema.embeds }
    ensures rows { OnOk result (rows.new ≡ record { labels = arena.now.schema.dim + 1; width = length arena.now.schema.embeds; room = rows.new.room; rows = rows.old.rows }) }
    ensures room { OnOk result (kept + rows_of edits.now ≤ rows.new.room) }
    ensures changes { changes.new.items ≡ changes.old.items }
    ensures more { OnOk result (length changes.new.items < vec_capacity changes.new) }
    ensures stays { OnErr result (rows.new ≡ rows.old) }
{
    changes.reserve(1)?;
    let labels = arena.schema().dim.top() as usize + 1;
    let width = arena.schema().embeds.as_slice().len();
    let more = 2 * edits.touched().len() + edits.applied().added as usize;
    let Some(count) = kept.checked_add(more) else {
        return Err(OutOfMemory);
    };
    rows.reserve(rows.len().max(count), labels, width)
}

/// Commits the edits, and keeps the rows that they change.
pub(crate) fn keep<L: Ledger>(
    rows: &mut KeptRows,
    begins: bool,
    edits: Edits,
    arena: &mut Arena,
    steps: &mut Steps<L>,
) -> Made
    requires labels { rows.old.labels ≡ arena.old.schema.dim + 1 }
    requires width { rows.old.width ≡ length arena.old.schema.embeds }
    requires room { length rows.old.rows + rows_of edits ≤ rows.old.room }
    requires ready { (app : Application) × IsReadyToCommit app arena.old edits }
    ensures rows { rows.new ≡ record rows.old { rows = rows.old.rows ++ drop (length rows.old.rows) rows.new.rows } }
    ensures first { result.first ≡ length rows.old.rows }
    ensures middle { result.first ≤ result.middle }
    ensures end { result.middle ≤ result.end }
    ensures ends { result.end ≡ length rows.new.rows }
    ensures few { result.end ≤ result.first + rows_of edits }
    ensures begins { result.begins ≡ begins }
    ensures leads { LeadsTo (change_in rows.new.rows result) (rows_in arena.old) (rows_in arena.new) }
    ensures done { (app : Application) → IsReadyToCommit app arena.old edits → IsDone app (as_map arena.new) edits.lists.added (length edits.lists.removed) }
    ensures sound { IsSound (as_map arena.new) }
    ensures lawful { IsLawful arena.new }
    ensures schema { arena.new.schema ≡ arena.old.schema }
    ensures total { arena.old.count + arena.old.spare ≤ arena.new.count + arena.new.spare }
    ensures spare { arena.new.spare + edits.lists.added ≡ arena.old.spare + length edits.lists.removed }
    ensures reserved { arena.new.reserved ≡ arena.old.reserved }
    ensures cost { steps.new ≤ steps.old + cost_with_rows arena.old.schema.dim edits }
    ensures least { steps.old + edits.lists.added + length edits.lists.removed ≤ steps.new }
{
    let added = edits.applied().added;
    let next_before = arena.next();
    let first = rows.len();
    keep_touched(rows, edits.touched(), arena, steps);
    let middle = rows.len();
    edits.commit(arena, steps);
    keep_staying(rows, first, middle, arena, steps);
    keep_added(rows, next_before, added, arena, steps);
    Made {
        begins,
        first,
        middle,
        end: rows.len(),
        next_before,
        next_after: arena.next(),
    }
}

/// Puts the rows of the darts at the slots after the others.
fn keep_touched<L: Ledger>(rows: &mut KeptRows, slots: &[Slot], arena: &Arena, steps: &mut Steps<L>)
    requires labels { rows.old.labels ≡ arena.now.schema.dim + 1 }
    requires width { rows.old.width ≡ length arena.now.schema.embeds }
    requires room { length rows.old.rows + length slots.now ≤ rows.old.room }
    requires live { (slot : Slot) → Contains slots.now slot → IsLiveSlot arena.now slot.at }
    ensures kept { AreTouchedKept arena.now slots.now rows.old rows.new }
    ensures cost { steps.new ≡ steps.old + (arena.now.schema.dim + 2) * length slots.now }
{
    // The arena tells here what it holds.
    prove!(arena.count() <= MOST_DARTS);
    for slot in slots {
        rows.push(false, *slot, arena, steps);
    }
}

/// Puts the rows of the darts of the rows from `first` to `end` that are live after the others.
fn keep_staying<L: Ledger>(
    rows: &mut KeptRows,
    first: usize,
    end: usize,
    arena: &Arena,
    steps: &mut Steps<L>,
)
    requires labels { rows.old.labels ≡ arena.now.schema.dim + 1 }
    requires width { rows.old.width ≡ length arena.now.schema.embeds }
    requires first { first ≤ end }
    requires end { end ≡ length rows.old.rows }
    requires room { end + (end - first) ≤ rows.old.room }
    ensures kept { AreBehindKept arena.now first end rows.old rows.new }
    ensures cost { steps.new ≤ steps.old + (arena.now.schema.dim + 3) * (end - first) }
    ensures rises { steps.old ≤ steps.new }
{
    // The arena tells here what it holds.
    prove!(arena.count() <= MOST_DARTS);
    for index in first..end {
        if let Some(slot) = arena.slot_of(rows.name(index), steps) {
            rows.mark_staying(index);
            rows.push(true, slot, arena, steps);
        }
    }
}

/// Puts the rows of `added` darts, by their names from `first` on, after the others.
fn keep_added<L: Ledger>(
    rows: &mut KeptRows,
    first: u32,
    added: u32,
    arena: &Arena,
    steps: &mut Steps<L>,
)
    requires labels { rows.old.labels ≡ arena.now.schema.dim + 1 }
    requires width { rows.old.width ≡ length arena.now.schema.embeds }
    requires room { length rows.old.rows + added ≤ rows.old.room }
    requires live { (number : ℕ) → number < added → IsLiveName arena.now (first + number) }
    ensures kept { AreAddedKept arena.now first added rows.old rows.new }
    ensures cost { steps.new ≡ steps.old + (arena.now.schema.dim + 3) * added }
{
    // The arena tells here what it holds.
    prove!(arena.count() <= MOST_DARTS);
    for number in 0..added {
        let Some(slot) = arena.slot_of(first + number, steps) else {
            unreachable!();
        };
        rows.push(false, slot, arena, steps);
    }
}
