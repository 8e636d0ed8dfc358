//! Where entries begin and end, and changes made and taken back one after another.
ghost use Rattle.std.specs.Prelude.{◌≡◌, ℕ, ◌+◌, ◌-◌, ◌*◌, ◌<◌, ◌≤◌, List, None, length};
ghost use Rattle.gm_undo.specs.inner.Costs.{cost_to};
ghost use Rattle.gm_undo.specs.inner.Layout.{IsLaidOut, changes_in};
ghost use Rattle.gm_undo.specs.inner.Standing.{AreChained, BeginsAt, IsEntry, Rows};
ghost use Rattle.gm_undo.specs.inner.Writing.{HasRoomOf};
ghost use Rattle.gm_undo.specs.inner.Kept.{KeptRow};

use crate::keeping::Made;
use crate::rows::KeptRows;
use crate::writing::{Part, write};
use gm_arena::{Arena, Steps};
use std::sync::ledger::Ledger;

/// Where the entry begins that ends with this number of changes.
pub(crate) fn entry_before(changes: &[Made], end: usize) -> usize
    requires { (rows : List KeptRow) × (start : ℕ) × IsEntry (changes_in rows changes.now) start end }
    ensures { (rows : List KeptRow) (start : ℕ) → IsEntry (changes_in rows changes.now) start end → result ≡ start }
{
    for index in (0..end).rev() {
        if changes[index].begins {
            return index;
        }
    }
    unreachable!()
}

/// Where the entry ends that begins with this number of changes.
pub(crate) fn entry_behind(changes: &[Made], start: usize) -> usize
    requires { (rows : List KeptRow) × (end : ℕ) × IsEntry (changes_in rows changes.now) start end }
    ensures { (rows : List KeptRow) (end : ℕ) → IsEntry (changes_in rows changes.now) start end → result ≡ end }
{
    for index in start + 1..changes.len() {
        if changes[index].begins {
            return index;
        }
    }
    changes.len()
}

/// Takes the changes from the one number to the other back, the last one first.
pub(crate) fn go_back<L: Ledger>(
    rows: &KeptRows,
    changes: &[Made],
    start: usize,
    end: usize,
    arena: &mut Arena,
    steps: &mut Steps<L>,
)
    requires laid_out { IsLaidOut rows.now.rows changes.now end None }
    requires start { start ≤ end }
    requires chained { (states : ℕ → Rows) × AreChained (changes_in rows.now.rows changes.now) arena.old states end }
    ensures chained { (states : ℕ → Rows) → AreChained (changes_in rows.now.rows changes.now) arena.old states end → AreChained (changes_in rows.now.rows changes.now) arena.new states start }
    ensures room { HasRoomOf arena.old arena.new }
    ensures cost { steps.new + cost_to arena.old.schema.dim (changes_in rows.now.rows changes.now) start ≤ steps.old + cost_to arena.old.schema.dim (changes_in rows.now.rows changes.now) end }
    ensures rises { steps.old ≤ steps.new }
{
    for index in (start..end).rev() {
        let change = changes[index];
        let from = Part {
            start: change.middle,
            end: change.end,
        };
        let to = Part {
            start: change.first,
            end: change.middle,
        };
        write(rows, from, to, change.next_before, arena, steps);
    }
}

/// Makes the changes from the one number to the other again.
pub(crate) fn go_on<L: Ledger>(
    rows: &KeptRows,
    changes: &[Made],
    start: usize,
    end: usize,
    arena: &mut Arena,
    steps: &mut Steps<L>,
)
    requires laid_out { IsLaidOut rows.now.rows changes.now end None }
    requires start { start ≤ end }
    requires chained { (states : ℕ → Rows) × AreChained (changes_in rows.now.rows changes.now) arena.old states start }
    ensures chained { (states : ℕ → Rows) → AreChained (changes_in rows.now.rows changes.now) arena.old states start → AreChained (changes_in rows.now.rows changes.now) arena.new states end }
    ensures room { HasRoomOf arena.old arena.new }
    ensures cost { steps.new + cost_to arena.old.schema.dim (changes_in rows.now.rows changes.now) start ≤ steps.old + cost_to arena.old.schema.dim (changes_in rows.now.rows changes.now) end }
    ensures rises { steps.old ≤ steps.new }
{
    for index in start..end {
        let change = changes[index];
        let from = Part {
            start: change.first,
            end: change.middle,
        };
        let to = Part {
            start: change.middle,
            end: change.end,
        };
        write(rows, from, to, change.next_after, arena, steps);
    }
}
