//! A grid of squares, whose faces are triangulated, and the line that tells of it.
ghost use Rattle.std.specs.Prelude.{◌≡◌, ◌+◌, ◌*◌, ◌≤◌, ◌++◌, IfOk, List, OnOk};
ghost use Rattle.std.specs.List.{count_by};
ghost use Rattle.gm_arena.specs.inner.ArenaAsMap.{as_map};
ghost use Rattle.gm_cells.specs.Cells.{HasCells};
ghost use Rattle.gm_grid.specs.GridBook.{IsGridBook, IsGridScript};
ghost use Rattle.gm_grid.specs.GridMap.{IsGridMap};
ghost use Rattle.gm_model.specs.Maps.{IsGeneralised};
ghost use Rattle.gm_model.specs.Runs.{Outcome, is_done};
ghost use Rattle.gm_run.specs.inner.Lines.{Tells};
ghost use Rattle.gm_tool.specs.GridAnswer.{AreGridPlans, IsGridText, IsGridReply, grid_line};
ghost use Rattle.gm_tool.specs.StepBounds.{WithinGridMost, AtLeastOfGrid, GridRunsWithin, GridRunsAtLeast};

use crate::book::plans_of;
use crate::refusal::NoText;
use crate::reply::{Reply, stopped};
use gm_arena::{Arena, Steps};
use gm_cells::{count_cells, put_numbers};
use gm_grid::make_grid;
use gm_model::{Book, OutOfMemory, Script};
use gm_plan::Plan;
use gm_run::{Report, count_done, run};
use gm_text::{Text, put_number};
use gm_walk::Scratch;
use std::alloc::Global;
use std::sync::ledger::Ledger;

/// The line of a grid of `size` rows of `size` squares, each of whose faces is triangulated.
pub fn answer<L: Ledger>(alloc: Global, size: u8, steps: &mut Steps<L>) -> Result<Reply, NoText>
    requires least { 1 ≤ size }
    requires greatest { size ≤ 100 }
    ensures reply { IsGridReply size result }
    ensures most { WithinGridMost size steps.old steps.new }
    ensures least { IfOk result (λ _. AtLeastOfGrid size steps.old steps.new) }
{
    let mut grid = make_grid(alloc, size, steps)?;
    reply_on(
        alloc,
        size,
        &grid.book,
        &grid.script,
        &mut grid.arena,
        steps,
    )
}

/// The reply on a grid, which its owner lets go in one place.
fn reply_on<L: Ledger>(
    alloc: Global,
    size: u8,
    book: &Book,
    script: &Script,
    arena: &mut Arena,
    steps: &mut Steps<L>,
) -> Result<Reply, NoText>
    requires small { size ≤ 100 }
    requires grid { IsGridMap size (as_map arena.old) }
    requires book { IsGridBook book.now }
    requires script { IsGridScript size script.now }
    ensures reply { IsGridReply size result }
    ensures most { GridRunsWithin size steps.old steps.new }
    ensures least { IfOk result (λ _. GridRunsAtLeast size steps.old steps.new) }
{
    let plans = match plans_of(alloc, book) {
        Ok(plans) => plans,
        Err(stop) => return stopped(stop),
    };
    let text = triangulated(alloc, size, plans.as_slice(), script, arena, steps)?;
    Ok(Reply { status: 0, text })
}

/// Applies the lines of the script to the grid, and makes the line.
fn triangulated<L: Ledger>(
    alloc: Global,
    size: u8,
    plans: &[Plan<'_>],
    script: &Script,
    arena: &mut Arena,
    steps: &mut Steps<L>,
) -> Result<Vec<u8>, OutOfMemory>
    requires small { size ≤ 100 }
    requires grid { IsGridMap size (as_map arena.old) }
    requires plans { AreGridPlans plans.now }
    requires script { IsGridScript size script.now }
    ensures line { IfOk result (λ text. IsGridText size text.items) }
    ensures most { GridRunsWithin size steps.old steps.new }
    ensures least { IfOk result (λ _. GridRunsAtLeast size steps.old steps.new) }
{
    let report = run(alloc, plans, script, arena, steps)?;
    let cells = cells_of(alloc, arena, steps)?;
    line_of(alloc, size, &report, cells.as_slice())
}

/// How many cells the map has, by dimension.
fn cells_of<L: Ledger>(
    alloc: Global,
    arena: &Arena,
    steps: &mut Steps<L>,
) -> Result<Vec<u32>, OutOfMemory>
    requires { IsGeneralised (as_map arena.now) }
    ensures cells { IfOk result (λ cells. HasCells (as_map arena.now) cells.items) }
    ensures cost { steps.new ≤ steps.old + (arena.now.schema.dim + 1) * (8 * (arena.now.schema.dim + 1) * arena.now.count) }
    ensures least { steps.old ≤ steps.new }
{
    let mut scratch = Scratch::new(alloc);
    count_cells(alloc, arena, &mut scratch, steps)
}

fn line_of(alloc: Global, size: u8, report: &Report, cells: &[u32]) -> Result<Vec<u8>, OutOfMemory>
    ensures { IfOk result (λ line. (outcomes : List Outcome) → Tells report.now.lines outcomes → line.items ≡ grid_line size (count_by is_done outcomes) report.now.darts report.now.next cells.now) }
{
    let done = count_done(report.lines.as_slice());
    let mut text = Text::new(alloc);
    put_line(&mut text, size, done, report, cells)?;
    Ok(text.into_bytes())
}

fn put_line(
    text: &mut Text,
    size: u8,
    done: usize,
    report: &Report,
    cells: &[u32],
) -> Result<(), OutOfMemory>
    ensures { OnOk result (text.new ≡ text.old ++ grid_line size done report.now.darts report.now.next cells.now) }
{
    put_number(text, b"grid ", u64::from(size))?;
    put_number(text, b" applied ", done as u64)?;
    put_number(text, b" darts ", u64::from(report.darts))?;
    put_number(text, b" next ", u64::from(report.next))?;
    text.put(b" cells")?;
    put_numbers(text, cells)?;
    text.put(b"\n")
}
