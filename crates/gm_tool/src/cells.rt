//! The command `cells`.

ghost use Rattle.std.specs.Prelude.{ℕ, IfOk, List};
ghost use Rattle.gm_arena.specs.inner.ArenaAsMap.{as_map};
ghost use Rattle.gm_cells.specs.Cells.{AreCounts};
ghost use Rattle.gm_cells.specs.Colours.{IsOrientation};
ghost use Rattle.gm_mapfile.specs.MapText.{MapText};
ghost use Rattle.gm_mapfile.specs.inner.Rows.{listed_of};
ghost use Rattle.gm_mapfile.specs.declared.version.MapVersion.{MapVersion};
ghost use Rattle.gm_model.specs.Maps.{IsGeneralised};
ghost use Rattle.gm_tool.specs.Answer.{Cells, TellsCells};
ghost use Rattle.gm_tool.specs.inner.Replies.{IsJudged};

use crate::map::refused;
use crate::refusal::NoText;
use crate::reply::{Reply, reply_within_limit};
use gm_arena::{Arena, Steps};
use gm_cells::{Counts, Orientation, count_and_orient, print_cells};
use gm_mapfile::take_map;
use gm_model::{MOST_DARTS, OutOfMemory};
use gm_walk::Scratch;
use std::alloc::Global;
use std::sync::ledger::Ledger;

/// The numbers and the orientation of the map that a file's text stands for, or the line that
/// refuses it.
pub fn cells<L: Ledger>(
    alloc: Global,
    bytes: Vec<u8>,
    steps: &mut Steps<L>,
) -> Result<Reply, NoText>
    ensures { IsJudged bytes.items Cells result }
{
    let read = match take_map(alloc, bytes, steps) {
        Ok(read) => read,
        Err(no_map) => return refused(alloc, no_map),
    };
    told(alloc, &read.arena, steps)
}

/// The reply for a map, which its owner lets go in one place.
fn told<L: Ledger>(alloc: Global, arena: &Arena, steps: &mut Steps<L>) -> Result<Reply, NoText>
    requires { IsGeneralised (as_map arena.now) }
    ensures { (bytes : List ℕ) (version : MapVersion) → MapText bytes version (listed_of arena.now) → IsJudged bytes Cells result }
{
    prove!(arena.count() <= MOST_DARTS);
    let text = text_of(alloc, arena, steps)?;
    reply_within_limit(0, text)
}

/// The lines of a map's numbers, and those of its orientation.
fn text_of<L: Ledger>(
    alloc: Global,
    arena: &Arena,
    steps: &mut Steps<L>,
) -> Result<Vec<u8>, OutOfMemory>
    requires { IsGeneralised (as_map arena.now) }
    ensures { IfOk result (λ text. TellsCells (as_map arena.now) text.items) }
{
    let found = found_in(alloc, arena, steps)?;
    print_cells(alloc, &found.0, &found.1)
}

/// The numbers and the orientation, in a scratch that is let go here.
fn found_in<L: Ledger>(
    alloc: Global,
    arena: &Arena,
    steps: &mut Steps<L>,
) -> Result<(Counts, Orientation), OutOfMemory>
    requires { IsGeneralised (as_map arena.now) }
    ensures counts { IfOk result (λ both. AreCounts (as_map arena.now) both.0) }
    ensures orientation { IfOk result (λ both. IsOrientation (as_map arena.now) both.1) }
{
    let mut scratch = Scratch::new(alloc);
    count_and_orient(alloc, arena, &mut scratch, steps)
}
