//! The command `show`, and the map that other commands read.

ghost use Rattle.std.specs.Prelude.{ℕ, ◌+◌, ◌≤◌, IfOk, IfErr, List};
ghost use Rattle.gm_arena.specs.inner.Lawful.{IsLawful};
ghost use Rattle.gm_mapfile.specs.inner.Faults.{IsWhyNot};
ghost use Rattle.gm_mapfile.specs.MapText.{MapText};
ghost use Rattle.gm_mapfile.specs.inner.Rows.{listed_of};
ghost use Rattle.gm_tool.specs.Answer as answer;
ghost use Rattle.gm_tool.specs.Answer.{Show};
ghost use Rattle.gm_lines.specs.Refusing.{TheMap};
ghost use Rattle.gm_tool.specs.inner.Replies.{IsJudged, IsMapRefusal};
ghost use Rattle.gm_tool.specs.RunAnswer.{IsBadMap};
ghost use Rattle.gm_tool.specs.StepBounds.{BytesReadWithin, ShowsWithin, printing};
ghost use Rattle.gm_tool.specs.inner.Stops.{IsReadMap, IsBadFor};

use crate::refusal::{NoText, Stop};
use crate::reply::{Reply, reply_within_limit};
use gm_arena::{Arena, Steps};
use gm_lines::map_line;
use gm_mapfile::{MapRead, MapVersion, NoMap, print_map, read_map_or_why, take_map};
use gm_model::MOST_DARTS;
use std::alloc::Global;
use std::sync::ledger::Ledger;

/// The canonical text of the map that a file's text stands for, or the line that refuses it.
pub fn show<L: Ledger>(alloc: Global, bytes: Vec<u8>, steps: &mut Steps<L>) -> Result<Reply, NoText>
    ensures judged { IsJudged bytes.items Show result }
    ensures most { ShowsWithin bytes.items steps.old steps.new }
{
    let read = match take_map(alloc, bytes, steps) {
        Ok(read) => read,
        Err(no_map) => return refused(alloc, no_map),
    };
    printed(alloc, &read.arena, read.version, steps)
}

/// The canonical text of a map, which its owner lets go in one place.
fn printed<L: Ledger>(
    alloc: Global,
    arena: &Arena,
    version: MapVersion,
    steps: &mut Steps<L>,
) -> Result<Reply, NoText>
    ensures judged { (bytes : List ℕ) → MapText bytes version (listed_of arena.now) → IsJudged bytes Show result }
    ensures lawful { IsLawful arena.now }
    ensures most { steps.new ≤ steps.old + printing arena.now.schema.dim arena.now.count }
{
    prove!(arena.count() <= MOST_DARTS);
    let text = print_map(alloc, arena, version, steps)?;
    reply_within_limit(0, text)
}

/// The line that refuses the text of a map.
pub fn refused(alloc: Global, no_map: NoMap) -> Result<Reply, NoText>
    ensures { (bytes : List ℕ) → IsWhyNot bytes no_map → IsMapRefusal bytes result }
{
    let text = map_line(alloc, no_map)?;
    Ok(Reply { status: 4, text })
}

/// The map that a file's text stands for, or the line that refuses it.
pub fn read<L: Ledger>(alloc: Global, bytes: &[u8], steps: &mut Steps<L>) -> Result<MapRead, Stop>
    ensures map { IfOk result (IsReadMap bytes.now) }
    ensures stop { IfErr result (IsBadFor TheMap (IsBadMap bytes.now)) }
    ensures most { BytesReadWithin bytes.now steps.old steps.new }
    ensures least { IfOk result (λ read. steps.old + read.arena.count ≤ steps.new) }
{
    match read_map_or_why(alloc, bytes, steps) {
        Ok(read) => Ok(read),
        Err(no_map) => Err(Stop::because(map_line(alloc, no_map))),
    }
}
