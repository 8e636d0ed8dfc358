//! The migration of a map to the second version of the format.
ghost use Rattle.std.specs.Prelude.{◌≡◌, ◌+◌, ◌≤◌, ◌⊎◌, ◌∷◌, ◌++◌, [], IfOk, IfSome, IsErrOf};
ghost use Rattle.gm_arena.specs.inner.ArenaAsMap.{as_map};
ghost use Rattle.gm_arena.specs.inner.Lawful.{IsLawful};
ghost use Rattle.gm_host.specs.Count.{counted, Rises};
ghost use Rattle.gm_host.specs.Store.{Lacks};
ghost use Rattle.gm_mapfile.specs.inner.Rows.{listed_of};
ghost use Rattle.gm_model.specs.Maps.{IsSound};
ghost use Rattle.gm_tool.specs.Endings.{status_given};
ghost use Rattle.gm_tool.specs.Loads.{FailsAt, CountsSaves};
ghost use Rattle.gm_tool.specs.MadeRuns.{HoldsMap, IsMapBytes, IsRunStatus, IsSoundReply};
ghost use Rattle.gm_tool.specs.Migrating.{migrate_names_of, migrated_line, IsMigrated, IsMigrateText};
ghost use Rattle.gm_tool.specs.inner.Replies.{IsPlainStatus};
ghost use Rattle.gm_tool.specs.StepBounds.{FileShowsWithin, printing};
ghost use Rattle.gm_tool.specs.declared.refusal.NoText.TheVariants as nothing;

use crate::command::MigrateFiles;
use crate::refusal::{NoText, Refusal};
use crate::reply::{MOST_BYTES, Reply, stopped};
use crate::running::{Loaded, Made, load_map, saved};
use gm_arena::{Arena, Steps};
use gm_host::Store;
use gm_mapfile::{MapVersion, print_map_over};
use gm_model::{MOST_DARTS, OutOfMemory};
use gm_text::{Text, put_number};
use std::alloc::Global;
use std::sync::ledger::Ledger;

/// The line that says how many darts the map has, and its next name.
fn line_of(alloc: Global, arena: &Arena) -> Result<Vec<u8>, OutOfMemory>
    ensures { IfOk result (λ line. line.items ≡ migrated_line (listed_of arena.now)) }
{
    let mut text = Text::new(alloc);
    put_number(&mut text, b"migrated darts ", arena.count() as u64)?;
    put_number(&mut text, b" next ", arena.next() as u64)?;
    text.put(b"\n")?;
    Ok(text.into_bytes())
}

/// The text of the map in the second version of the format, in the room of these bytes, and the line
/// that is printed.
fn prepared<L: Ledger>(
    alloc: Global,
    arena: &Arena,
    room: Vec<u8>,
    steps: &mut Steps<L>,
) -> Result<Made, NoText>
    ensures lawful { IsLawful arena.now }
    ensures made { IsMigrated (listed_of arena.now) result }
    ensures map { IfOk result (λ made. IsSound (as_map arena.now) → IsMapBytes made.map.items) }
    ensures most { steps.new ≤ steps.old + printing arena.now.schema.dim arena.now.count }
{
    prove!(arena.count() <= MOST_DARTS);
    let map = print_map_over(room, arena, MapVersion::Two, steps)?;
    if map.len() > MOST_BYTES {
        return Err(NoText::Refused(Refusal::SizeOutput));
    }
    let report = line_of(alloc, arena)?;
    Ok(Made {
        status: 0,
        report,
        map,
    })
}

/// The line of a migration, whose map is then saved; or the line that refuses it.
///
/// All that takes memory is made before the save.
pub fn answer<S: Store, L: Ledger>(
    alloc: Global,
    files: MigrateFiles<'_>,
    store: &mut S,
    steps: &mut Steps<L>,
) -> Result<Reply, NoText>
    ensures one_load { S.loads store.new ≡ counted (S.loads store.old) }
    ensures named { S.loaded store.new ≡ S.loaded store.old ++ files.entry.map.now ∷ [] }
    ensures text { IfSome (S.holds store.old) (λ held. IsMigrateText held (migrate_names_of files.entry)
        (FailsAt (S.load_faults store.old) (S.load_faults store.new) (S.loads store.old) (S.loads store.new)) (Rises (S.save_faults store.old) (S.save_faults store.new)) (S.holds store.new) result) }
    ensures statuses { IfOk result (λ reply. IsPlainStatus reply.status) }
    ensures sound { IsSoundReply result
        (λ _. FailsAt (S.load_faults store.old) (S.load_faults store.new) (S.loads store.old) (S.loads store.new) 1 ⊎ Lacks (S.holds store.old) files.entry.map.now)
        (Rises (S.save_faults store.old) (S.save_faults store.new)) }
    ensures map { IfOk result (λ reply. IsRunStatus reply.status → HoldsMap (S.holds store.new) files.entry.out.now) }
    ensures most { FileShowsWithin (S.holds store.old) files.entry.map.now steps.old steps.new }
    ensures no_memory { IsErrOf result nothing.OutOfMemory → S.holds store.new ≡ S.holds store.old }
    ensures saves { CountsSaves (status_given result) (S.saves store.old) (S.saves store.new) }
    ensures no_save_fault { IfOk result (λ _. S.save_faults store.new ≡ S.save_faults store.old) }
{
    let Loaded { map, text } = match load_map(alloc, files.map, store, steps) {
        Ok(loaded) => loaded,
        Err(stop) => return stopped(stop),
    };
    let made = prepared(alloc, &map.arena, text, steps)?;
    saved(files.out, made, store)
}
