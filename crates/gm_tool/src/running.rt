//! The command `run`: its files loaded, its lines run, and its map saved.

ghost use Rattle.std.specs.Prelude.{◌≡◌, ◌↔◌, ◌+◌, ◌≤◌, ◌⊎◌, ◌∷◌, ◌++◌, [], ℕ, IfOk, IfErr, IfSome, IsErrOf, IsTrue, List, map};
ghost use Rattle.gm_host.specs.Count.{counted, Rises};
ghost use Rattle.gm_model.specs.Maps.{IsSchema, IsSound};
ghost use Rattle.gm_model.specs.Rules.{rule_of};
ghost use Rattle.gm_lines.specs.Refusing.{TheMap, TheBook, TheScript};
ghost use Rattle.gm_tool.specs.inner.Begun.{Counts, HasBegun};
ghost use Rattle.gm_tool.specs.Endings.{status_given};
ghost use Rattle.gm_tool.specs.Loads.{FailsAt, StopsInTime, LoadsInOrder, IsUnloaded, CountsSaves, UnlessNoMemory, UnlessNoMemoryToMake};
ghost use Rattle.gm_tool.specs.MadeRuns.{names_of, inputs_of, CanRun, IsFitted, IsPrinted, IsRunOf, IsMapBytes, IsMade, IsRunStatus, HoldsMap, IsRunText, IsSaving, IsSoundReply};
ghost use Rattle.gm_tool.specs.OwnFiles.{LoadsAtMost, LoadsFirst, run_files};
ghost use Rattle.gm_tool.specs.Tool.{IsReplyStatus};
ghost use Rattle.gm_tool.specs.RunAnswer.{IsBadMap, IsBadBookText, IsBadScript, says_refused, run_status};
ghost use Rattle.gm_tool.specs.declared.refusal.NoText.TheVariants as nothing;
ghost use Rattle.gm_tool.specs.StepBounds.{ReadsWithin, RunsWithin, RunsAtLeast, WithinMost, AtLeast, printing};
ghost use Rattle.gm_tool.specs.inner.Stops.{IsFrom, IsLoadedMap, IsReadMap, IsReadBook, IsReadScript, IsSoundStop};
ghost use Rattle.gm_arena.specs.inner.ArenaAsMap.{as_map};
ghost use Rattle.gm_arena.specs.inner.Lawful.{IsLawful};
ghost use Rattle.gm_mapfile.specs.inner.Rows.{listed_of};
ghost use Rattle.gm_mapfile.specs.MapText.{canonical};
ghost use Rattle.gm_model.specs.Reports.{report_text};
ghost use Rattle.gm_model.specs.Runs as runs;
ghost use Rattle.gm_run.specs.inner.Lines.{outcome_of, Tells};
ghost use Rattle.gm_run.specs.inner.Printing.{CanBePrinted};

use crate::book::plans_of;
use crate::command::RunFiles;
use crate::load::load_file;
use crate::refusal::{NoText, Refusal, Role, Stop};
use crate::reply::{MOST_BYTES, Reply, stopped};
use crate::{book, map, script};
use gm_arena::Steps;
use gm_host::{SaveFault, Store};
use gm_mapfile::{MapRead, print_map_over};
use gm_model::{Book, Embed, MOST_DARTS, Schema, Script};
use gm_plan::Plan;
use gm_run::{Outcome, Report, print_report};
use std::alloc::Global;
use std::sync::ledger::Ledger;

/// What is saved and printed, with the status where that goes well.
#[derive(Drop)]
pub struct Made {
    pub status: u8,
    pub report: Vec<u8>,
    pub map: Vec<u8>,
}

/// A map with the bytes of its file, whose room a text that is printed later can take.
#[derive(Drop)]
pub struct Loaded {
    pub map: MapRead,
    pub text: Vec<u8>,
}

/// The map in the file of this name, with the bytes of the file, or why there is none.
pub fn load_map<S: Store, L: Ledger>(
    alloc: Global,
    name: &str,
    store: &mut S,
    steps: &mut Steps<L>,
) -> Result<Loaded, Stop>
    ensures held { S.holds store.new ≡ S.holds store.old }
    ensures no_save { S.saves store.new ≡ S.saves store.old }
    ensures no_save_fault { S.save_faults store.new ≡ S.save_faults store.old }
    ensures faults_never_fall { S.load_faults store.old ≤ S.load_faults store.new }
    ensures once { S.loads store.new ≡ counted (S.loads store.old) }
    ensures named { S.loaded store.new ≡ S.loaded store.old ++ name.now ∷ [] }
    ensures read { IfOk result (λ loaded. (bytes : List ℕ) × IsLoadedMap bytes loaded) }
    ensures from { IsFrom (S.holds store.old) TheMap name.now IsLoadedMap IsBadMap (Rises (S.load_faults store.old) (S.load_faults store.new)) result }
    ensures most { ReadsWithin (S.holds store.old) name.now steps.old steps.new }
    ensures least { IfOk result (λ loaded. steps.old + loaded.map.arena.count ≤ steps.new) }
{
    let text = load_file(alloc, name, Role::Map, store)?;
    let map = map::read(alloc, text.as_slice(), steps)?;
    Ok(Loaded { map, text })
}

/// The book in the file of this name, or why there is none.
pub fn load_book<S: Store>(alloc: Global, name: &str, store: &mut S) -> Result<Book, Stop>
    ensures held { S.holds store.new ≡ S.holds store.old }
    ensures no_save { S.saves store.new ≡ S.saves store.old }
    ensures no_save_fault { S.save_faults store.new ≡ S.save_faults store.old }
    ensures faults_never_fall { S.load_faults store.old ≤ S.load_faults store.new }
    ensures once { S.loads store.new ≡ counted (S.loads store.old) }
    ensures named { S.loaded store.new ≡ S.loaded store.old ++ name.now ∷ [] }
    ensures read { IfOk result (λ book. (bytes : List ℕ) × IsReadBook bytes book) }
    ensures declared { IfOk result (λ book. IsSchema book.schema) }
    ensures from { IsFrom (S.holds store.old) TheBook name.now IsReadBook IsBadBookText (Rises (S.load_faults store.old) (S.load_faults store.new)) result }
{
    let bytes = load_file(alloc, name, Role::Book, store)?;
    book::read(alloc, bytes.as_slice())
}

fn load_script<S: Store>(
    alloc: Global,
    name: &str,
    book: &Book,
    store: &mut S,
) -> Result<Script, Stop>
    requires { (bytes : List ℕ) × IsReadBook bytes book.now }
    ensures held { S.holds store.new ≡ S.holds store.old }
    ensures no_save { S.saves store.new ≡ S.saves store.old }
    ensures no_save_fault { S.save_faults store.new ≡ S.save_faults store.old }
    ensures faults_never_fall { S.load_faults store.old ≤ S.load_faults store.new }
    ensures once { S.loads store.new ≡ counted (S.loads store.old) }
    ensures named { S.loaded store.new ≡ S.loaded store.old ++ name.now ∷ [] }
    ensures read { IfOk result (λ script. (bytes : List ℕ) × IsReadScript book.now.schema.dim (map rule_of book.now.rules) bytes script) }
    ensures from { IsFrom (S.holds store.old) TheScript name.now (IsReadScript book.now.schema.dim (map rule_of book.now.rules)) (IsBadScript book.now.schema.dim (map rule_of book.now.rules)) (Rises (S.load_faults store.old) (S.load_faults store.new)) result }
{
    let bytes = load_file(alloc, name, Role::Script, store)?;
    script::read(alloc, bytes.as_slice(), book)
}

/// The line of the outcome says that something was refused.
fn is_refused(outcome: &Outcome) -> bool
    ensures { (told : runs.Outcome) → outcome_of outcome.now ≡ Some told → result ≡ says_refused told }
{
    match outcome {
        Outcome::Refused(_) | Outcome::NothingToUndo | Outcome::NothingToRedo => true,
        Outcome::Each { refused, .. } => *refused > 0,
        Outcome::Done(_)
        | Outcome::Skipped
        | Outcome::Undone
        | Outcome::Redone
        | Outcome::Begun
        | Outcome::Kept
        | Outcome::Dropped => false,
    }
}

/// 1 where a line was refused.
fn status_of(outcomes: &[Outcome]) -> u8
    ensures { (told : List runs.Outcome) → Tells outcomes.now told → result ≡ run_status told }
{
    for outcome in outcomes {
        if is_refused(outcome) {
            return 1;
        }
    }
    0
}

fn within_limit(status: u8, report: Vec<u8>, map: Vec<u8>) -> Result<Made, Stop>
    ensures { IsFitted status report.items map.items result }
{
    if report.len() > MOST_BYTES || map.len() > MOST_BYTES {
        return Err(Stop::NoText(NoText::Refused(Refusal::SizeOutput)));
    }
    Ok(Made {
        status,
        report,
        map,
    })
}

/// The report of the statements, and the text of the map that they left, in the room of the loaded
/// text. The map is let go before the report takes its room.
fn printed<L: Ledger>(
    alloc: Global,
    book: &Book,
    script: Script,
    report: Report,
    loaded: Loaded,
    steps: &mut Steps<L>,
) -> Result<Made, Stop>
    requires printable { CanBePrinted book.now.schema (map rule_of book.now.rules) script.stats report.lines }
    ensures lawful { IsLawful loaded.map.arena }
    ensures texts { (told : List runs.Outcome) → Tells report.lines told → IsPrinted (run_status told)
        (report_text book.now.schema (map rule_of book.now.rules) script.stats told report.darts report.next)
        (canonical loaded.map.version (listed_of loaded.map.arena)) result }
    ensures map { IfOk result (λ made. IsSound (as_map loaded.map.arena) → IsMapBytes made.map.items) }
    ensures most { steps.new ≤ steps.old + printing loaded.map.arena.schema.dim loaded.map.arena.count }
    ensures least { IfOk result (λ _. steps.old + loaded.map.arena.count ≤ steps.new) }
{
    let Loaded {
        map: MapRead { arena, version },
        text: room,
    } = loaded;
    prove!(arena.count() <= MOST_DARTS);
    let map = print_map_over(room, &arena, version, steps)?;
    drop(arena);
    let text = print_report(alloc, book, &script, &report)?;
    let status = status_of(report.lines.as_slice());
    within_limit(status, text, map)
}

/// Runs the statements over the map, and makes the report and the text of the map that they leave.
fn applied<L: Ledger>(
    alloc: Global,
    plans: &[Plan<'_>],
    book: &Book,
    script: Script,
    mut loaded: Loaded,
    steps: &mut Steps<L>,
) -> Result<Made, Stop>
    requires { CanRun loaded.map.arena book.now script plans.now }
    ensures run { IsRunOf (inputs_of loaded.map.version loaded.map.arena book.now script) result }
    ensures map { IfOk result (λ made. IsMapBytes made.map.items) }
    ensures lawful { IsLawful loaded.map.arena }
    ensures most { RunsWithin (inputs_of loaded.map.version loaded.map.arena book.now script) steps.old steps.new }
    ensures least { IfOk result (λ _. RunsAtLeast (inputs_of loaded.map.version loaded.map.arena book.now script) steps.old steps.new) }
{
    prove!(loaded.map.arena.count() <= MOST_DARTS);
    let report = gm_run::run(alloc, plans, &script, &mut loaded.map.arena, steps)?;
    printed(alloc, book, script, report, loaded, steps)
}

/// The map and the book are of one dimension, with the same embeddings in the same order.
fn agree(map: &Schema, book: &Schema) -> bool
    ensures { IsTrue result ↔ (map.now ≡ book.now) }
{
    map.dim.top() == book.dim.top() && same_embeds(map.embeds.as_slice(), book.embeds.as_slice())
}

fn same_embeds(embeds: &[Embed], others: &[Embed]) -> bool
    ensures { IsTrue result ↔ (embeds.now ≡ others.now) }
{
    if embeds.len() != others.len() {
        return false;
    }
    for at in 0..embeds.len() {
        if !same_embed(&embeds[at], &others[at]) {
            return false;
        }
    }
    true
}

fn same_embed(embed: &Embed, other: &Embed) -> bool
    ensures { IsTrue result ↔ (embed.now ≡ other.now) }
{
    embed.name.bytes() == other.name.bytes()
        && embed.mask.bits == other.mask.bits
        && embed.kind == other.kind
}

/// What is saved and printed of the run, which loads its files and saves nothing.
fn prepared<S: Store, L: Ledger>(
    alloc: Global,
    files: RunFiles<'_>,
    store: &mut S,
    steps: &mut Steps<L>,
) -> Result<Made, Stop>
    ensures held { S.holds store.new ≡ S.holds store.old }
    ensures no_save { S.saves store.new ≡ S.saves store.old }
    ensures no_save_fault { S.save_faults store.new ≡ S.save_faults store.old }
    ensures in_order { LoadsInOrder (S.holds store.old) (names_of files.entry) (S.loads store.old) (S.loads store.new) }
    ensures own_files { LoadsFirst (run_files (names_of files.entry)) (S.loaded store.old) (S.loaded store.new) }
    ensures counted_loads { IfSome (S.holds store.old) (λ held. UnlessNoMemoryToMake result (StopsInTime held (names_of files.entry) (Rises (S.load_faults store.old) (S.load_faults store.new)) (S.loads store.old) (S.loads store.new))) }
    ensures made { IfSome (S.holds store.old) (λ held. IsMade held (names_of files.entry) (FailsAt (S.load_faults store.old) (S.load_faults store.new) (S.loads store.old) (S.loads store.new)) result) }
    ensures map { IfOk result (λ made. IsMapBytes made.map.items) }
    ensures status { IfOk result (λ made. IsRunStatus made.status) }
    ensures most { IfSome (S.holds store.old) (λ held. WithinMost held (names_of files.entry) steps.old steps.new) }
    ensures least { IfOk result (λ _. IfSome (S.holds store.old) (λ held. AtLeast held (names_of files.entry) steps.old steps.new)) }
    ensures sound { IfErr result (λ stop. IsSoundStop stop (IsUnloaded (S.holds store.old) (names_of files.entry) (FailsAt (S.load_faults store.old) (S.load_faults store.new) (S.loads store.old) (S.loads store.new)))) }
{
    let loaded = load_map(alloc, files.map, store, steps)?;
    let book = load_book(alloc, files.book, store)?;
    prepared_behind(alloc, files, loaded, &book, store, steps)
}

/// The same of a run whose map and book were read. The map is printed in the room of its text.
fn prepared_behind<S: Store, L: Ledger>(
    alloc: Global,
    files: RunFiles<'_>,
    loaded: Loaded,
    book: &Book,
    store: &mut S,
    steps: &mut Steps<L>,
) -> Result<Made, Stop>
    requires read { (bytes : List ℕ) × IsReadMap bytes loaded.map }
    requires book { (bytes : List ℕ) × IsReadBook bytes book.now }
    requires declared { IsSchema book.now.schema }
    ensures held { S.holds store.new ≡ S.holds store.old }
    ensures no_save { S.saves store.new ≡ S.saves store.old }
    ensures no_save_fault { S.save_faults store.new ≡ S.save_faults store.old }
    ensures script { LoadsAtMost files.entry.script.now (S.loaded store.old) (S.loaded store.new) }
    ensures in_order { (start : Counts) → HasBegun (S.holds store.old) (names_of files.entry) loaded.map book.now start (S.load_faults store.old) (S.loads store.old) steps.old →
        LoadsInOrder (S.holds store.old) (names_of files.entry) start.loads (S.loads store.new) }
    ensures counted_loads { (start : Counts) → HasBegun (S.holds store.old) (names_of files.entry) loaded.map book.now start (S.load_faults store.old) (S.loads store.old) steps.old →
        IfSome (S.holds store.old) (λ held. UnlessNoMemoryToMake result (StopsInTime held (names_of files.entry) (Rises start.faults (S.load_faults store.new)) start.loads (S.loads store.new))) }
    ensures made { (start : Counts) → HasBegun (S.holds store.old) (names_of files.entry) loaded.map book.now start (S.load_faults store.old) (S.loads store.old) steps.old →
        IfSome (S.holds store.old) (λ held. IsMade held (names_of files.entry) (FailsAt start.faults (S.load_faults store.new) start.loads (S.loads store.new)) result) }
    ensures map { IfOk result (λ made. IsMapBytes made.map.items) }
    ensures status { IfOk result (λ made. IsRunStatus made.status) }
    ensures most { (start : Counts) → HasBegun (S.holds store.old) (names_of files.entry) loaded.map book.now start (S.load_faults store.old) (S.loads store.old) steps.old →
        IfSome (S.holds store.old) (λ held. WithinMost held (names_of files.entry) start.steps steps.new) }
    ensures least { (start : Counts) → HasBegun (S.holds store.old) (names_of files.entry) loaded.map book.now start (S.load_faults store.old) (S.loads store.old) steps.old →
        IfOk result (λ _. IfSome (S.holds store.old) (λ held. AtLeast held (names_of files.entry) start.steps steps.new)) }
    ensures sound { (start : Counts) → HasBegun (S.holds store.old) (names_of files.entry) loaded.map book.now start (S.load_faults store.old) (S.loads store.old) steps.old →
        IfErr result (λ stop. IsSoundStop stop (IsUnloaded (S.holds store.old) (names_of files.entry) (FailsAt start.faults (S.load_faults store.new) start.loads (S.loads store.new)))) }
{
    let plans = plans_of(alloc, book)?;
    let script = load_script(alloc, files.script, book, store)?;
    if !agree(loaded.map.arena.schema(), &book.schema) {
        return Err(Stop::NoText(NoText::Refused(Refusal::Agree)));
    }
    applied(alloc, plans.as_slice(), book, script, loaded, steps)
}

/// Saves the map, and answers the text to print.
pub fn saved<S: Store>(out: &str, made: Made, store: &mut S) -> Result<Reply, NoText>
    ensures one_save { S.saves store.new ≡ counted (S.saves store.old) }
    ensures no_load { S.loads store.new ≡ S.loads store.old }
    ensures no_name { S.loaded store.new ≡ S.loaded store.old }
    ensures no_load_fault { S.load_faults store.new ≡ S.load_faults store.old }
    ensures no_save_fault { IfOk result (λ _. S.save_faults store.new ≡ S.save_faults store.old) }
    ensures saved { IsSaving (S.holds store.old) out.now made (Rises (S.save_faults store.old) (S.save_faults store.new)) (S.holds store.new) result }
{
    match store.save(out, made.map.as_slice()) {
        Ok(()) => Ok(Reply {
            status: made.status,
            text: made.report,
        }),
        Err(SaveFault::Failed) => Err(NoText::Refused(Refusal::Save)),
        Err(SaveFault::OutOfMemory) => Err(NoText::OutOfMemory),
    }
}

/// The report of the run, whose map is then saved; or the line that refuses it.
///
/// All that takes memory is made before the save.
pub fn answer<S: Store, L: Ledger>(
    alloc: Global,
    files: RunFiles<'_>,
    store: &mut S,
    steps: &mut Steps<L>,
) -> Result<Reply, NoText>
    ensures in_order { LoadsInOrder (S.holds store.old) (names_of files.entry) (S.loads store.old) (S.loads store.new) }
    ensures own_files { LoadsFirst (run_files (names_of files.entry)) (S.loaded store.old) (S.loaded store.new) }
    ensures text { IfSome (S.holds store.old) (λ held. IsRunText held (names_of files.entry)
        (FailsAt (S.load_faults store.old) (S.load_faults store.new) (S.loads store.old) (S.loads store.new)) (Rises (S.save_faults store.old) (S.save_faults store.new)) (S.holds store.new) result) }
    ensures statuses { IfOk result (λ reply. IsReplyStatus reply.status) }
    ensures sound { IsSoundReply result
        (IsUnloaded (S.holds store.old) (names_of files.entry) (FailsAt (S.load_faults store.old) (S.load_faults store.new) (S.loads store.old) (S.loads store.new)))
        (Rises (S.save_faults store.old) (S.save_faults store.new)) }
    ensures map { IfOk result (λ reply. IsRunStatus reply.status → HoldsMap (S.holds store.new) files.entry.out.now) }
    ensures most { IfSome (S.holds store.old) (λ held. WithinMost held (names_of files.entry) steps.old steps.new) }
    ensures least { IfOk result (λ reply. IfSome (S.holds store.old) (λ held. IsRunStatus reply.status → AtLeast held (names_of files.entry) steps.old steps.new)) }
    ensures counted_loads { IfSome (S.holds store.old) (λ held. UnlessNoMemory result (StopsInTime held (names_of files.entry) (Rises (S.load_faults store.old) (S.load_faults store.new)) (S.loads store.old) (S.loads store.new))) }
    ensures no_memory { IsErrOf result nothing.OutOfMemory → S.holds store.new ≡ S.holds store.old }
    ensures saves { CountsSaves (status_given result) (S.saves store.old) (S.saves store.new) }
    ensures no_save_fault { IfOk result (λ _. S.save_faults store.new ≡ S.save_faults store.old) }
{
    match prepared(alloc, files, store, steps) {
        Ok(made) => saved(files.out, made, store),
        Err(stop) => stopped(stop),
    }
}
