//! The duals of a map and of a book.
ghost use Rattle.std.specs.Prelude.{◌≡◌, ◌+◌, ◌*◌, ◌≤◌, IfOk, IfErr, IfSome, List, ℕ, map};
ghost use Rattle.gm_arena.specs.inner.ArenaAsMap.{as_map};
ghost use Rattle.gm_arena.specs.inner.Lawful.{IsLawful};
ghost use Rattle.gm_book.specs.Canonical as books;
ghost use Rattle.gm_dual.specs.Duals as duals;
ghost use Rattle.gm_host.specs.Count.{Rises};
ghost use Rattle.gm_mapfile.specs.inner.Rows.{listed_of};
ghost use Rattle.gm_model.specs.Maps.{IsSchema, IsSound};
ghost use Rattle.gm_model.specs.Rules.{rule_of};
ghost use Rattle.gm_tool.specs.DualAnswer.{dual_names_of, dual_inputs_of, IsDualMade, IsDualMapText, IsDualReply, IsDualText, IsDualUnloaded, DualLoadsInOrder, DualStopsInTime};
ghost use Rattle.gm_tool.specs.Loads.{FailsAt, UnlessNoMemory, UnlessNoMemoryToMake};
ghost use Rattle.gm_tool.specs.MadeRuns.{IsSoundReply};
ghost use Rattle.gm_tool.specs.OwnFiles.{LoadsFirst, dual_files};
ghost use Rattle.gm_tool.specs.inner.Replies.{IsPlainStatus};
ghost use Rattle.gm_tool.specs.StepBounds.{FileDualsWithin, turning};
ghost use Rattle.gm_tool.specs.inner.Stops.{IsReadBook, IsReadMap, IsSoundStop};
ghost use Rattle.gm_tool.specs.declared.refusal.NoText.TheVariants as nothing;
ghost use Rattle.gm_tool.specs.declared.refusal.Stop.TheVariants as stops;

use crate::command::DualFiles;
use crate::refusal::{NoText, Stop};
use crate::reply::{Reply, reply_within_limit, stopped};
use crate::running::{load_book, load_map};
use gm_arena::{Arena, Steps};
use gm_book::print_book;
use gm_dual::{dual_book, dual_map};
use gm_host::Store;
use gm_mapfile::{MapRead, MapVersion, print_map};
use gm_model::{Book, MOST_DARTS, OutOfMemory};
use std::alloc::Global;
use std::sync::ledger::Ledger;

/// The text of the dual of the map, in the version.
fn map_text<L: Ledger>(
    alloc: Global,
    arena: &Arena,
    version: MapVersion,
    steps: &mut Steps<L>,
) -> Result<Vec<u8>, OutOfMemory>
    requires { IsSound (as_map arena.now) }
    ensures text { IfOk result (λ text. IsDualMapText version (listed_of arena.now) text.items) }
    ensures lawful { IsLawful arena.now }
    ensures most { steps.new ≤ steps.old + turning arena.now.schema.dim arena.now.count }
{
    prove!(arena.count() <= MOST_DARTS);
    let dual = dual_map(alloc, arena, steps)?;
    prove!(dual.count() <= MOST_DARTS);
    print_map(alloc, &dual, version, steps)
}

/// The text of the dual of the book.
fn book_text(alloc: Global, book: &Book) -> Result<Vec<u8>, OutOfMemory>
    requires read { (bytes : List ℕ) × IsReadBook bytes book.now }
    requires declared { IsSchema book.now.schema }
    ensures { IfOk result (λ text. text.items ≡ books.canonical book.now.version (duals.dual_schema book.now.schema) (map (duals.dual_rule book.now.schema.dim) (map rule_of book.now.rules))) }
{
    let dual = dual_book(alloc, book)?;
    print_book(alloc, &dual)
}

/// The text of the dual of the map, and directly after it that of the dual of the book.
fn texts<L: Ledger>(
    alloc: Global,
    read: &MapRead,
    book: &Book,
    steps: &mut Steps<L>,
) -> Result<Vec<u8>, Stop>
    requires map { (bytes : List ℕ) × IsReadMap bytes read.now }
    requires book { (bytes : List ℕ) × IsReadBook bytes book.now }
    requires declared { IsSchema book.now.schema }
    ensures text { IfOk result (λ text. IsDualText (dual_inputs_of read.now.version read.now.arena book.now) text.items) }
    ensures no_memory { IfErr result (λ stop. stop ≡ stops.NoText nothing.OutOfMemory) }
    ensures lawful { IsLawful read.now.arena }
    ensures most { steps.new ≤ steps.old + turning read.now.arena.schema.dim read.now.arena.count }
{
    let mut text = map_text(alloc, &read.arena, read.version, steps)?;
    let more = book_text(alloc, book)?;
    text.extend_from_slice(more.as_slice())?;
    Ok(text)
}

/// The texts of the duals of what the files hold.
fn texts_of<S: Store, L: Ledger>(
    alloc: Global,
    files: DualFiles<'_>,
    store: &mut S,
    steps: &mut Steps<L>,
) -> Result<Vec<u8>, Stop>
    ensures held { S.holds store.new ≡ S.holds store.old }
    ensures no_save { S.saves store.new ≡ S.saves store.old }
    ensures no_save_fault { S.save_faults store.new ≡ S.save_faults store.old }
    ensures in_order { DualLoadsInOrder (S.holds store.old) (dual_names_of files.entry) (S.loads store.old) (S.loads store.new) }
    ensures own_files { LoadsFirst (dual_files (dual_names_of files.entry)) (S.loaded store.old) (S.loaded store.new) }
    ensures counted_loads { IfSome (S.holds store.old) (λ held. UnlessNoMemoryToMake result (DualStopsInTime held (dual_names_of files.entry) (Rises (S.load_faults store.old) (S.load_faults store.new)) (S.loads store.old) (S.loads store.new))) }
    ensures made { IfSome (S.holds store.old) (λ held. IsDualMade held (dual_names_of files.entry) (FailsAt (S.load_faults store.old) (S.load_faults store.new) (S.loads store.old) (S.loads store.new)) result) }
    ensures most { FileDualsWithin (S.holds store.old) files.entry.map.now steps.old steps.new }
    ensures sound { IfErr result (λ stop. IsSoundStop stop (IsDualUnloaded (S.holds store.old) (dual_names_of files.entry) (FailsAt (S.load_faults store.old) (S.load_faults store.new) (S.loads store.old) (S.loads store.new)))) }
{
    // Only the map is kept: the bytes of its file go before the book is loaded.
    let read = load_map(alloc, files.map, store, steps)?.map;
    let book = load_book(alloc, files.book, store)?;
    texts(alloc, &read, &book, steps)
}

/// The texts of the duals, or the line that refuses one of the files. Map and book needn't agree, and
/// no rule need be accepted.
pub fn answer<S: Store, L: Ledger>(
    alloc: Global,
    files: DualFiles<'_>,
    store: &mut S,
    steps: &mut Steps<L>,
) -> Result<Reply, NoText>
    ensures held { S.holds store.new ≡ S.holds store.old }
    ensures no_save { S.saves store.new ≡ S.saves store.old }
    ensures no_save_fault { S.save_faults store.new ≡ S.save_faults store.old }
    ensures in_order { DualLoadsInOrder (S.holds store.old) (dual_names_of files.entry) (S.loads store.old) (S.loads store.new) }
    ensures own_files { LoadsFirst (dual_files (dual_names_of files.entry)) (S.loaded store.old) (S.loaded store.new) }
    ensures counted_loads { IfSome (S.holds store.old) (λ held. UnlessNoMemory result (DualStopsInTime held (dual_names_of files.entry) (Rises (S.load_faults store.old) (S.load_faults store.new)) (S.loads store.old) (S.loads store.new))) }
    ensures text { IfSome (S.holds store.old) (λ held. IsDualReply held (dual_names_of files.entry)
        (FailsAt (S.load_faults store.old) (S.load_faults store.new) (S.loads store.old) (S.loads store.new)) (Rises (S.save_faults store.old) (S.save_faults store.new)) (S.holds store.new) result) }
    ensures statuses { IfOk result (λ reply. IsPlainStatus reply.status) }
    ensures sound { IsSoundReply result
        (IsDualUnloaded (S.holds store.old) (dual_names_of files.entry) (FailsAt (S.load_faults store.old) (S.load_faults store.new) (S.loads store.old) (S.loads store.new)))
        (Rises (S.save_faults store.old) (S.save_faults store.new)) }
    ensures most { FileDualsWithin (S.holds store.old) files.entry.map.now steps.old steps.new }
{
    match texts_of(alloc, files, store, steps) {
        Ok(text) => reply_within_limit(0, text),
        Err(stop) => stopped(stop),
    }
}
