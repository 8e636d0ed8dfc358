//! The whole program over any store, sink and counter of steps.

ghost use Rattle.std.specs.Prelude.{◌≡◌, ◌≢◌, ◌⊎◌, ◌∷◌, ◌++◌, [], IsTrue, IsErrOf, IfSome, IfOk};
ghost use Rattle.gm_host.specs.Count.{counted, Rises};
ghost use Rattle.gm_tool.specs.Endings.{status_given};
ghost use Rattle.gm_tool.specs.Headline.{HeadlineHolds};
ghost use Rattle.gm_tool.specs.Loads.{FailsAt, OneAtMost};
ghost use Rattle.gm_tool.specs.MadeRuns.{IsSoundReply};
ghost use Rattle.gm_tool.specs.inner.Refusals.{command_in, IsRoleOf};
ghost use Rattle.gm_tool.specs.inner.Replies.{IsJudged};
ghost use Rattle.gm_host.specs.Store.{Lacks};
ghost use Rattle.gm_tool.specs.Answer as answer;
ghost use Rattle.gm_tool.specs.StepBounds.{KeepsSteps, ShowsWithin, FileShowsWithin};
ghost use Rattle.gm_tool.specs.Tool.{words_of, IsText, IsFileText, IsPut, IsReplyStatus, LeavesWhereTold, EndsAs};
ghost use Rattle.gm_tool.specs.declared.refusal.NoText.TheVariants as nothing;

use crate::command::{Command, command_of, dual_of, grid_of, migrate_of, run_of};
use crate::load::load_file;
use crate::refusal::{NoText, Refusal, Role};
use crate::reply::Reply;
use crate::{book, cells, check, dual, grid, map, migrating, running};
use gm_arena::Steps;
use gm_host::{PutFault, Sink, Store};
use std::alloc::Global;
use std::sync::ledger::Ledger;

/// What the command prints of the bytes of its file.
fn judged<L: Ledger>(
    alloc: Global,
    command: Command,
    bytes: Vec<u8>,
    steps: &mut Steps<L>,
) -> Result<Reply, NoText>
    ensures judged { IsJudged bytes.items (command_in command) result }
    ensures show_most { command_in command ≡ answer.Show → ShowsWithin bytes.items steps.old steps.new }
{
    match command {
        Command::Show => map::show(alloc, bytes, steps),
        Command::Book => book::show(alloc, bytes.as_slice()),
        Command::Check => check::check(alloc, bytes.as_slice()),
        Command::Cells => cells::cells(alloc, bytes, steps),
    }
}

fn role_of(command: Command) -> Role
    ensures { IsRoleOf command result }
{
    match command {
        Command::Show | Command::Cells => Role::Map,
        Command::Book | Command::Check => Role::Book,
    }
}

/// The text that the command on the file asks for.
fn reply_on<S: Store, L: Ledger>(
    alloc: Global,
    command: Command,
    file: &str,
    store: &mut S,
    steps: &mut Steps<L>,
) -> Result<Reply, NoText>
    ensures held { S.holds store.new ≡ S.holds store.old }
    ensures no_save { S.saves store.new ≡ S.saves store.old }
    ensures no_save_fault { S.save_faults store.new ≡ S.save_faults store.old }
    ensures one_load { S.loads store.new ≡ counted (S.loads store.old) }
    ensures named { S.loaded store.new ≡ S.loaded store.old ++ file.now ∷ [] }
    ensures text { IfSome (S.holds store.old) (λ files. IsFileText files (command_in command) file.now
        (FailsAt (S.load_faults store.old) (S.load_faults store.new) (S.loads store.old) (S.loads store.new)) (Rises (S.save_faults store.old) (S.save_faults store.new)) (S.holds store.new) result) }
    ensures statuses { IfOk result (λ reply. IsReplyStatus reply.status) }
    ensures rule_refused { IfOk result (λ reply. reply.status ≡ 1 → command_in command ≡ answer.Check) }
    ensures sound { IsSoundReply result
        (λ _. FailsAt (S.load_faults store.old) (S.load_faults store.new) (S.loads store.old) (S.loads store.new) 1 ⊎ Lacks (S.holds store.old) file.now)
        (Rises (S.save_faults store.old) (S.save_faults store.new)) }
    ensures show_most { command_in command ≡ answer.Show → FileShowsWithin (S.holds store.old) file.now steps.old steps.new }
{
    let bytes = load_file(alloc, file, role_of(command), store)?;
    judged(alloc, command, bytes, steps)
}

/// The text that the words ask for.
fn reply_to<S: Store, L: Ledger>(
    alloc: Global,
    words: &[String],
    store: &mut S,
    steps: &mut Steps<L>,
) -> Result<Reply, NoText>
    ensures text { IfSome (S.holds store.old) (λ files. IsText (words_of words.now) files
        (FailsAt (S.load_faults store.old) (S.load_faults store.new) (S.loads store.old) (S.loads store.new)) (Rises (S.save_faults store.old) (S.save_faults store.new)) (S.holds store.new) result) }
    ensures ends { EndsAs (words_of words.now)
        (record { holds = S.holds store.old; loads = S.loads store.old; loaded = S.loaded store.old; load_faults = S.load_faults store.old; saves = S.saves store.old; save_faults = S.save_faults store.old })
        (record { holds = S.holds store.new; loads = S.loads store.new; loaded = S.loaded store.new; load_faults = S.load_faults store.new; saves = S.saves store.new; save_faults = S.save_faults store.new })
        (status_given result) }
    ensures steps { KeepsSteps (words_of words.now) (S.holds store.old) (status_given result) steps.old steps.new }
    ensures statuses { IfOk result (λ reply. IsReplyStatus reply.status) }
    ensures no_memory { IsErrOf result nothing.OutOfMemory → S.holds store.new ≡ S.holds store.old }
{
    if let Some((command, file)) = command_of(words) {
        return reply_on(alloc, command, file, store, steps);
    }
    if let Some(size) = grid_of(words) {
        return grid::answer(alloc, size, steps);
    }
    if let Some(files) = migrate_of(words) {
        return migrating::answer(alloc, files, store, steps);
    }
    if let Some(files) = dual_of(words) {
        return dual::answer(alloc, files, store, steps);
    }
    let Some(files) = run_of(words) else {
        return Err(NoText::Refused(Refusal::Usage));
    };
    running::answer(alloc, files, store, steps)
}

/// Prints the bytes by one put, and gives the status where that goes well.
fn put_whole<O: Sink>(out: &mut O, bytes: &[u8], status: u8) -> u8
    ensures put { IsPut (O.written out.old) (O.written out.new) (Rises (O.faults out.old) (O.faults out.new)) bytes.now status result }
    ensures one { O.puts out.new ≡ counted (O.puts out.old) }
    ensures no_fault { result ≢ 6 → O.faults out.new ≡ O.faults out.old }
    ensures enough_memory { IsTrue O.never_wants_memory → result ≡ 7 → status ≡ 7 }
{
    match out.put(bytes) {
        Ok(()) => status,
        Err(PutFault::Failed) => 6,
        Err(PutFault::OutOfMemory) => 7,
    }
}

/// Runs the command that the words ask for, over any store, sink and step counter, and answers the
/// program's status.
///
/// `words` are the words after the program's name, read by position. `show MAP` prints the canonical
/// text of the map in the file MAP, `book BOOK` that of the rule book in the file BOOK, and
/// `check BOOK` a line for each rule of the book and one that counts. `cells MAP` prints the numbers of
/// the map's cells, components and free darts, and its two colours or an odd walk. `run MAP BOOK SCRIPT OUT`
/// applies the lines of the script to the map, saves the map as OUT, which may be MAP, and prints a
/// report. `migrate MAP OUT` saves the map as OUT, which may be MAP, in the second version of the
/// format, and prints a line with the number of its darts and its next name. `dual MAP BOOK` prints the
/// canonical text of the map's dual, and after it that of the book's. `grid M`, for M from 1 to
/// 100, makes a grid of M rows of M squares, triangulates each, and prints a line that counts the
/// lines done, the darts and the cells; it reads no file. All that is printed goes out by one put: the
/// text, with status 0, or 1 where a rule isn't accepted or a line is refused, or the one line of a
/// refusal. Status 2 is for words that are no
/// command, 3 for a file that can't be loaded, 4 for a text that stands for nothing, a rule that
/// isn't accepted in a run, or a map and a book that don't agree, 8 for a file or a text past
/// 268,435,456 bytes, 5 for a save that failed, 6 for a put that failed, and 7 where memory ran out,
/// and then nothing is printed. Only a run and a migration save, and only where they are done: with
/// status 0 or 1, or where the save or the put failed.
pub fn tool<S: Store, O: Sink, L: Ledger>(
    alloc: Global,
    words: &[String],
    store: &mut S,
    out: &mut O,
    steps: &mut Steps<L>,
) -> u8
    // What was written and what is held, where store and sink tell.
    ensures leaves { LeavesWhereTold (words_of words.now) (S.holds store.old) (S.holds store.new)
        (FailsAt (S.load_faults store.old) (S.load_faults store.new) (S.loads store.old) (S.loads store.new)) (Rises (S.save_faults store.old) (S.save_faults store.new))
        (Rises (O.faults out.old) (O.faults out.new)) (O.written out.old) result (O.written out.new) }

    // For every good run: it is done unless memory runs out or a fault keeps it from that, and then it is as stated, part by part,
    // with its steps.
    ensures headline { HeadlineHolds (words_of words.now) (S.holds store.old) (S.holds store.new)
        (Rises (S.load_faults store.old) (S.load_faults store.new)) (Rises (S.save_faults store.old) (S.save_faults store.new)) (Rises (O.faults out.old) (O.faults out.new))
        (O.written out.old) result (O.written out.new) steps.old steps.new }

    // The steps of a run, where the store tells, and of a grid: how many at most whatever is answered,
    // and how many at least where it is done; and the most of a map that is shown or migrated.
    ensures steps { KeepsSteps (words_of words.now) (S.holds store.old) result steps.old steps.new }

    // What the status says of the words, of the loads and of the save. This and the rest hold whatever
    // store and sink tell.
    ensures ends { EndsAs (words_of words.now)
        (record { holds = S.holds store.old; loads = S.loads store.old; loaded = S.loaded store.old; load_faults = S.load_faults store.old; saves = S.saves store.old; save_faults = S.save_faults store.old })
        (record { holds = S.holds store.new; loads = S.loads store.new; loaded = S.loaded store.new; load_faults = S.load_faults store.new; saves = S.saves store.new; save_faults = S.save_faults store.new })
        result }

    // There is one put at most, and it says whether it failed.
    ensures one_put { OneAtMost (O.puts out.old) (O.puts out.new) }
    ensures put { result ≢ 7 → O.puts out.new ≡ counted (O.puts out.old) }
    ensures put_failed { result ≡ 6 → Rises (O.faults out.old) (O.faults out.new) }
    ensures no_put_failed { result ≢ 6 → O.faults out.new ≡ O.faults out.old }

    // Where memory ran out nothing is printed; and over a sink that takes none, that is before the put,
    // and nothing is saved.
    ensures no_memory { result ≡ 7 → O.written out.new ≡ O.written out.old }
    ensures no_memory_before { IsTrue O.never_wants_memory → result ≡ 7 → S.holds store.new ≡ S.holds store.old }
    ensures none_put { IsTrue O.never_wants_memory → result ≡ 7 → O.puts out.new ≡ O.puts out.old }
{
    match reply_to(alloc, words, store, steps) {
        Ok(reply) => put_whole(out, reply.text.as_slice(), reply.status),
        Err(NoText::Refused(refusal)) => put_whole(out, refusal.line(), refusal.status()),
        Err(NoText::OutOfMemory) => 7,
    }
}
