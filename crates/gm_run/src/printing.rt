//! The text of a report.
ghost use Rattle.std.specs.Prelude.{◌≡◌, ◌+◌, ◌++◌, ◌<◌, ◌≤◌, if◌then◌else◌, IfOk, IsSomeAnd, List, OnOk, decimal, length, map, sum};
ghost use Rattle.std.specs.List.{count_by};
ghost use Rattle.gm_model.specs.Reports.{report_text, outcome_lines, counts_line, done_in, refused_in, nodes_of, stat_words};
ghost use Rattle.gm_model.specs.Rules.{node_of, rule_of};
ghost use Rattle.gm_model.specs.Runs.{is_done};
ghost use Rattle.gm_model.specs.Statements.{stat_of};
ghost use Rattle.gm_model.specs.Runs as runs;
ghost use Rattle.gm_run.specs.inner.Lines.{outcome_of, Tells};
ghost use Rattle.gm_run.specs.inner.Printing.{CanBePrinted, IsNamed, SpeaksOf, line_text};

use crate::done_line::put_done_line;
use crate::outcome::{Outcome, Report};
use crate::words::put_outcome;
use gm_model::{Book, Node, OutOfMemory, RuleTable, Script, StatRef};
use gm_text::{Text, put_number};
use itoa::Buffer;
use std::alloc::Global;

/// The bytes of most lines, and of the one that counts them.
const LINE_BYTES: usize = 48;

/// A line for each statement of the script, numbered from 1, and one that counts them. What `run`
/// answers can be printed.
pub fn print_report(
    alloc: Global,
    book: &Book,
    script: &Script,
    report: &Report,
) -> Result<Vec<u8>, OutOfMemory>
    requires { CanBePrinted book.now.schema (map rule_of book.now.rules) script.now.stats report.now.lines }
    ensures { IfOk result (λ text. (told : List runs.Outcome) → Tells report.now.lines told → text.items ≡ report_text book.now.schema (map rule_of book.now.rules) script.now.stats told report.now.darts report.now.next) }
{
    let outcomes = report.lines.as_slice();
    // Room at once, so that a long report isn't copied as it grows.
    let room = (outcomes.len() + 1).saturating_mul(LINE_BYTES);
    let mut text = Text::with_room(alloc, room)?;
    put_lines(&mut text, book, script, outcomes)?;
    put_counts(&mut text, outcomes, report.darts, report.next)?;
    Ok(text.into_bytes())
}

fn put_lines(
    text: &mut Text,
    book: &Book,
    script: &Script,
    outcomes: &[Outcome],
) -> Result<(), OutOfMemory>
    requires { CanBePrinted book.now.schema (map rule_of book.now.rules) script.now.stats outcomes.now }
    ensures { (told : List runs.Outcome) → Tells outcomes.now told → OnOk result (text.new ≡ text.old ++ outcome_lines book.now.schema (map rule_of book.now.rules) 0 script.now.stats told) }
{
    for (index, outcome) in outcomes.iter().enumerate() {
        put_line(text, book, index + 1, script.get(index), *outcome)?;
    }
    Ok(())
}

fn put_line(
    text: &mut Text,
    book: &Book,
    number: usize,
    stat: StatRef<'_>,
    outcome: Outcome,
) -> Result<(), OutOfMemory>
    requires named { IsNamed (length book.now.rules) (stat_of stat) }
    requires speaks { IsSomeAnd (outcome_of outcome) (SpeaksOf (length (nodes_of (map rule_of book.now.rules) (stat_of stat))) (length book.now.schema.embeds)) }
    ensures { OnOk result (text.new ≡ text.old ++ line_text book.now.schema (map rule_of book.now.rules) number (stat_of stat.entry) outcome) }
{
    let rules = book.rules.as_slice();
    if let (StatRef::Apply(line), Outcome::Done(applied)) = (stat, outcome) {
        let name = rules[line.rule as usize].name.bytes();
        return put_done_line(text, number, name, applied);
    }
    text.number(number as u64)?;
    text.put(b" ")?;
    put_stat(text, rules, stat)?;
    text.put(b" ")?;
    put_outcome(text, &book.schema, nodes_at(rules, stat), outcome)?;
    text.put(b"\n")
}

/// Appends what the statement is, with the name of its rule where it has one.
fn put_stat(text: &mut Text, rules: &[RuleTable], stat: StatRef<'_>) -> Result<(), OutOfMemory>
    requires { IsNamed (length rules.now) (stat_of stat) }
    ensures { OnOk result (text.new ≡ text.old ++ stat_words (map rule_of rules.now) (stat_of stat.entry)) }
{
    match stat {
        StatRef::Apply(line) => text.put(rules[line.rule as usize].name.bytes()),
        StatRef::Undo => text.put(b"undo"),
        StatRef::Redo => text.put(b"redo"),
        StatRef::Group => text.put(b"group"),
        StatRef::End => text.put(b"end"),
        StatRef::Each { rule, .. } => {
            text.put(b"each ")?;
            text.put(rules[rule as usize].name.bytes())
        }
    }
}

/// The nodes that the outcome of the statement can speak of.
fn nodes_at<'a>(rules: &'a [RuleTable], stat: StatRef<'_>) -> &'a [Node]
    requires { IsNamed (length rules.now) (stat_of stat) }
    ensures { map node_of result.now ≡ nodes_of (map rule_of rules.now) (stat_of stat.entry) }
{
    match stat {
        StatRef::Apply(line) => rules[line.rule as usize].nodes.as_slice(),
        _ => &[],
    }
}

fn put_counts(
    text: &mut Text,
    outcomes: &[Outcome],
    darts: u32,
    next: u32,
) -> Result<(), OutOfMemory>
    ensures { (told : List runs.Outcome) → Tells outcomes.now told → OnOk result (text.new ≡ text.old ++ counts_line told darts next) }
{
    let told = count_told(outcomes);
    put_count(text, b"applied ", told.done)?;
    put_count(text, b" refused ", told.refused)?;
    put_number(text, b" darts ", u64::from(darts))?;
    put_number(text, b" next ", u64::from(next))?;
    text.put(b"\n")
}

/// Appends words and a number that may be greater than a `u64`.
fn put_count(text: &mut Text, words: &[u8], count: u128) -> Result<(), OutOfMemory>
    ensures { OnOk result (text.new ≡ text.old ++ (words.now ++ decimal count)) }
{
    let mut digits = Buffer::new();
    text.put(words)?;
    text.put(digits.format(count).as_bytes())
}

/// How often lines say that something was done, or refused.
#[derive(Clone, Copy)]
struct Counts {
    done: u128,
    refused: u128,
}

/// An `each` is one line and counts as often as it says, so the sums may be greater than any number
/// of lines.
fn count_told(outcomes: &[Outcome]) -> Counts
    ensures { (told : List runs.Outcome) → Tells outcomes.now told → (result.done ≡ sum (map done_in told)) × (result.refused ≡ sum (map refused_in told)) }
{
    let mut counts = Counts {
        done: 0,
        refused: 0,
    };
    for outcome in outcomes {
        let (done, refused) = told_by(*outcome);
        counts.done += u128::from(done);
        counts.refused += u128::from(refused);
    }
    counts
}

/// How often a line says that something was done, and refused.
fn told_by(outcome: Outcome) -> (u32, u32)
    ensures { (told : runs.Outcome) → outcome_of outcome ≡ Some told → (result.0 ≡ done_in told) × (result.1 ≡ refused_in told) }
{
    match outcome {
        Outcome::Done(_) | Outcome::Undone | Outcome::Redone => (1, 0),
        Outcome::Refused(_) | Outcome::NothingToUndo | Outcome::NothingToRedo => (0, 1),
        Outcome::Each { done, refused, .. } => (done, refused),
        _ => (0, 0),
    }
}

/// How many of the lines say of an application that it was done.
pub fn count_done(outcomes: &[Outcome]) -> usize
    ensures within { result ≤ length outcomes.now }
    ensures done { (told : List runs.Outcome) → Tells outcomes.now told → result ≡ count_by is_done told }
{
    let mut done = 0;
    for outcome in outcomes {
        done += done_lines(*outcome);
    }
    done
}

/// 1 for a line that says so.
fn done_lines(outcome: Outcome) -> usize
    ensures one { result ≤ 1 }
    ensures done { (told : runs.Outcome) → outcome_of outcome ≡ Some told → result ≡ (if is_done told then 1 else 0) }
{
    match outcome {
        Outcome::Done(_) => 1,
        _ => 0,
    }
}
