//! The words of the command line: which command they ask for, on which files.

ghost use Rattle.std.specs.Prelude.{MatchBool, MatchOption, ◌≡◌, ◌≤◌, ℕ, decimal};
ghost use Rattle.gm_tool.specs.Answer.{Asks, command_word};
ghost use Rattle.gm_tool.specs.DualAnswer.{AsksDual, dual_names_of};
ghost use Rattle.gm_tool.specs.GridAnswer.{AsksGrid};
ghost use Rattle.gm_tool.specs.MadeRuns.{names_of};
ghost use Rattle.gm_tool.specs.Migrating.{AsksMigrate, migrate_names_of};
ghost use Rattle.gm_tool.specs.Program.{IsFileCommand, IsRunCommand, IsMigrateCommand, IsDualCommand, IsGridCommand};
ghost use Rattle.gm_tool.specs.RunAnswer.{AsksRun};
ghost use Rattle.gm_tool.specs.inner.Refusals.{command_in, IsNoCommandWord};
ghost use Rattle.gm_tool.specs.Tool.{words_of};

use itoa::Buffer;

/// A command on one file.
#[derive(Clone, Copy)]
pub enum Command {
    /// `show MAP`: print the canonical text of a map.
    Show,
    /// `book BOOK`: print the canonical text of a rule book.
    Book,
    /// `check BOOK`: tell of each rule of a book whether it is accepted.
    Check,
    /// `cells MAP`: count the cells of a map and orient it.
    Cells,
}

/// The files that a run reads, and the one under which it saves, by name.
#[derive(Clone, Copy)]
pub struct RunFiles<'w> {
    pub map: &'w str,
    pub book: &'w str,
    pub script: &'w str,
    pub out: &'w str,
}

/// The file that a migration reads, and the one under which it saves, by name.
#[derive(Clone, Copy)]
pub struct MigrateFiles<'w> {
    pub map: &'w str,
    pub out: &'w str,
}

/// The files whose duals are printed, by name.
#[derive(Clone, Copy)]
pub struct DualFiles<'w> {
    pub map: &'w str,
    pub book: &'w str,
}

/// The command and the name of its file, or `None` where the words are no command on one file. The
/// words are read by position, and none is an option.
pub fn command_of(words: &[String]) -> Option<(Command, &str)>
    ensures { MatchOption result (IsFileCommand (words_of words.now) → ⊥)
        (λ asked. Asks (words_of words.now) (command_in asked.0) asked.1.now) }
{
    let [word, file] = words else {
        return None;
    };
    let command = command_named(word.as_str())?;
    Some((command, file.as_str()))
}

/// The files of `run MAP BOOK SCRIPT OUT`, or `None` where the words are anything else.
pub fn run_of(words: &[String]) -> Option<RunFiles<'_>>
    ensures { MatchOption result (IsRunCommand (words_of words.now) → ⊥)
        (λ files. AsksRun (words_of words.now) (names_of files)) }
{
    let [word, map, book, script, out] = words else {
        return None;
    };
    match word.as_str() {
        "run" => Some(RunFiles {
            map: map.as_str(),
            book: book.as_str(),
            script: script.as_str(),
            out: out.as_str(),
        }),
        _ => None,
    }
}

/// The files of `migrate MAP OUT`, or `None` where the words are anything else.
pub fn migrate_of(words: &[String]) -> Option<MigrateFiles<'_>>
    ensures { MatchOption result (IsMigrateCommand (words_of words.now) → ⊥)
        (λ files. AsksMigrate (words_of words.now) (migrate_names_of files)) }
{
    let [word, map, out] = words else {
        return None;
    };
    match word.as_str() {
        "migrate" => Some(MigrateFiles {
            map: map.as_str(),
            out: out.as_str(),
        }),
        _ => None,
    }
}

/// The files of `dual MAP BOOK`, or `None` where the words are anything else.
pub fn dual_of(words: &[String]) -> Option<DualFiles<'_>>
    ensures { MatchOption result (IsDualCommand (words_of words.now) → ⊥)
        (λ files. AsksDual (words_of words.now) (dual_names_of files)) }
{
    let [word, map, book] = words else {
        return None;
    };
    match word.as_str() {
        "dual" => Some(DualFiles {
            map: map.as_str(),
            book: book.as_str(),
        }),
        _ => None,
    }
}

/// The number M of `grid M`, or `None` where the words are anything else.
pub fn grid_of(words: &[String]) -> Option<u8>
    ensures { MatchOption result (IsGridCommand (words_of words.now) → ⊥) (λ size. AsksGrid (words_of words.now) size) }
{
    let [word, size] = words else {
        return None;
    };
    match word.as_str() {
        "grid" => size_of(size.as_str()),
        _ => None,
    }
}

/// The number from 1 to 100 that the word is the text of.
fn size_of(word: &str) -> Option<u8>
    ensures { MatchOption result ((m : ℕ) → 1 ≤ m → m ≤ 100 → word.now ≡ decimal m → ⊥) (λ size. (1 ≤ size) × (size ≤ 100) × (word.now ≡ decimal size)) }
{
    let size = word.parse::<u8>().ok()?;
    if is_size(word, size) {
        Some(size)
    } else {
        None
    }
}

/// The number is from 1 to 100, and the word is its text, without a sign or a leading zero.
fn is_size(word: &str, number: u8) -> bool
    ensures { MatchBool result ((1 ≤ number) × (number ≤ 100) × (word.now ≡ decimal number)) (1 ≤ number → number ≤ 100 → word.now ≡ decimal number → ⊥) }
{
    1 <= number && number <= 100 && word == Buffer::new().format(number)
}

fn command_named(word: &str) -> Option<Command>
    ensures { MatchOption result (IsNoCommandWord word.now) (λ command. word.now ≡ command_word (command_in command)) }
{
    match word {
        "show" => Some(Command::Show),
        "book" => Some(Command::Book),
        "check" => Some(Command::Check),
        "cells" => Some(Command::Cells),
        _ => None,
    }
}
