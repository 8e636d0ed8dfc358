//! The text of the command that counts cells and orients a map.

ghost use Rattle.std.specs.Prelude.{◌≡◌, ◌*◌, ◌≤◌, ◌++◌, length, drop, IfOk, OnErr, OnOk, decimal, codes};
ghost use Rattle.gm_cells.specs.CellsText.{numbered, listed, counts_text, orientation_text};
ghost use Rattle.gm_text.specs.inner.SchemaPrinting.{IsCut};

use crate::counts::Counts;
use crate::orientation::Orientation;
use gm_model::OutOfMemory;
use gm_text::{Text, write_number_behind_blank};
use std::alloc::Global;

/// A number with a space before it has at most this many bytes.
const NUMBER: usize = 11;

/// The lines have at most this many bytes, but for the numbers of the last.
const OTHER_LINES: usize = 1024;

/// How many numbers are composed before they are appended.
const AT_ONCE: usize = 64;

/// The numbers that are appended at once have at most this many bytes.
const PART: usize = AT_ONCE * NUMBER;

/// The lines of the numbers, and those of the orientation.
pub fn print_cells(
    alloc: Global,
    counts: &Counts,
    orientation: &Orientation,
) -> Result<Vec<u8>, OutOfMemory>
    ensures { IfOk result (λ text. text.items ≡ counts_text counts.now ++ orientation_text orientation.now) }
{
    let mut text = Text::with_room(alloc, room_for(orientation))?;
    put_counts(&mut text, counts)?;
    put_orientation(&mut text, orientation)?;
    Ok(text.into_bytes())
}

/// As many bytes as the lines take, or more.
fn room_for(orientation: &Orientation) -> usize {
    let numbers = match orientation {
        Orientation::Two { first } => first.as_slice().len(),
        Orientation::Odd { labels, .. } => labels.as_slice().len(),
    };
    numbers.saturating_mul(NUMBER).saturating_add(OTHER_LINES)
}

fn put_counts(text: &mut Text, counts: &Counts) -> Result<(), OutOfMemory>
    ensures { OnOk result (text.new ≡ text.old ++ counts_text counts.now) }
{
    put_number_line(text, b"darts ", counts.darts)?;
    put_numbered(text, b"cells ", counts.cells.as_slice())?;
    put_number_line(text, b"components ", counts.components)?;
    put_numbered(text, b"free ", counts.free.as_slice())
}

fn put_orientation(text: &mut Text, orientation: &Orientation) -> Result<(), OutOfMemory>
    ensures { OnOk result (text.new ≡ text.old ++ orientation_text orientation.now) }
{
    match orientation {
        Orientation::Two { first } => put_first(text, first.as_slice()),
        Orientation::Odd { start, labels } => put_odd(text, *start, labels.as_slice()),
    }
}

/// The lines of a map that can be oriented, with the darts of the first colour.
fn put_first(text: &mut Text, first: &[u32]) -> Result<(), OutOfMemory>
    ensures { OnOk result (text.new ≡ text.old ++ (codes "orientable yes\nfirst" ++ (listed first.now ++ codes "\n"))) }
{
    text.put(b"orientable yes\nfirst")?;
    put_numbers(text, first)?;
    text.put(b"\n")
}

/// The lines of a map that can't be, with an odd walk.
fn put_odd(text: &mut Text, start: u32, labels: &[u8]) -> Result<(), OutOfMemory>
    ensures { OnOk result (text.new ≡ text.old ++ (codes "orientable no\nodd " ++ (decimal start ++ (codes " labels" ++ (listed labels.now ++ codes "\n"))))) }
{
    text.put(b"orientable no\nodd ")?;
    text.number(u64::from(start))?;
    put_walk(text, labels)
}

fn put_walk(text: &mut Text, labels: &[u8]) -> Result<(), OutOfMemory>
    ensures { OnOk result (text.new ≡ text.old ++ (codes " labels" ++ (listed labels.now ++ codes "\n"))) }
{
    text.put(b" labels")?;
    put_labels(text, labels)?;
    text.put(b"\n")
}

/// A line of words and a number.
fn put_number_line(text: &mut Text, words: &[u8], number: u32) -> Result<(), OutOfMemory>
    ensures { OnOk result (text.new ≡ text.old ++ (words.now ++ (decimal number ++ codes "\n"))) }
{
    text.put(words)?;
    text.number(u64::from(number))?;
    text.put(b"\n")
}

/// A line of words, a label and its number, for each label.
fn put_numbered(text: &mut Text, words: &[u8], numbers: &[u32]) -> Result<(), OutOfMemory>
    ensures { OnOk result (text.new ≡ text.old ++ numbered words.now 0 numbers.now) }
{
    for (label, number) in numbers.iter().enumerate() {
        text.put(words)?;
        text.number(label as u64)?;
        put_number_line(text, b" ", *number)?;
    }
    Ok(())
}

/// Appends the numbers, one space before each. After a refusal a part of that, from its beginning
/// on, is appended.
pub fn put_numbers(text: &mut Text, numbers: &[u32]) -> Result<(), OutOfMemory>
    ensures ok { OnOk result (text.new ≡ text.old ++ listed numbers.now) }
    ensures err { OnErr result (IsCut text.old (listed numbers.now) text.new) }
{
    let mut part = [0; PART];
    let mut from = 0;
    while from < numbers.len() {
        let to = numbers.len().min(from + AT_ONCE);
        let start = write_numbers(&mut part, &numbers[from..to]);
        text.put_from(&part, start)?;
        from = to;
    }
    Ok(())
}

/// Writes the numbers at the end of the bytes, one space before each. The answer is where they begin.
fn write_numbers(bytes: &mut [u8], numbers: &[u32]) -> usize
    requires room { 11 * length numbers.now ≤ length bytes.old }
    ensures within { result ≤ length bytes.new }
    ensures written { drop result bytes.new ≡ listed numbers.now }
    ensures long { length bytes.new ≡ length bytes.old }
{
    let mut at = bytes.len();
    let mut left = numbers.len();
    while left > 0 {
        left -= 1;
        at = write_number_behind_blank(bytes, numbers[left], at);
    }
    at
}

/// The labels, one space before each.
fn put_labels(text: &mut Text, labels: &[u8]) -> Result<(), OutOfMemory>
    ensures { OnOk result (text.new ≡ text.old ++ listed labels.now) }
{
    for label in labels {
        text.put(b" ")?;
        text.number(u64::from(*label))?;
    }
    Ok(())
}
