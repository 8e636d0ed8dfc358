//! The canonical text of a map.
ghost use Rattle.std.specs.Prelude.{◌≡◌, ℕ, ◌+◌, ◌*◌, ◌<◌, ◌≤◌, ◌∷◌, ◌++◌, length, drop, map, All, OnOk, IfOk, codes, decimal};
ghost use Rattle.std.specs.List.{flat_map};
ghost use Rattle.std.specs.Fmt.{signed_decimal};
ghost use Rattle.gm_text.specs.SchemaText as schema;
ghost use Rattle.gm_mapfile.specs.MapText.{MapText, IsCanonicalTextOf, canonical, head_line, next_line, line_of, value_text};
ghost use Rattle.gm_text.specs.ValueText.{truth_text};
ghost use Rattle.gm_model.specs.Maps.{IsSound};
ghost use Rattle.gm_text.specs.inner.SchemaPrinting.{AreParts};
ghost use Rattle.gm_arena.specs.inner.ArenaAsMap.{as_map};
ghost use Rattle.gm_arena.specs.inner.ArenaMap.{IsLiveSlot, name_at};
ghost use Rattle.gm_arena.specs.declared.slot.Slot.{Slot};
ghost use Rattle.gm_arena.specs.inner.Lawful.{IsLawful};
ghost use Rattle.gm_mapfile.specs.inner.Printing.{renumbered};
ghost use Rattle.gm_mapfile.specs.inner.Rows.{darts_of, listed_of};
ghost use Rattle.gm_model.specs.declared.limit.TheConstants.{MOST_EMBEDS, MOST_LABELS};

use crate::version::MapVersion;
use gm_arena::{Arena, Row, Slot, Steps};
use gm_model::{OutOfMemory, Value};
use gm_text::{Text, print_schema, write_number, write_number_behind_blank, write_word};
use itoa::write_digits;
use std::alloc::Global;
use std::sync::ledger::Ledger;

/// A name with a blank before it has at most this many bytes.
const NAME: usize = 11;

/// A value with a blank before it has at most this many bytes: three numbers of twenty bytes each,
/// two signs and three blanks.
const VALUE: usize = 65;

/// A dart's line has at most this many bytes: its name and eight neighbours' names, eight values and
/// the line feed.
const LINE: usize = 9 * NAME + 8 * VALUE + 1;

/// The canonical text of the map in the version, with one step or more for each dart: the schema,
/// in the second version the next name, and a line for each dart in ascending order of their names.
/// Of a sound map it is a text that stands for the map. The first version states no next name, so
/// there that is the least above all names.
pub fn print_map<L: Ledger>(
    alloc: Global,
    arena: &Arena,
    version: MapVersion,
    steps: &mut Steps<L>,
) -> Result<Vec<u8>, OutOfMemory>
    ensures text { IfOk result (λ text. text.items ≡ canonical version (listed_of arena.now)) }
    ensures canonical { IfOk result (λ text. IsSound (as_map arena.now) → IsCanonicalTextOf version (listed_of arena.now) text.items) }
    ensures stands { IfOk result (λ text. IsSound (as_map arena.now) → MapText text.items version (renumbered version (listed_of arena.now))) }
    ensures most { steps.new ≤ steps.old + 8 * ((arena.now.schema.dim + 1) * (arena.now.schema.dim + 1)) * (arena.now.count + 1) }
    ensures least { IfOk result (λ _. steps.old + arena.now.count ≤ steps.new) }
{
    print_map_over(Vec::new(alloc), arena, version, steps)
}

/// The same, in the room of the bytes, which are forgotten: those of the text that the map was read
/// from, say, so that a map that is saved takes no room beside it where its text isn't longer.
pub fn print_map_over<L: Ledger>(
    bytes: Vec<u8>,
    arena: &Arena,
    version: MapVersion,
    steps: &mut Steps<L>,
) -> Result<Vec<u8>, OutOfMemory>
    ensures text { IfOk result (λ text. text.items ≡ canonical version (listed_of arena.now)) }
    ensures canonical { IfOk result (λ text. IsSound (as_map arena.now) → IsCanonicalTextOf version (listed_of arena.now) text.items) }
    ensures stands { IfOk result (λ text. IsSound (as_map arena.now) → MapText text.items version (renumbered version (listed_of arena.now))) }
    ensures most { steps.new ≤ steps.old + 8 * ((arena.now.schema.dim + 1) * (arena.now.schema.dim + 1)) * (arena.now.count + 1) }
    ensures least { IfOk result (λ _. steps.old + arena.now.count ≤ steps.new) }
{
    let mut text = Text::in_room_of(bytes, room_for(arena))?;
    print_text(&mut text, arena, version, steps)?;
    Ok(text.into_bytes())
}

/// The header, and a line for each dart.
fn print_text<L: Ledger>(
    text: &mut Text,
    arena: &Arena,
    version: MapVersion,
    steps: &mut Steps<L>,
) -> Result<(), OutOfMemory>
    requires { IsLawful arena.now }
    ensures text { OnOk result (text.new ≡ text.old ++ canonical version (listed_of arena.now)) }
    ensures parts { OnOk result (AreParts arena.now.schema.embeds) }
    ensures most { steps.new ≤ steps.old + (arena.now.schema.dim + 3) * arena.now.count + 1 }
    ensures least { OnOk result (steps.old + arena.now.count ≤ steps.new) }
{
    print_header(text, arena, version)?;
    print_lines(text, arena, steps)
}

/// A line for each dart, in ascending order of their names.
fn print_lines<L: Ledger>(
    text: &mut Text,
    arena: &Arena,
    steps: &mut Steps<L>,
) -> Result<(), OutOfMemory>
    requires { IsLawful arena.now }
    ensures lines { OnOk result (text.new ≡ text.old ++ flat_map line_of (darts_of arena.now)) }
    ensures most { steps.new ≤ steps.old + (arena.now.schema.dim + 3) * arena.now.count + 1 }
    ensures least { OnOk result (steps.old + arena.now.count ≤ steps.new) }
{
    let mut line = [0; LINE];
    let mut from = 0;
    while let Some(slot) = arena.slot_from(from, steps) {
        let row = arena.row(slot, steps);
        let start = write_line(&mut line, arena, row, steps);
        text.put_from(&line, start)?;
        from = row.name + 1;
    }
    Ok(())
}

/// As many bytes as the text has without values, or more: each name stands once for its dart and
/// once for each label as a neighbour, with a blank or a line feed after it, and none is longer
/// than the greatest. A value of small numbers takes no more than its share.
fn room_for(arena: &Arena) -> usize
    ensures { IsLawful arena.now }
{
    let header = 1024;
    let share = 12;
    let schema = arena.schema();
    let names = schema.dim.top() as usize + 2;
    let values = schema.embeds.as_slice().len();
    let greatest = arena.next().saturating_sub(1);
    let line = names * (digits_of(greatest) + 1) + values * share;
    header + arena.count() as usize * line
}

/// How many decimal digits a name has.
fn digits_of(name: u32) -> usize
    ensures { result ≤ 10 }
{
    match name {
        0..=9 => 1,
        10..=99 => 2,
        100..=999 => 3,
        1_000..=9_999 => 4,
        10_000..=99_999 => 5,
        100_000..=999_999 => 6,
        1_000_000..=9_999_999 => 7,
        10_000_000..=99_999_999 => 8,
        100_000_000..=999_999_999 => 9,
        _ => 10,
    }
}

fn print_header(text: &mut Text, arena: &Arena, version: MapVersion) -> Result<(), OutOfMemory>
    ensures text { OnOk result (text.new ≡ text.old ++ (head_line version ++ (schema.canonical arena.now.schema ++ (next_line version arena.now.next ++ (codes "darts " ++ (decimal arena.now.count ++ codes "\n")))))) }
    ensures parts { OnOk result (AreParts arena.now.schema.embeds) }
{
    print_version(text, version)?;
    print_schema(text, arena.schema())?;
    print_next(text, version, arena.next())?;
    print_count(text, arena.count())
}

fn print_version(text: &mut Text, version: MapVersion) -> Result<(), OutOfMemory>
    ensures { OnOk result (text.new ≡ text.old ++ head_line version) }
{
    text.put(match version {
        MapVersion::One => b"gmap 1\n",
        MapVersion::Two => b"gmap 2\n",
    })
}

/// The next name, which the second version states.
fn print_next(text: &mut Text, version: MapVersion, next: u32) -> Result<(), OutOfMemory>
    ensures { OnOk result (text.new ≡ text.old ++ next_line version next) }
{
    if version == MapVersion::Two {
        text.put(b"next ")?;
        text.number(u64::from(next))?;
        text.put(b"\n")?;
    }
    Ok(())
}

/// How many darts there are.
fn print_count(text: &mut Text, count: u32) -> Result<(), OutOfMemory>
    ensures { OnOk result (text.new ≡ text.old ++ (codes "darts " ++ (decimal count ++ codes "\n"))) }
{
    text.put(b"darts ")?;
    text.number(u64::from(count))?;
    text.put(b"\n")
}

/// Writes the line of a dart at the end of the bytes. The answer is where it begins.
fn write_line<L: Ledger>(
    line: &mut [u8; LINE],
    arena: &Arena,
    row: Row<'_>,
    steps: &mut Steps<L>,
) -> usize
    requires names { length row.alphas.now ≤ MOST_LABELS }
    requires values { length row.values.now ≤ MOST_EMBEDS }
    requires live { All (λ (s : Slot). IsLiveSlot arena.now s.at) row.alphas.now }
    ensures within { result ≤ length line.new }
    ensures line { drop result line.new ≡ line_of (record {
      name = row.entry.name;
      alphas = map (λ (s : Slot). name_at arena.now s.at) row.entry.alphas.now;
      values = row.entry.values.now;
    }) }
    ensures cost { steps.new ≡ steps.old + length row.entry.alphas.now }
{
    let feed = write_word(line, b"\n", LINE);
    let first = write_values(line, row.values, feed);
    write_names(line, arena, row.name, row.alphas, first, steps)
}

/// Writes the name and the neighbours' names, so that they end at `end`. The answer is where they
/// begin.
fn write_names<L: Ledger>(
    line: &mut [u8],
    arena: &Arena,
    name: u32,
    neighbours: &[Slot],
    end: usize,
    steps: &mut Steps<L>,
) -> usize
    requires room { 11 * (length neighbours.now + 1) ≤ end }
    requires within { end ≤ length line.old }
    requires live { All (λ (s : Slot). IsLiveSlot arena.now s.at) neighbours.now }
    ensures before { result ≤ end }
    ensures written { drop result line.new ≡ decimal name ++ (flat_map (λ a. 32 ∷ decimal a) (map (λ (s : Slot). name_at arena.now s.at) neighbours.now) ++ drop end line.old) }
    ensures cost { steps.new ≡ steps.old + length neighbours.now }
{
    let mut at = end;
    let mut left = neighbours.len();
    while left > 0 {
        left -= 1;
        let neighbour = arena.name_of(neighbours[left], steps);
        at = write_number_behind_blank(line, neighbour, at);
    }
    write_number(line, name, at)
}

/// Writes each value after a blank, so that they end at `end`. The answer is where they begin.
fn write_values(line: &mut [u8], values: &[Value], end: usize) -> usize
    requires room { 65 * length values.now ≤ end }
    requires within { end ≤ length line.old }
    ensures few { end ≤ result + 65 * length values.now }
    ensures before { result ≤ end }
    ensures written { drop result line.new ≡ flat_map (λ v. 32 ∷ value_text v) values.now ++ drop end line.old }
{
    let mut at = end;
    let mut left = values.len();
    while left > 0 {
        left -= 1;
        let first = write_value(line, values[left], at);
        at = write_word(line, b" ", first);
    }
    at
}

/// Writes a value, so that it ends at `end`. The answer is where it begins.
fn write_value(line: &mut [u8], value: Value, end: usize) -> usize
    requires room { 64 ≤ end }
    requires within { end ≤ length line.old }
    ensures few { end ≤ result + 64 }
    ensures before { result ≤ end }
    ensures written { drop result line.new ≡ value_text value ++ drop end line.old }
{
    match value {
        Value::Int(x) => write_signed(line, x, end),
        Value::Bool(truth) => write_truth(line, truth, end),
        Value::Vec2(x, y) => write_pair(line, x, y, end),
        Value::Vec3(x, y, z) => write_triple(line, x, y, z, end),
        Value::Rgb(red, green, blue) => write_triple(
            line,
            i64::from(red),
            i64::from(green),
            i64::from(blue),
            end,
        ),
    }
}

fn write_truth(bytes: &mut [u8], truth: bool, end: usize) -> usize
    requires room { 5 ≤ end }
    requires within { end ≤ length bytes.old }
    ensures few { end ≤ result + 5 }
    ensures before { result ≤ end }
    ensures written { drop result bytes.new ≡ truth_text truth ++ drop end bytes.old }
{
    if truth {
        return write_word(bytes, b"true", end);
    }
    write_word(bytes, b"false", end)
}

/// Writes two numbers in brackets, so that they end at `end`. The answer is where they begin.
fn write_pair(bytes: &mut [u8], x: i64, y: i64, end: usize) -> usize
    requires room { 43 ≤ end }
    requires within { end ≤ length bytes.old }
    ensures few { end ≤ result + 43 }
    ensures before { result ≤ end }
    ensures written { drop result bytes.new ≡ 40 ∷ (signed_decimal x ++ (32 ∷ (signed_decimal y ++ (41 ∷ drop end bytes.old)))) }
{
    let last = write_word(bytes, b")", end);
    let second = write_signed(bytes, y, last);
    let first = write_behind(bytes, x, second);
    write_word(bytes, b"(", first)
}

/// Writes three numbers in brackets, so that they end at `end`. The answer is where they begin.
fn write_triple(bytes: &mut [u8], x: i64, y: i64, z: i64, end: usize) -> usize
    requires room { 64 ≤ end }
    requires within { end ≤ length bytes.old }
    ensures few { end ≤ result + 64 }
    ensures before { result ≤ end }
    ensures written { drop result bytes.new ≡ 40 ∷ (signed_decimal x ++ (32 ∷ (signed_decimal y ++ (32 ∷ (signed_decimal z ++ (41 ∷ drop end bytes.old)))))) }
{
    let last = write_word(bytes, b")", end);
    let third = write_signed(bytes, z, last);
    let second = write_behind(bytes, y, third);
    let first = write_behind(bytes, x, second);
    write_word(bytes, b"(", first)
}

/// Writes a number and a blank, so that they end at `end`. The answer is where they begin.
// Inlined, it takes some 10 instructions less.
#[inline(always)]
fn write_behind(bytes: &mut [u8], x: i64, end: usize) -> usize
    requires room { 21 ≤ end }
    requires within { end ≤ length bytes.old }
    ensures few { end ≤ result + 21 }
    ensures before { result ≤ end }
    ensures written { drop result bytes.new ≡ signed_decimal x ++ (32 ∷ drop end bytes.old) }
{
    let blank = write_word(bytes, b" ", end);
    write_signed(bytes, x, blank)
}

/// Writes a number of twenty bytes at most, so that it ends at `end`. The answer is where it begins.
fn write_signed(bytes: &mut [u8], x: i64, end: usize) -> usize
    requires room { 20 ≤ end }
    requires within { end ≤ length bytes.old }
    ensures few { end ≤ result + 20 }
    ensures before { result ≤ end }
    ensures written { drop result bytes.new ≡ signed_decimal x ++ drop end bytes.old }
{
    let start = write_digits(x.unsigned_abs(), bytes, end);
    if x >= 0 {
        return start;
    }
    write_word(bytes, b"-", start)
}
