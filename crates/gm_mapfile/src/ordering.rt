//! The lines of a draft in ascending order of their names.
//!
//! A text may list its darts in any order. In the order of their names they come to stand side by
//! side in the arena, as whoever goes through a map by name then finds them.
ghost use Rattle.std.specs.Prelude.{◌≡◌, ◌+◌, ◌*◌, ◌/◌, ◌<◌, ◌≤◌, ◌++◌, length, map, All, IsPermutation, IfOk, IfSome, OnOk};
ghost use Rattle.gm_model.specs.Limits.{most_darts, most_names};
ghost use Rattle.gm_mapfile.specs.inner.Building.{AreInRoom};
ghost use Rattle.gm_mapfile.specs.inner.Ordering.{counted_from, on_lines};
ghost use Rattle.gm_mapfile.specs.MapFaults.{AreBelow};
ghost use Rattle.gm_mapfile.specs.inner.Rows.{darts_in, rows_in};
ghost use Rattle.gm_mapfile.specs.declared.ordering.Line.{Line};

use gm_model::{OutOfMemory, Schema, Value};
use std::alloc::{AllocError, Global};

/// Where a dart's line stands.
#[derive(Clone, Copy)]
struct Line {
    name: u32,
    /// How many lines stand before it.
    at: u32,
}

/// Brings the lines into ascending order of their names. The answer is above each of these.
pub(crate) fn in_order(
    alloc: Global,
    schema: &Schema,
    numbers: &mut Vec<u32>,
    values: &mut Vec<Value>,
) -> Result<u32, OutOfMemory>
    requires room { AreInRoom schema.now numbers.old.items values.old.items }
    ensures room { IfOk result (λ _. AreInRoom schema.now numbers.new.items values.new.items) }
    ensures darts { IfOk result (λ _. IsPermutation (darts_in schema.now numbers.old.items values.old.items) (darts_in schema.now numbers.new.items values.new.items)) }
    ensures end { IfOk result (AreBelow (rows_in schema.now.dim numbers.new.items)) }
    ensures names { IfOk result (λ end. end ≤ most_names) }
{
    if let Some(end) = ascending_end(numbers.as_slice(), schema.dim.top()) {
        return Ok(end);
    }
    order(alloc, schema, numbers, values)?;
    Ok(names_end(numbers.as_slice()))
}

/// The same, whatever order they have.
fn order(
    alloc: Global,
    schema: &Schema,
    numbers: &mut Vec<u32>,
    values: &mut Vec<Value>,
) -> Result<(), OutOfMemory>
    requires room { AreInRoom schema.now numbers.old.items values.old.items }
    ensures room { OnOk result (AreInRoom schema.now numbers.new.items values.new.items) }
    ensures darts { OnOk result (IsPermutation (darts_in schema.now numbers.old.items values.old.items) (darts_in schema.now numbers.new.items values.new.items)) }
{
    let width = schema.dim.top() as usize + 2;
    let count = schema.embeds.as_slice().len();
    let lines = lines_by_name(alloc, numbers.as_slice(), width)?;
    order_lines(alloc, lines.as_slice(), width, numbers)?;
    order_lines(alloc, lines.as_slice(), count, values)
}

/// One more than the last name, where the lines stand in ascending order of their names, or 0 where
/// there is none.
fn ascending_end(numbers: &[u32], top: u8) -> Option<u32>
    requires { All (λ x. x < most_names) numbers.now }
    ensures end { IfSome result (AreBelow (rows_in top numbers.now)) }
    ensures names { IfSome result (λ end. end ≤ most_names) }
{
    let mut end = 0;
    for line in numbers.chunks_exact(top as usize + 2) {
        let name = line[0];
        if name < end {
            return None;
        }
        end = name + 1;
    }
    Some(end)
}

/// One more than the greatest of the numbers, or 0 where there is none.
fn names_end(numbers: &[u32]) -> u32
    requires { All (λ x. x < most_names) numbers.now }
    ensures above { All (λ x. x < result) numbers.now }
    ensures few { result ≤ most_names }
{
    let mut end = 0;
    for number in numbers {
        end = end.max(number + 1);
    }
    end
}

/// The lines, each of `width` numbers, in the order in which they stand.
fn lines_of(alloc: Global, numbers: &[u32], width: usize) -> Result<Vec<Line>, OutOfMemory>
    requires some { 0 < width }
    requires few { length numbers.now / width ≤ most_darts }
    ensures { IfOk result (λ lines. map (λ (line : Line). line.at) lines.items ≡ counted_from 0 (length numbers.now / width)) }
{
    let count = numbers.len() / width;
    let mut lines = Vec::with_capacity(alloc, count)?;
    for at in 0..count {
        lines.push(Line {
            name: numbers[at * width],
            at: at as u32,
        })?;
    }
    Ok(lines)
}

/// The lines in ascending order of their names.
fn lines_by_name(alloc: Global, numbers: &[u32], width: usize) -> Result<Vec<Line>, OutOfMemory>
    requires some { 0 < width }
    requires few { length numbers.now / width ≤ most_darts }
    ensures { IfOk result (λ lines. IsPermutation (counted_from 0 (length numbers.now / width)) (map (λ (line : Line). line.at) lines.items)) }
{
    let mut lines = lines_of(alloc, numbers, width)?;
    lines.sort_unstable_by_key(|line| line.name);
    Ok(lines)
}

/// Puts what stands on the lines in the place of all, where each has `width` elements of it.
fn order_lines<T: Copy>(
    alloc: Global,
    lines: &[Line],
    width: usize,
    all: &mut Vec<T>,
) -> Result<(), OutOfMemory>
    requires { All (λ (line : Line). line.at * width + width ≤ length all.old.items) lines.now }
    ensures { OnOk result (all.new.items ≡ on_lines width all.old.items (map (λ (line : Line). line.at) lines.now)) }
{
    let mut taken = Vec::with_capacity(alloc, all.len())?;
    take_lines(lines, width, all.as_slice(), &mut taken)?;
    *all = taken;
    Ok(())
}

/// Appends what stands on the lines, where each has `width` elements of all.
fn take_lines<T: Copy>(
    lines: &[Line],
    width: usize,
    all: &[T],
    taken: &mut Vec<T>,
) -> Result<(), AllocError>
    requires { All (λ (line : Line). line.at * width + width ≤ length all.now) lines.now }
    ensures { OnOk result (taken.new.items ≡ taken.old.items ++ on_lines width all.now (map (λ (line : Line). line.at) lines.now)) }
{
    for line in lines {
        let start = line.at as usize * width;
        taken.extend_from_slice(&all[start..start + width])?;
    }
    Ok(())
}
