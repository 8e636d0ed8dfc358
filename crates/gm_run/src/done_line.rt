//! The line of an application that is done, as most lines of a report are.
ghost use Rattle.std.specs.Prelude.{◌≡◌, ◌+◌, ◌++◌, ◌≤◌, OnOk, codes, decimal, drop, length};
ghost use Rattle.gm_model.specs.declared.limit.TheConstants.{MOST_NAME_BYTES};

use gm_apply::Applied;
use gm_model::OutOfMemory;
use gm_text::{Text, write_number, write_word};
use itoa::write_digits;

/// The line has at most this many bytes: its number of twenty digits, a name of 32 bytes, two counts
/// of ten digits each, and 23 bytes between and after them.
const LINE: usize = 96;

/// Appends the line of this number about a rule of this name.
// It is composed first and appended at once: for each piece by itself room would be looked for anew.
pub(crate) fn put_done_line(
    text: &mut Text,
    number: usize,
    name: &[u8],
    applied: Applied,
) -> Result<(), OutOfMemory>
    requires { length name.now ≤ MOST_NAME_BYTES }
    ensures { OnOk result (text.new ≡ text.old ++ (decimal number ++ codes " " ++ name.now ++ codes " " ++ (codes "done added " ++ decimal applied.added ++ codes " removed " ++ decimal applied.removed) ++ codes "\n")) }
{
    let mut line = [0; LINE];
    let done = write_done(&mut line, applied, LINE);
    let named = write_word(&mut line, name, done);
    let blank = write_word(&mut line, b" ", named);
    let start = write_digits(number as u64, &mut line, blank);
    text.put_from(&line, start)
}

/// Writes what is told of the application, so that the line ends at `end`. The answer is where it
/// begins.
fn write_done(line: &mut [u8], applied: Applied, end: usize) -> usize
    requires room { 42 ≤ end }
    requires within { end ≤ length line.old }
    ensures few { end ≤ result + 42 }
    ensures before { result ≤ end }
    ensures long { length line.new ≡ length line.old }
    ensures written { drop result line.new ≡ codes " " ++ (codes "done added " ++ decimal applied.added ++ codes " removed " ++ decimal applied.removed ++ codes "\n" ++ drop end line.old) }
{
    let feed = write_word(line, b"\n", end);
    let removed = write_number(line, applied.removed, feed);
    let words = write_word(line, b" removed ", removed);
    let added = write_number(line, applied.added, words);
    write_word(line, b" done added ", added)
}
