//! Words and numbers that are written from the end of bytes on, each piece before what stands there
//! already, so that many are appended at once.
ghost use Rattle.std.specs.Prelude.{◌≡◌, ◌+◌, ◌≤◌, ◌∷◌, ◌++◌, length, drop, decimal};

use itoa::write_digits;

/// Writes the bytes of a word, so that they end at `end`. The answer is where they begin.
// Inlined, a word of a known length takes a few stores.
#[inline(always)]
pub fn write_word(bytes: &mut [u8], word: &[u8], end: usize) -> usize
    requires room { length word.now ≤ end }
    requires within { end ≤ length bytes.old }
    ensures before { result + length word.now ≡ end }
    ensures long { length bytes.new ≡ length bytes.old }
    ensures written { drop result bytes.new ≡ word.now ++ drop end bytes.old }
{
    let start = end - word.len();
    bytes[start..end].copy_from_slice(word);
    start
}

/// Writes the digits of a number, of which there are ten at most, so that they end at `end`. The
/// answer is where they begin.
// Inlined, as `write_word` is.
#[inline(always)]
pub fn write_number(bytes: &mut [u8], n: u32, end: usize) -> usize
    requires room { 10 ≤ end }
    requires within { end ≤ length bytes.old }
    ensures few { end ≤ result + 10 }
    ensures before { result ≤ end }
    ensures long { length bytes.new ≡ length bytes.old }
    ensures written { drop result bytes.new ≡ decimal n ++ drop end bytes.old }
{
    write_digits(u64::from(n), bytes, end)
}

/// Writes the digits of a number with a blank before them, so that they end at `end`. The answer is
/// where the blank stands.
// Inlined, as `write_word` is.
#[inline(always)]
pub fn write_number_behind_blank(bytes: &mut [u8], n: u32, end: usize) -> usize
    requires room { 11 ≤ end }
    requires within { end ≤ length bytes.old }
    ensures few { end ≤ result + 11 }
    ensures before { result ≤ end }
    ensures long { length bytes.new ≡ length bytes.old }
    ensures written { drop result bytes.new ≡ 32 ∷ (decimal n ++ drop end bytes.old) }
{
    let start = write_number(bytes, n, end);
    write_word(bytes, b" ", start)
}
