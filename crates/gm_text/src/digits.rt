//! The digits with which bytes begin: how many there are, and their number, looked at in one.
ghost use Rattle.std.specs.Prelude.{◌≡◌, ℕ, ◌+◌, ◌<◌, ◌≤◌, List, map, length, take};
ghost use Rattle.std.specs.List.{prefix_len};
ghost use Rattle.std.specs.Simd.Lanes.{chunk, number_l};
ghost use Rattle.gm_text.specs.inner.Digits.{digit_of, is_small, number_behind, HasDigits};

use std::simd::prelude::*;

/// What each of the bytes from a place on is as a digit, or more than 9 where it is none.
#[inline(always)]
pub(crate) fn digits_at(text: &[u8], at: usize) -> u8x16
    requires { at + 16 ≤ length text.now }
    ensures { result ≡ map digit_of (chunk at 16 text.now) }
{
    u8x16::from_slice(&text[at..]) - u8x16::splat(b'0')
}

/// How many of them are digits, up to the first that is none.
#[inline(always)]
pub(crate) fn leading_digits(digits: u8x16) -> usize
    ensures { result ≡ prefix_len is_small digits }
{
    let others = digits.simd_ge(u8x16::splat(10)).to_bitmask();
    if others == 0 {
        16
    } else {
        others.trailing_zeros() as usize
    }
}

/// The number that the first `count` of them make.
#[inline(always)]
pub(crate) fn leading_number(digits: u8x16, count: usize) -> u32
    requires some { 0 < count }
    requires few { count ≤ 8 }
    requires digits { count ≤ prefix_len is_small digits }
    ensures { result ≡ number_behind 0 (take count digits) }
{
    // The digits go to the end of the word, and zeros stand before them.
    number_of_eight(word_of(digits) << (64 - 8 * count as u32))
}

/// The first eight of them in one word, the first in its lowest byte.
#[inline(always)]
fn word_of(digits: u8x16) -> u64
    ensures { result ≡ number_l 256 (take 8 digits) }
{
    u64x1::from_le_bytes(digits.extract::<0, 8>()).to_array()[0]
}

/// The lowest byte of each half of a word.
const LOWEST: u64 = 0x0000_00ff_0000_00ff;

/// The number of the eight digits in a word.
#[inline(always)]
fn number_of_eight(word: u64) -> u32
    requires { (digits : List ℕ) × HasDigits word digits }
    ensures { (digits : List ℕ) → HasDigits word digits → result ≡ number_behind 0 digits }
{
    // Each second byte is the number of two digits. The four numbers are multiplied by the powers of
    // 100, two at once, so that their sum is the upper half.
    let pairs = word * 10 + word / 0x100;
    let outer = (pairs & LOWEST).wrapping_mul(0x000f_4240_0000_0064);
    let inner = ((pairs / 0x1_0000) & LOWEST).wrapping_mul(0x0000_2710_0000_0001);
    (outer.wrapping_add(inner) / 0x1_0000_0000) as u32
}
