//! Where the blanks, the names, the numbers and the other tokens of a text end.

ghost use Rattle.std.specs.Prelude.{◌≡◌, ◌+◌, ◌<◌, ◌≤◌, ◌||◌, true, false, not, length, drop, slice_index, IsTrue, IfSome, MatchOption};
ghost use Rattle.std.specs.List.{take_while};
ghost use Rattle.gm_model.specs.declared.token.TokenKind.TheVariants.{Name};
ghost use Rattle.gm_model.specs.Symbols.{value_of};
ghost use Rattle.gm_model.specs.Tokens as tokens;
ghost use Rattle.gm_text.specs.inner.Lexing.{IsGap, IsTokenAt, front_at};

use crate::bytes::{is_blank, is_digit, is_letter, is_name_byte, is_sign, is_two_byte_sign};
use crate::digits::{digits_at, leading_digits, leading_number};
use crate::guess::Guess;
use gm_model::{Token, TokenKind};

/// The first place from `from` on where neither a blank nor a comment stands.
pub fn gap_end(text: &[u8], from: usize) -> usize
    requires { from ≤ length text.now }
    ensures behind { from ≤ result }
    ensures within { result ≤ length text.now }
    ensures same { tokens.items_at text.now from ≡ tokens.items_at text.now result }
    ensures gap { IsGap text.now from result }
    ensures stops { result < length text.now →
        (tokens.is_blank (slice_index text.now result) ≡ false) × (tokens.is_hash (slice_index text.now result) ≡ false) }
{
    let mut at = from;
    while at < text.len() {
        if is_blank(text[at]) {
            at += 1;
        } else if text[at] == b'#' {
            at = line_end(text, at + 1);
        } else {
            return at;
        }
    }
    at
}

/// The number that begins at `from`, or after one blank there, as most numbers of a map do.
pub fn number_near(text: &[u8], from: usize) -> Option<Token>
    requires { from ≤ length text.now }
    ensures behind { IfSome result (λ token. from ≤ token.start) }
    ensures same { IfSome result (λ token. tokens.items_at text.now from ≡ tokens.items_at text.now token.start) }
    ensures gap { IfSome result (λ token. IsGap text.now from token.start) }
    ensures token { IfSome result (λ token. IsTokenAt text.now token.start token) }
{
    let start = behind_blank(text, from);
    if start < text.len() && is_digit(text[start]) {
        return Some(Token {
            kind: TokenKind::Number,
            start,
            end: number_end(text, start + 1),
        });
    }
    None
}

/// The name that begins at `from`, or after one blank there.
// Inlined, as `small_at` is.
#[inline(always)]
pub fn name_near(text: &[u8], from: usize) -> Option<Token>
    requires { from ≤ length text.now }
    ensures kind { IfSome result (λ token. token.kind ≡ Name) }
    ensures behind { IfSome result (λ token. from ≤ token.start) }
    ensures same { IfSome result (λ token. tokens.items_at text.now from ≡ tokens.items_at text.now token.start) }
    ensures token { IfSome result (λ token. IsTokenAt text.now token.start token) }
{
    let start = behind_blank(text, from);
    if start < text.len() && is_letter(text[start]) {
        return Some(Token {
            kind: TokenKind::Name,
            start,
            end: name_end(text, start + 1),
        });
    }
    None
}

/// A number below 100,000,000, and where it ends.
pub struct Small {
    pub value: u32,
    pub end: usize,
}

/// The number whose first digit stands at `start`, where it has eight digits at most.
// Inlined up to who reads a number, it takes some 20 instructions less: nothing goes by memory.
#[inline(always)]
pub fn small_at(text: &[u8], start: usize, guess: &mut Guess) -> Option<Small>
    requires inside { start + 16 ≤ length text.now }
    ensures digit { IfSome result (λ _. IsTrue (tokens.is_digit (slice_index text.now start))) }
    ensures end { IfSome result (λ small. small.end ≡ start + 1 + length (take_while tokens.is_digit (drop (start + 1) text.now))) }
    ensures within { IfSome result (λ small. small.end ≤ length text.now) }
    ensures value { IfSome result (λ small. small.value ≡ value_of (take_while tokens.is_digit (drop start text.now))) }
{
    let digits = digits_at(text, start);
    let count = leading_digits(digits);
    let end = guess.end(start, count)?;
    Some(Small {
        value: leading_number(digits, count),
        end,
    })
}

/// The place itself, or the next one where a blank stands at it.
// Inlined, as `small_at` is.
#[inline(always)]
pub fn behind_blank(text: &[u8], from: usize) -> usize
    requires { from ≤ length text.now }
    ensures behind { from ≤ result }
    ensures within { result ≤ length text.now }
    ensures same { tokens.items_at text.now from ≡ tokens.items_at text.now result }
    ensures gap { IsGap text.now from result }
{
    if from < text.len() {
        return past_blank(text, from);
    }
    from
}

/// The same where the text goes on.
// Inlined, as `small_at` is.
#[inline(always)]
pub fn past_blank(text: &[u8], from: usize) -> usize
    requires { from < length text.now }
    ensures behind { from ≤ result }
    ensures near { result ≤ from + 1 }
    ensures same { tokens.items_at text.now from ≡ tokens.items_at text.now result }
    ensures gap { IsGap text.now from result }
{
    if is_blank(text[from]) {
        return from + 1;
    }
    from
}

/// The place after this blank, or the place itself where none is named.
// Inlined, as `small_at` is.
#[inline(always)]
pub fn behind_this(text: &[u8], from: usize, blank: Option<u8>) -> Option<usize>
    requires inside { from < length text.now }
    requires blank { IfSome blank (λ b. IsTrue (tokens.is_blank b)) }
    ensures near { IfSome result (λ place. place ≤ from + 1) }
    ensures same { IfSome result (λ place. tokens.items_at text.now from ≡ tokens.items_at text.now place) }
{
    let Some(blank) = blank else {
        return Some(from);
    };
    if text[from] != blank {
        return None;
    }
    Some(from + 1)
}

/// The token that begins at `at`, where neither a blank nor a comment stands.
pub fn token_at(text: &[u8], at: usize) -> Option<Token>
    requires inside { at < length text.now }
    requires no_blank { tokens.is_blank (slice_index text.now at) ≡ false }
    requires no_comment { tokens.is_hash (slice_index text.now at) ≡ false }
    ensures { MatchOption result (front_at text.now at ≡ tokens.Stray) (IsTokenAt text.now at) }
{
    let first = text[at];
    let (kind, end) = if is_letter(first) {
        (TokenKind::Name, name_end(text, at + 1))
    } else if is_digit(first) {
        (TokenKind::Number, number_end(text, at + 1))
    } else if first == b'_' {
        (TokenKind::Gone, at + 1)
    } else if begins_two_byte_sign(text, at) {
        (TokenKind::Sign, at + 2)
    } else if is_sign(first) {
        (TokenKind::Sign, at + 1)
    } else {
        return None;
    };
    Some(Token {
        kind,
        start: at,
        end,
    })
}

fn begins_two_byte_sign(text: &[u8], at: usize) -> bool
    requires { at < length text.now }
    ensures value { result ≡ tokens.begins_two_byte_sign (slice_index text.now at) (drop (at + 1) text.now) }
    ensures room { result ≡ true → at + 2 ≤ length text.now }
{
    at + 1 < text.len() && is_two_byte_sign(text[at], text[at + 1])
}

fn line_end(text: &[u8], from: usize) -> usize
    requires { from ≤ length text.now }
    ensures value { result ≡ from + length (take_while (λ c. not (tokens.is_line_feed c)) (drop from text.now)) }
    ensures within { result ≤ length text.now }
{
    let mut at = from;
    while at < text.len() && text[at] != b'\n' {
        at += 1;
    }
    at
}

fn name_end(text: &[u8], from: usize) -> usize
    requires { from ≤ length text.now }
    ensures value { result ≡ from + length (take_while tokens.is_name_byte (drop from text.now)) }
    ensures within { result ≤ length text.now }
{
    let mut at = from;
    while at < text.len() && is_name_byte(text[at]) {
        at += 1;
    }
    at
}

fn number_end(text: &[u8], from: usize) -> usize
    requires { from ≤ length text.now }
    ensures value { result ≡ from + length (take_while tokens.is_digit (drop from text.now)) }
    ensures within { result ≤ length text.now }
{
    let mut at = from;
    while at < text.len() && is_digit(text[at]) {
        at += 1;
    }
    at
}
