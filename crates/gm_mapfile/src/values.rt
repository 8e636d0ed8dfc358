//! The values of a dart, read from its line.
ghost use Rattle.std.specs.Prelude.{◌≡◌, ℕ, false, ◌<◌, ◌≤◌, [], ◌∷◌, codes, if◌then◌else◌, IsTrue, MatchOption, IfOk, IfErr, IfSome, OnOk, OnErr};
ghost use Rattle.gm_model.specs.declared.value.Kind.TheVariants as kinds;
ghost use Rattle.gm_model.specs.Tokens as tokens;
ghost use Rattle.gm_model.specs.Expressions.{components};
ghost use Rattle.gm_model.specs.Values.{kind_of};
ghost use Rattle.gm_text.specs.ValueText.{is_channel};
ghost use Rattle.gm_mapfile.specs.inner.Words.{IsSignedNext, IsNoSignedNext};
ghost use Rattle.gm_mapfile.specs.MapReading.{Takes, Misses, TheSign, Component, value_wants, values_wants, ReadsValues};

use crate::words::{Numeral, numeral_behind, read_number, read_sign, small_numeral};
use gm_model::{Embed, Kind, LimitKind, TokenKind, Value};
use gm_text::{Guess, Lexer, SchemaFault, next_token, signed_value};

/// The blank that stands before most values and components.
const SPACE: Option<u8> = Some(b' ');

/// How many digits the components of a value are guessed to have.
#[derive(Clone, Copy)]
pub(crate) struct Guesses {
    pub x: Guess,
    pub y: Guess,
    pub z: Guess,
}

/// A number with a minus before it or without, and where the number stands.
struct Signed {
    minus: bool,
    /// The greatest `u64` stands for a number that is greater.
    size: u64,
    place: usize,
}

/// A number with a minus before it or without, after any blank. Most that come here have one.
fn read_signed(lexer: &mut Lexer<'_>) -> Result<Signed, SchemaFault>
    ensures next { IfOk result (λ found. IsSignedNext lexer.old found.minus found.size found.place lexer.new) }
    ensures none { IfErr result (IsNoSignedNext lexer.old) }
{
    if lexer.small_sign(b'-') {
        let Numeral { value, place } = read_number(lexer)?;
        return Ok(Signed {
            minus: true,
            size: value,
            place,
        });
    }
    if let Some(Numeral { value, place }) = small_numeral(lexer) {
        return Ok(Signed {
            minus: false,
            size: value,
            place,
        });
    }
    read_signed_numeral(lexer)
}

/// A number by its tokens.
fn read_signed_numeral(lexer: &mut Lexer<'_>) -> Result<Signed, SchemaFault>
    ensures next { IfOk result (λ found. IsSignedNext lexer.old found.minus found.size found.place lexer.new) }
    ensures none { IfErr result (IsNoSignedNext lexer.old) }
{
    let token = next_token(lexer)?;
    let place = token.start;
    match token.kind {
        TokenKind::Number => Ok(Signed {
            minus: false,
            size: lexer.value(&token),
            place,
        }),
        TokenKind::Sign if lexer.text(&token) == b"-".as_slice() => {
            let Numeral { value, place } = read_number(lexer)?;
            Ok(Signed {
                minus: true,
                size: value,
                place,
            })
        }
        _ => Err(SchemaFault::Text { place }),
    }
}

/// A component of a value, of a colour or not. Most are small, without a minus.
// Inlined, as `read_number` is.
#[inline(always)]
fn read_component(
    lexer: &mut Lexer<'_>,
    blank: Option<u8>,
    guess: &mut Guess,
    colour: bool,
) -> Result<i64, SchemaFault>
    requires blank { IfSome blank (λ b. IsTrue (tokens.is_blank b)) }
    ensures takes { IfOk result (λ n. Takes (Component colour ∷ []) (n ∷ []) lexer.old lexer.new) }
    ensures channel { IfOk result (λ n. IsTrue colour → IsTrue (is_channel n)) }
    ensures misses { IfErr result (Misses (Component colour ∷ []) lexer.old) }
{
    let Some(Numeral { value, place }) = numeral_behind(lexer, blank, guess) else {
        return read_other_component(lexer, colour);
    };
    if colour && value > 255 {
        let what = LimitKind::Channel;
        return Err(SchemaFault::Limit { what, place });
    }
    Ok(value as i64)
}

/// A component that isn't small, or has a minus before it.
// By a copy of the lexer, so that only the copy goes by memory.
#[inline(always)]
fn read_other_component(lexer: &mut Lexer<'_>, colour: bool) -> Result<i64, SchemaFault>
    ensures takes { IfOk result (λ n. Takes (Component colour ∷ []) (n ∷ []) lexer.old lexer.new) }
    ensures channel { IfOk result (λ n. IsTrue colour → IsTrue (is_channel n)) }
    ensures misses { IfErr result (Misses (Component colour ∷ []) lexer.old) }
{
    let mut copy = lexer.fork();
    let read = read_any_component(&mut copy, colour);
    *lexer = copy;
    read
}

/// A component of any size, with a minus before it or without.
#[cold]
fn read_any_component(lexer: &mut Lexer<'_>, colour: bool) -> Result<i64, SchemaFault>
    ensures takes { IfOk result (λ n. Takes (Component colour ∷ []) (n ∷ []) lexer.old lexer.new) }
    ensures channel { IfOk result (λ n. IsTrue colour → IsTrue (is_channel n)) }
    ensures misses { IfErr result (Misses (Component colour ∷ []) lexer.old) }
{
    let Signed { minus, size, place } = read_signed(lexer)?;
    let Some(value) = signed_value(minus, size) else {
        let what = LimitKind::Integer;
        return Err(SchemaFault::Limit { what, place });
    };
    if colour && (value < 0 || value > 255) {
        let what = LimitKind::Channel;
        return Err(SchemaFault::Limit { what, place });
    }
    Ok(value)
}

/// A sign around the components of a value.
// Inlined, as `read_number` is.
#[inline(always)]
fn read_bracket(lexer: &mut Lexer<'_>, blank: Option<u8>, sign: u8) -> Result<(), SchemaFault>
    requires blank { IfSome blank (λ b. IsTrue (tokens.is_blank b)) }
    requires sign { IsTrue (tokens.is_sign sign) }
    requires alone { (c : ℕ) → tokens.is_two_byte_sign sign c ≡ false }
    ensures takes { OnOk result (Takes (TheSign (sign ∷ []) ∷ []) [] lexer.old lexer.new) }
    ensures misses { IfErr result (Misses (TheSign (sign ∷ []) ∷ []) lexer.old) }
{
    read_sign(lexer, blank, sign)
}

/// Two components after the sign before them.
// Inlined, as `read_triple` is.
#[inline(always)]
fn read_two(
    lexer: &mut Lexer<'_>,
    guesses: &mut Guesses,
    colour: bool,
) -> Result<(i64, i64), SchemaFault>
    ensures takes { IfOk result (λ xs. Takes (TheSign (codes "(") ∷ Component colour ∷ Component colour ∷ []) (xs.0 ∷ xs.1 ∷ []) lexer.old lexer.new) }
    ensures channels { IfOk result (λ xs. IsTrue colour → IsTrue (is_channel xs.0) × IsTrue (is_channel xs.1)) }
    ensures misses { IfErr result (Misses (TheSign (codes "(") ∷ Component colour ∷ Component colour ∷ []) lexer.old) }
{
    read_bracket(lexer, SPACE, b'(')?;
    let x = read_component(lexer, None, &mut guesses.x, colour)?;
    let y = read_component(lexer, SPACE, &mut guesses.y, colour)?;
    Ok((x, y))
}

/// The value of three components, a colour or not.
// Inlined, as `read_triple` is.
#[inline(always)]
fn value_of_three(x: i64, y: i64, z: i64, colour: bool) -> Value
    requires { IsTrue colour → IsTrue (is_channel x) × IsTrue (is_channel y) × IsTrue (is_channel z) }
    ensures components { components result ≡ x ∷ y ∷ z ∷ [] }
    ensures kind { kind_of result ≡ (if colour then kinds.Rgb else kinds.Vec3) }
{
    if colour {
        Value::Rgb(x as u8, y as u8, z as u8)
    } else {
        Value::Vec3(x, y, z)
    }
}

/// A vector or a colour: three components, with a sign before them and one after.
// Inlined, as `read_number` is, so that vectors and colours are each read without a test which it is.
#[inline(always)]
fn read_triple(
    lexer: &mut Lexer<'_>,
    guesses: &mut Guesses,
    colour: bool,
) -> Result<Value, SchemaFault>
    ensures takes { IfOk result (λ value. Takes (TheSign (codes "(") ∷ Component colour ∷ Component colour ∷ Component colour ∷ TheSign (codes ")") ∷ []) (components value) lexer.old lexer.new) }
    ensures kind { IfOk result (λ value. kind_of value ≡ (if colour then kinds.Rgb else kinds.Vec3)) }
    ensures misses { IfErr result (Misses (TheSign (codes "(") ∷ Component colour ∷ Component colour ∷ Component colour ∷ TheSign (codes ")") ∷ []) lexer.old) }
{
    let (x, y) = read_two(lexer, guesses, colour)?;
    let z = read_component(lexer, SPACE, &mut guesses.z, colour)?;
    read_bracket(lexer, None, b')')?;
    Ok(value_of_three(x, y, z, colour))
}

// Inlined, as `read_triple` is.
#[inline(always)]
fn read_pair(lexer: &mut Lexer<'_>, guesses: &mut Guesses) -> Result<Value, SchemaFault>
    ensures takes { IfOk result (λ value. Takes (value_wants kinds.Vec2) (components value) lexer.old lexer.new) }
    ensures kind { IfOk result (λ value. kind_of value ≡ kinds.Vec2) }
    ensures misses { IfErr result (Misses (value_wants kinds.Vec2) lexer.old) }
{
    let (x, y) = read_two(lexer, guesses, false)?;
    read_bracket(lexer, None, b')')?;
    Ok(Value::Vec2(x, y))
}

// Inlined, as `read_triple` is.
#[inline(always)]
fn read_int(lexer: &mut Lexer<'_>, guess: &mut Guess) -> Result<Value, SchemaFault>
    ensures takes { IfOk result (λ value. Takes (value_wants kinds.Int) (components value) lexer.old lexer.new) }
    ensures kind { IfOk result (λ value. kind_of value ≡ kinds.Int) }
    ensures misses { IfErr result (Misses (value_wants kinds.Int) lexer.old) }
{
    let number = read_component(lexer, SPACE, guess, false)?;
    Ok(Value::Int(number))
}

/// A truth has no components. No embedding is one of truths.
// Inlined, as `read_triple` is.
#[inline(always)]
fn read_truth(lexer: &mut Lexer<'_>) -> Result<Value, SchemaFault>
    ensures takes { IfOk result (λ value. Takes (value_wants kinds.Bool) (components value) lexer.old lexer.new) }
    ensures kind { IfOk result (λ value. kind_of value ≡ kinds.Bool) }
    ensures misses { IfErr result (Misses (value_wants kinds.Bool) lexer.old) }
{
    read_bracket(lexer, SPACE, b'(')?;
    read_bracket(lexer, None, b')')?;
    Ok(Value::Bool(false))
}

fn read_value(
    lexer: &mut Lexer<'_>,
    guesses: &mut Guesses,
    kind: Kind,
) -> Result<Value, SchemaFault>
    ensures takes { IfOk result (λ value. Takes (value_wants kind) (components value) lexer.old lexer.new) }
    ensures kind { IfOk result (λ value. kind_of value ≡ kind) }
    ensures misses { IfErr result (Misses (value_wants kind) lexer.old) }
{
    match kind {
        Kind::Int => read_int(lexer, &mut guesses.x),
        Kind::Bool => read_truth(lexer),
        Kind::Vec2 => read_pair(lexer, guesses),
        Kind::Vec3 => read_triple(lexer, guesses, false),
        Kind::Rgb => read_triple(lexer, guesses, true),
    }
}

/// A value of each embedding, after those before them.
// Inlined, as `read_number` is.
#[inline(always)]
pub(crate) fn read_values(
    lexer: &mut Lexer<'_>,
    guesses: &mut Guesses,
    embeds: &[Embed],
    values: &mut Vec<Value>,
) -> Result<(), SchemaFault>
    ensures reads { OnOk result (ReadsValues embeds.now lexer.old lexer.new values.old.items values.new.items) }
    ensures stops { IfErr result (Misses (values_wants embeds.now) lexer.old) }
{
    for embed in embeds {
        let value = read_value(lexer, guesses, embed.kind)?;
        values.push(value)?;
    }
    Ok(())
}
