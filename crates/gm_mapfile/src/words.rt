//! The words and the numbers of a map's text, one token each.
ghost use Rattle.std.specs.Prelude.{◌≡◌, ℕ, ◌-◌, ◌<◌, ◌^◌, [], ◌∷◌, false, min, IsTrue, IfOk, IfErr, IfSome, IfNone};
ghost use Rattle.gm_model.specs.Symbols.{Word, Sign};
ghost use Rattle.gm_model.specs.Tokens as tokens;
ghost use Rattle.gm_mapfile.specs.inner.Words.{StandsNext, IsNumberNext, IsOtherNext, IsNoNumberNext};

use gm_text::{Guess, Lexer, SchemaFault, SmallNumber, TokenKind, next_token};

/// A number of the text, and where it stands.
#[derive(Clone, Copy)]
pub(crate) struct Numeral {
    /// The greatest `u64` stands for a number that is greater.
    pub value: u64,
    pub place: usize,
}

/// A word of the format.
pub(crate) fn read_word(lexer: &mut Lexer<'_>, word: &[u8]) -> Result<(), SchemaFault>
    ensures next { IfOk result (λ _. StandsNext (Word word.now) lexer.old lexer.new) }
    ensures other { IfErr result (IsOtherNext (Word word.now) lexer.old) }
{
    let token = next_token(lexer)?;
    if token.kind != TokenKind::Name || lexer.text(&token) != word {
        return Err(SchemaFault::Text { place: token.start });
    }
    Ok(())
}

/// A sign of the format that has one byte. It mostly stands after this blank, or next where none is
/// named.
// Inlined, as `read_number` is.
#[inline(always)]
pub(crate) fn read_sign(
    lexer: &mut Lexer<'_>,
    blank: Option<u8>,
    sign: u8,
) -> Result<(), SchemaFault>
    requires blank { IfSome blank (λ b. IsTrue (tokens.is_blank b)) }
    requires sign { IsTrue (tokens.is_sign sign) }
    requires alone { (c : ℕ) → tokens.is_two_byte_sign sign c ≡ false }
    ensures next { IfOk result (λ _. StandsNext (Sign (sign ∷ [])) lexer.old lexer.new) }
    ensures other { IfErr result (IsOtherNext (Sign (sign ∷ [])) lexer.old) }
{
    if lexer.sign_behind(blank, sign) {
        return Ok(());
    }
    read_sign_apart(lexer, sign)
}

/// The same, whatever stands before it.
// By a copy of the lexer, so that only the copy goes by memory.
#[inline(always)]
fn read_sign_apart(lexer: &mut Lexer<'_>, sign: u8) -> Result<(), SchemaFault>
    requires sign { IsTrue (tokens.is_sign sign) }
    requires alone { (c : ℕ) → tokens.is_two_byte_sign sign c ≡ false }
    ensures next { IfOk result (λ _. StandsNext (Sign (sign ∷ [])) lexer.old lexer.new) }
    ensures other { IfErr result (IsOtherNext (Sign (sign ∷ [])) lexer.old) }
{
    let mut copy = lexer.fork();
    let read = read_any_sign(&mut copy, sign);
    *lexer = copy;
    read
}

/// A sign of one byte after any blank, or else by its token.
#[cold]
fn read_any_sign(lexer: &mut Lexer<'_>, sign: u8) -> Result<(), SchemaFault>
    requires sign { IsTrue (tokens.is_sign sign) }
    requires alone { (c : ℕ) → tokens.is_two_byte_sign sign c ≡ false }
    ensures next { IfOk result (λ _. StandsNext (Sign (sign ∷ [])) lexer.old lexer.new) }
    ensures other { IfErr result (IsOtherNext (Sign (sign ∷ [])) lexer.old) }
{
    if lexer.small_sign(sign) {
        return Ok(());
    }
    read_longest_sign(lexer, &[sign])
}

/// A sign of the format, where no longer one stands.
#[cold]
fn read_longest_sign(lexer: &mut Lexer<'_>, sign: &[u8]) -> Result<(), SchemaFault>
    ensures next { IfOk result (λ _. StandsNext (Sign sign.now) lexer.old lexer.new) }
    ensures other { IfErr result (IsOtherNext (Sign sign.now) lexer.old) }
{
    let token = next_token(lexer)?;
    if token.kind != TokenKind::Sign || lexer.text(&token) != sign {
        return Err(SchemaFault::Text { place: token.start });
    }
    Ok(())
}

/// A number, whatever limit it passes. Most are small.
// Inlined, it takes some 15 instructions less, since a number stays in registers.
#[inline(always)]
pub(crate) fn read_number(lexer: &mut Lexer<'_>) -> Result<Numeral, SchemaFault>
    ensures next { IfOk result (λ found. IsNumberNext lexer.old found.value found.place lexer.new) }
    ensures none { IfErr result (IsNoNumberNext lexer.old) }
{
    match small_numeral(lexer) {
        Some(small) => Ok(small),
        None => read_numeral(lexer),
    }
}

/// A number that stands next and is small, or else the lexer stays.
// Inlined, as `read_number` is.
#[inline(always)]
pub(crate) fn small_numeral(lexer: &mut Lexer<'_>) -> Option<Numeral>
    ensures next { IfSome result (λ found. IsNumberNext lexer.old found.value found.place lexer.new) }
    ensures small { IfSome result (λ found. found.value < 2 ^ 32) }
    ensures none { IfNone result (lexer.new ≡ lexer.old) }
{
    let SmallNumber { value, place } = lexer.small_number()?;
    Some(Numeral {
        value: u64::from(value),
        place,
    })
}

/// The same after this blank, or with nothing before it where none is named.
// Inlined, as `read_number` is.
#[inline(always)]
pub(crate) fn numeral_behind(
    lexer: &mut Lexer<'_>,
    blank: Option<u8>,
    guess: &mut Guess,
) -> Option<Numeral>
    requires blank { IfSome blank (λ b. IsTrue (tokens.is_blank b)) }
    ensures next { IfSome result (λ found. IsNumberNext lexer.old found.value found.place lexer.new) }
    ensures small { IfSome result (λ found. found.value < 2 ^ 32) }
    ensures none { IfNone result (lexer.new ≡ lexer.old) }
{
    let SmallNumber { value, place } = lexer.number_behind(blank, guess)?;
    Some(Numeral {
        value: u64::from(value),
        place,
    })
}

/// A number by its token.
// By a copy, as `read_sign_apart` is.
#[inline(always)]
fn read_numeral(lexer: &mut Lexer<'_>) -> Result<Numeral, SchemaFault>
    ensures next { IfOk result (λ found. IsNumberNext lexer.old found.value found.place lexer.new) }
    ensures none { IfErr result (IsNoNumberNext lexer.old) }
{
    let mut copy = lexer.fork();
    let read = read_any_numeral(&mut copy);
    *lexer = copy;
    read
}

/// A number of any size.
#[cold]
fn read_any_numeral(lexer: &mut Lexer<'_>) -> Result<Numeral, SchemaFault>
    ensures next { IfOk result (λ found. IsNumberNext lexer.old found.value found.place lexer.new) }
    ensures none { IfErr result (IsNoNumberNext lexer.old) }
{
    let token = next_token(lexer)?;
    if token.kind != TokenKind::Number {
        return Err(SchemaFault::Text { place: token.start });
    }
    Ok(Numeral {
        value: lexer.value(&token),
        place: token.start,
    })
}
