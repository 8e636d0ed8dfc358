//! What stands next in a text, and what a script sees in it.
ghost use Rattle.std.specs.Prelude.{◌≡◌, ◌∷◌, ℕ, [], length, map, false, IsTrue, IfOk, IfErr, IfSome, IfNone, MatchOption};
ghost use Rattle.gm_model.specs.Tokens as tokens;
ghost use Rattle.gm_model.specs.Tokens.{bytes_of, EndAt, IsLexeme};
ghost use Rattle.gm_model.specs.declared.token.TokenKind.TheVariants.{Name};
ghost use Rattle.gm_model.specs.Rules.{rule_of};
ghost use Rattle.gm_text.specs.inner.Lexing.{rest_of};
ghost use Rattle.gm_script.specs.inner.Reading as reading;
ghost use Rattle.gm_script.specs.inner.Reading.{IsNext, IsSeenNext, IsStray};
ghost use Rattle.gm_script.specs.inner.SoFar.{IsKnown};
ghost use Rattle.gm_script.specs.declared.sight.Head.{Head};
ghost use Rattle.gm_script.specs.declared.sight.Sight.{Sight};

use crate::near::{NameLead, lead_of_name, word_of_lead};
use crate::reader::TextFault;
use crate::rules::RulesByName;
use crate::sight::{Head, Sight, sight_of, sight_of_word};
use crate::spot::Spot;
use gm_text::{Lexer, Token, TokenKind};
use std::simd::prelude::*;

/// A token, and what the script sees in it.
#[derive(Clone, Copy)]
pub(crate) struct Seen {
    pub sight: Sight,
    pub token: Token,
}

/// What stands next, after this spot.
// A part of a value that is read as any other token takes some 150 instructions more.
pub(crate) fn next_seen<'a>(
    bytes: &'a [u8],
    lexer: &mut Lexer<'a>,
    spot: Spot,
) -> Result<Option<Seen>, TextFault>
    requires bytes { lexer.old.text ≡ bytes.now }
    ensures text { lexer.new.text ≡ lexer.old.text }
    ensures found { IfOk result (λ found. MatchOption found
        ((rest_of lexer.old ≡ EndAt (length lexer.old.text) ∷ []) × (lexer.new.place ≡ length lexer.old.text))
        (λ seen. IsSeenNext lexer.old seen.sight seen.token lexer.new)) }
    ensures stray { IfErr result (IsStray lexer.old) }
{
    if let Some(seen) = near_with(bytes, lexer, spot) {
        return Ok(Some(seen));
    }
    if let Some(seen) = small_part(lexer, spot) {
        return Ok(Some(seen));
    }
    next_token_seen(lexer)
}

/// The name that stands next, with one blank before it at most, in which nothing else is seen. The first
/// such name of a text is remembered, and then looked for before others.
// Most texts name one rule again and again, and to find where a name ends takes 80 instructions more.
pub(crate) fn next_name<'a>(
    bytes: &'a [u8],
    lexer: &mut Lexer<'a>,
    rules: &RulesByName<'_>,
    known: &mut Option<NameLead>,
) -> Option<Token>
    requires text { lexer.old.text ≡ bytes.now }
    requires known { IfSome known.old (IsKnown (map rule_of rules.now)) }
    ensures known { IfSome known.new (IsKnown (map rule_of rules.now)) }
    ensures seen { IfSome result (λ token. IsSeenNext lexer.old Sight.Name token lexer.new) }
    ensures none { IfNone result (lexer.new ≡ lexer.old) }
{
    if let Some(lead) = *known {
        return match word_of_lead(bytes, lexer, lead.bytes, lead.size) {
            Some(token) => Some(token),
            None => near_name(lexer),
        };
    }
    let token = near_name(lexer)?;
    *known = lead_of_name(bytes, token, rules);
    Some(token)
}

/// The name that stands next, with one blank before it at most, in which nothing else is seen. `None`
/// says nothing of what stands next, and the lexer is then as before.
fn near_name(lexer: &mut Lexer<'_>) -> Option<Token>
    ensures seen { IfSome result (λ token. IsSeenNext lexer.old Sight.Name token lexer.new) }
    ensures lexeme { IfSome result (λ token. IsLexeme Name (bytes_of lexer.old.text token)) }
    ensures sees { IfSome result (λ token. reading.sight_of_word (bytes_of lexer.old.text token) ≡ Sight.Name) }
    ensures none { IfNone result (lexer.new ≡ lexer.old) }
{
    let mut ahead = lexer.fork();
    let token = ahead.small_name()?;
    if !matches!(sight_of_word(ahead.text(&token)), Sight::Name) {
        return None;
    }
    *lexer = ahead;
    Some(token)
}

/// The word `apply` after a line's end, and how many bytes of it are compared.
const APPLY: ([u8; 16], usize) = (*b"\napply \0\0\0\0\0\0\0\0\0", 7);

/// The word `with` within a line.
const WITH: ([u8; 16], usize) = (*b" with \0\0\0\0\0\0\0\0\0\0", 6);

/// The word `apply` that stands next, where a line begins with it. `None` says nothing of what stands
/// next, and the lexer is then as before.
#[inline(always)]
pub(crate) fn near_apply<'a>(bytes: &'a [u8], lexer: &mut Lexer<'a>) -> Option<Token>
    requires bytes { lexer.old.text ≡ bytes.now }
    ensures seen { IfSome result (λ token. IsSeenNext lexer.old (Sight.Begins Head.Apply) token lexer.new) }
    ensures none { IfNone result (lexer.new ≡ lexer.old) }
{
    word_of_lead(bytes, lexer, u8x16::from_array(APPLY.0), APPLY.1)
}

/// The word `with`, where it can stand after the spot. `None` says nothing of what stands next, and the
/// lexer is then as before.
fn near_with<'a>(bytes: &'a [u8], lexer: &mut Lexer<'a>, spot: Spot) -> Option<Seen>
    requires bytes { lexer.old.text ≡ bytes.now }
    ensures seen { IfSome result (λ seen. IsSeenNext lexer.old seen.sight seen.token lexer.new) }
    ensures none { IfNone result (lexer.new ≡ lexer.old) }
{
    if !matches!(spot, Spot::Rule | Spot::Named) {
        return None;
    }
    let token = word_of_lead(bytes, lexer, u8x16::from_array(WITH.0), WITH.1)?;
    Some(Seen {
        sight: Sight::With,
        token,
    })
}

/// What stands next, whatever it is.
fn next_token_seen(lexer: &mut Lexer<'_>) -> Result<Option<Seen>, TextFault>
    ensures text { lexer.new.text ≡ lexer.old.text }
    ensures found { IfOk result (λ found. MatchOption found
        ((rest_of lexer.old ≡ EndAt (length lexer.old.text) ∷ []) × (lexer.new.place ≡ length lexer.old.text))
        (λ seen. IsSeenNext lexer.old seen.sight seen.token lexer.new)) }
    ensures stray { IfErr result (IsStray lexer.old) }
{
    let Some(token) = next_token(lexer)? else {
        return Ok(None);
    };
    let sight = sight_of(lexer, &token);
    Ok(Some(Seen { sight, token }))
}

fn next_token(lexer: &mut Lexer<'_>) -> Result<Option<Token>, TextFault>
    ensures text { lexer.new.text ≡ lexer.old.text }
    ensures found { IfOk result (λ found. MatchOption found
        ((rest_of lexer.old ≡ EndAt (length lexer.old.text) ∷ []) × (lexer.new.place ≡ length lexer.old.text))
        (λ token. IsNext lexer.old token lexer.new)) }
    ensures stray { IfErr result (IsStray lexer.old) }
{
    match lexer.next() {
        Ok(found) => Ok(found),
        Err(fault) => Err(TextFault::Text { place: fault.place }),
    }
}

/// A small number or a sign of a value, where one can stand after the spot and stands next with one
/// blank before it at most. `None` says nothing of what stands next, and the lexer is then as before.
fn small_part(lexer: &mut Lexer<'_>, spot: Spot) -> Option<Seen>
    ensures seen { IfSome result (λ seen. IsSeenNext lexer.old seen.sight seen.token lexer.new) }
    ensures none { IfNone result (lexer.new ≡ lexer.old) }
{
    let before_values = matches!(
        spot,
        Spot::Start
            | Spot::Bare
            | Spot::Apply
            | Spot::Rule
            | Spot::Each
            | Spot::Orbit
            | Spot::Over
            | Spot::Named
    );
    if before_values {
        return None;
    }
    match small_number(lexer) {
        Some(seen) => Some(seen),
        None => small_sign(lexer, spot),
    }
}

fn small_number(lexer: &mut Lexer<'_>) -> Option<Seen>
    ensures seen { IfSome result (λ seen. IsSeenNext lexer.old seen.sight seen.token lexer.new) }
    ensures none { IfNone result (lexer.new ≡ lexer.old) }
{
    let number = lexer.small_number()?;
    let token = Token {
        kind: TokenKind::Number,
        start: number.place,
        end: lexer.place(),
    };
    let sight = Sight::Number(u64::from(number.value));
    Some(Seen { sight, token })
}

/// A sign that can stand after the spot.
fn small_sign(lexer: &mut Lexer<'_>, spot: Spot) -> Option<Seen>
    ensures seen { IfSome result (λ seen. IsSeenNext lexer.old seen.sight seen.token lexer.new) }
    ensures none { IfNone result (lexer.new ≡ lexer.old) }
{
    match spot {
        Spot::With | Spot::Value => bracket_or_minus(lexer, b'(', Sight::Open),
        Spot::Second | Spot::Third => bracket_or_minus(lexer, b')', Sight::Close),
        _ => sign(lexer, b'-', Sight::Minus),
    }
}

fn bracket_or_minus(lexer: &mut Lexer<'_>, bracket: u8, sight: Sight) -> Option<Seen>
    requires sign { IsTrue (tokens.is_sign bracket) }
    requires alone { (c : ℕ) → tokens.is_two_byte_sign bracket c ≡ false }
    requires sight { sight ≡ reading.sight_of_sign (bracket ∷ []) }
    ensures seen { IfSome result (λ seen. IsSeenNext lexer.old seen.sight seen.token lexer.new) }
    ensures none { IfNone result (lexer.new ≡ lexer.old) }
{
    match sign(lexer, bracket, sight) {
        Some(seen) => Some(seen),
        None => sign(lexer, b'-', Sight::Minus),
    }
}

/// This sign, in which this is seen, where it stands next.
fn sign(lexer: &mut Lexer<'_>, byte: u8, sight: Sight) -> Option<Seen>
    requires sign { IsTrue (tokens.is_sign byte) }
    requires alone { (c : ℕ) → tokens.is_two_byte_sign byte c ≡ false }
    requires sight { sight ≡ reading.sight_of_sign (byte ∷ []) }
    ensures seen { IfSome result (λ seen. IsSeenNext lexer.old seen.sight seen.token lexer.new) }
    ensures none { IfNone result (lexer.new ≡ lexer.old) }
{
    if !lexer.small_sign(byte) {
        return None;
    }
    let end = lexer.place();
    let token = Token {
        kind: TokenKind::Sign,
        start: end - 1,
        end,
    };
    Some(Seen { sight, token })
}
