//! Words between two blanks, compared with the bytes of a text at once.
ghost use Rattle.std.specs.Prelude.{◌≡◌, ◌+◌, ◌-◌, ◌<◌, ◌≤◌, length, map, take, drop, IsTrue, IfSome, IfNone};
ghost use Rattle.gm_model.specs.Rules.{rule_of};
ghost use Rattle.gm_model.specs.Tokens.{bytes_of, IsLexeme};
ghost use Rattle.gm_model.specs.declared.token.TokenKind.TheVariants.{Name};
ghost use Rattle.gm_script.specs.inner.Reading.{sight_of_word, IsInText, IsLead, IsNameLead, IsSeenNext};
ghost use Rattle.gm_script.specs.ScriptText.{index_of};
ghost use Rattle.gm_script.specs.inner.SoFar.{IsKnown};
ghost use Rattle.gm_script.specs.declared.sight.Sight.{Sight};

use crate::rules::RulesByName;
use gm_text::{Lexer, Token, TokenKind};
use std::simd::prelude::*;

/// How many bytes are compared at once.
const LANES: usize = 16;

/// Whether the bytes from a place on are those of the lead, as many as it has.
#[inline(always)]
fn stands_at(bytes: &[u8], place: usize, lead: u8x16, size: usize) -> bool
    requires inside { place + 16 ≤ length bytes.now }
    requires few { size ≤ 16 }
    ensures { IsTrue result → take size (drop place bytes.now) ≡ take size lead }
{
    let others = u8x16::from_slice(&bytes[place..])
        .simd_ne(lead)
        .to_bitmask();
    others == 0 || others.trailing_zeros() as usize >= size
}

/// The word between two blanks that begins with the lead's, where these bytes stand next. `None` says
/// nothing of what stands next, and the lexer is then as before.
// Sixteen bytes are compared in some ten instructions, where a slice takes thirty.
#[inline(always)]
pub(crate) fn word_of_lead<'a>(
    bytes: &'a [u8],
    lexer: &mut Lexer<'a>,
    lead: u8x16,
    size: usize,
) -> Option<Token>
    requires bytes { lexer.old.text ≡ bytes.now }
    requires some { 1 ≤ size }
    requires few { size ≤ 16 }
    ensures seen { (sight : Sight) → IsLead (take size lead) sight → IfSome result (λ token. IsSeenNext lexer.old sight token lexer.new) }
    ensures none { IfNone result (lexer.new ≡ lexer.old) }
{
    let place = lexer.place();
    if bytes.len() - place < LANES || !stands_at(bytes, place, lead, size) {
        return None;
    }
    let end = place + size - 1;
    *lexer = Lexer::at(bytes, end);
    Some(Token {
        kind: TokenKind::Name,
        start: place + 1,
        end,
    })
}

/// A rule's name between two blanks, as it is compared, and the index of the rule.
#[derive(Clone, Copy)]
pub(crate) struct NameLead {
    pub bytes: u8x16,
    pub size: usize,
    pub index: u16,
}

/// The index of the rule that the token names, if there is one.
// Most names are the one that is known, and are found so in some 20 instructions instead of 60.
#[inline(always)]
pub(crate) fn index_of_name(
    bytes: &[u8],
    token: Token,
    rules: &RulesByName<'_>,
    known: &Option<NameLead>,
) -> Option<u16>
    requires inside { IsInText bytes.now token }
    requires known { IfSome known.now (IsKnown (map rule_of rules.now)) }
    ensures index { result ≡ index_of (map rule_of rules.now) (bytes_of bytes.now token) }
    ensures within { IfSome result (λ k. k < length rules.now) }
{
    if let Some(lead) = *known {
        if is_name_of(bytes, token, lead) {
            return Some(lead.index);
        }
    }
    rules.index_of(&bytes[token.start..token.end])
}

/// Whether the token is found to be the lead's name.
#[inline(always)]
fn is_name_of(bytes: &[u8], token: Token, lead: NameLead) -> bool
    requires inside { IsInText bytes.now token }
    requires lead { IsNameLead lead }
    ensures { IsTrue result → bytes_of bytes.now token ≡ take (lead.size - 2) (drop 1 (take lead.size lead.bytes)) }
{
    let Token { start, end, .. } = token;
    if start == 0 || bytes.len() - start < LANES || end - start + 2 != lead.size {
        return false;
    }
    stands_at(bytes, start - 1, lead.bytes, lead.size)
}

/// The rule's name at the token between its blanks, where these are spaces and it is short.
// By itself, since it is called once for a text.
#[inline(never)]
pub(crate) fn lead_of_name(bytes: &[u8], token: Token, rules: &RulesByName<'_>) -> Option<NameLead>
    requires inside { IsInText bytes.now token }
    requires lexeme { IsLexeme Name (bytes_of bytes.now token) }
    requires sees { sight_of_word (bytes_of bytes.now token) ≡ Sight.Name }
    ensures { IfSome result (IsKnown (map rule_of rules.now)) }
{
    let Token { start, end, .. } = token;
    if start == 0 || end - start > LANES - 2 || bytes.len() - start < LANES {
        return None;
    }
    if bytes[start - 1] != b' ' || bytes[end] != b' ' {
        return None;
    }
    Some(NameLead {
        bytes: u8x16::from_slice(&bytes[start - 1..]),
        size: end - start + 2,
        index: rules.index_of(&bytes[start..end])?,
    })
}
