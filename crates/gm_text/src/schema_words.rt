//! The words and signs that stand in a schema, and what a token is.
ghost use Rattle.std.specs.Prelude.{◌≡◌, ◌↔◌, ℕ, ◌≤◌, ◌<◌, List, length, position, bytes_eq, IsTrue, IfSome, IfOk, IfErr, OnErr};
ghost use Rattle.std.specs.List.{list_any};
ghost use Rattle.std.specs.Option.{option_map};
ghost use Rattle.gm_model.specs.declared.schema.Embed.{Embed};
ghost use Rattle.gm_model.specs.declared.word.Mask.{Mask};
ghost use Rattle.gm_model.specs.Names.{is_among, reserved};
ghost use Rattle.gm_model.specs.Symbols.{Word, Sign};
ghost use Rattle.gm_text.specs.SchemaText.{with_label};
ghost use Rattle.gm_text.specs.inner.SchemaReading as reading;
ghost use Rattle.gm_text.specs.inner.SchemaAnswers.{IsToken, IsNext, LacksToken, symbol_at};
ghost use Rattle.gm_model.specs.declared.limit.TheConstants.{MOST_DIMENSION};

use crate::lexer::Lexer;
use crate::schema_fault::SchemaFault;
use gm_model::{Embed, Kind, Mask, Token, TokenKind};

/// The words of the formats that no name can be.
const RESERVED: [&[u8]; 19] = [
    b"rule", b"left", b"right", b"hook", b"with", b"pre", b"and", b"or", b"not", b"if", b"then",
    b"else", b"true", b"false", b"sum", b"count", b"min", b"max", b"same",
];

/// The most bytes of a reserved word.
const LONGEST: usize = 5;

/// The next token, which the lexer goes past. After a refusal the lexer is as before.
pub fn next_token(lexer: &mut Lexer<'_>) -> Result<Token, SchemaFault>
    ensures next { IfOk result (λ token. IsNext lexer.old token lexer.new) }
    ensures none { IfErr result (LacksToken lexer.old) }
    ensures refused { OnErr result (lexer.new ≡ lexer.old) }
{
    match lexer.token() {
        Ok(token) => Ok(token),
        Err(place) => Err(SchemaFault::Text { place }),
    }
}

pub(crate) fn reads_word(lexer: &Lexer<'_>, token: &Token, word: &[u8]) -> bool
    requires { IsToken lexer.now.text token.now }
    ensures { IsTrue result ↔ (symbol_at lexer.now.text token.now ≡ Word word.now) }
{
    token.kind == TokenKind::Name && lexer.text(token) == word
}

pub(crate) fn reads_sign(lexer: &Lexer<'_>, token: &Token, sign: &[u8]) -> bool
    requires { IsToken lexer.now.text token.now }
    ensures { IsTrue result ↔ (symbol_at lexer.now.text token.now ≡ Sign sign.now) }
{
    token.kind == TokenKind::Sign && lexer.text(token) == sign
}

/// Whether the word is one of the formats, which no name can be.
pub fn is_reserved(word: &[u8]) -> bool
    ensures { result ≡ is_among reserved word.now }
{
    word.len() <= LONGEST && is_among(&RESERVED, word)
}

fn is_among(words: &[&[u8]], word: &[u8]) -> bool
    ensures { result ≡ list_any (λ other. bytes_eq word.now other.now) words.now }
{
    words.iter().any(|other| word == *other)
}

/// The number of the embedding with the name.
pub fn embed_index(embeds: &[Embed], name: &[u8]) -> Option<usize>
    ensures value { result ≡ position (λ embed. bytes_eq name.now embed.name) embeds.now }
    ensures bound { IfSome result (λ e. e < length embeds.now) }
{
    embeds.iter().position(|embed| name == embed.name.bytes())
}

/// Whether one of the embeddings has the name.
pub(crate) fn is_declared(embeds: &[Embed], name: &[u8]) -> bool
    ensures { result ≡ list_any (λ embed. bytes_eq name.now embed.name) embeds.now }
{
    embeds.iter().any(|embed| name == embed.name.bytes())
}

/// The kind of an embedding that the token names.
pub(crate) fn kind_named(lexer: &Lexer<'_>, token: &Token) -> Option<Kind>
    requires { IsToken lexer.now.text token.now }
    ensures { (n : ℕ) (declared : List Embed) (name : List ℕ) (mask : Mask) →
        reading.move (reading.AtKind n declared name mask) (symbol_at lexer.now.text token.now) ≡ option_map (reading.with_kind n declared name mask) result }
{
    if reads_word(lexer, token, b"int") {
        Some(Kind::Int)
    } else if reads_word(lexer, token, b"vec2") {
        Some(Kind::Vec2)
    } else if reads_word(lexer, token, b"vec3") {
        Some(Kind::Vec3)
    } else if reads_word(lexer, token, b"rgb") {
        Some(Kind::Rgb)
    } else {
        None
    }
}

/// The labels of the mask, and this one.
pub fn with_label(mask: Mask, label: u8) -> Mask
    requires { label ≤ MOST_DIMENSION }
    ensures { result ≡ with_label mask label }
{
    Mask {
        bits: mask.bits | (1 << label),
    }
}
