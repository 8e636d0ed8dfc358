//! A schema read from a lexer, up to where no further embedding begins.
ghost use Rattle.std.specs.Prelude.{◌≡◌, ◌<◌, ◌≤◌, ℕ, List, Bool, true, false, [], length, IfOk, IfErr, IfSome, OnErr, MatchOption};
ghost use Rattle.gm_model.specs.declared.schema.Embed.{Embed};
ghost use Rattle.gm_model.specs.declared.word.Mask.{Mask};
ghost use Rattle.gm_model.specs.declared.token.TokenKind.TheVariants.{Name, Number};
ghost use Rattle.gm_model.specs.Maps.{IsSchema};
ghost use Rattle.gm_text.specs.inner.Lexing.{IsBehindToken};
ghost use Rattle.gm_text.specs.SchemaText.{no_labels};
ghost use Rattle.gm_text.specs.inner.SchemaReading as states;
ghost use Rattle.gm_text.specs.inner.SchemaAnswers.{IsSchemaRead, IsSchemaSkipped, IsSchemaFault, IsSkipFault, Reads, Stops, StopsOrLost, ReadsName, StopsAtName, ReadsLabel, StopsAtLabel, IsNoEmbedNext, IsEmbedNext, EndsEmbeds, SkipsEmbeds, SkipsSchema, ReadsDeclaration, StopsAtDeclaration, ReadsEmbed, StopsAtEmbed, marks_left};
ghost use Rattle.gm_model.specs.declared.limit.TheConstants.{MOST_DIMENSION, MOST_EMBEDS};

use crate::lexer::Lexer;
use crate::schema_fault::SchemaFault;
use crate::schema_words::{
    is_declared, is_reserved, kind_named, next_token, reads_sign, reads_word, with_label,
};
use gm_model::{Dim, Embed, Items, Kind, LimitKind, MOST_EMBEDS, Mask, Name, Schema, TokenKind};
use std::alloc::Global;

fn read_dim_word(lexer: &mut Lexer<'_>) -> Result<(), SchemaFault>
    ensures reads { IfOk result (λ _. (strict : Bool) → Reads strict states.AtDim lexer.old lexer.new states.AtTop) }
    ensures stops { IfErr result (λ fault. (strict : Bool) → Stops strict states.AtDim lexer.old fault) }
{
    let token = next_token(lexer)?;
    if !reads_word(lexer, &token, b"dim") {
        return Err(SchemaFault::Text { place: token.start });
    }
    Ok(())
}

fn read_top(lexer: &mut Lexer<'_>) -> Result<Dim, SchemaFault>
    ensures reads { IfOk result (λ dim. (strict : Bool) → Reads strict states.AtTop lexer.old lexer.new (states.AtEmbeds dim [])) }
    ensures stops { IfErr result (λ fault. (strict : Bool) → Stops strict states.AtTop lexer.old fault) }
{
    let token = next_token(lexer)?;
    let place = token.start;
    if token.kind != TokenKind::Number {
        return Err(SchemaFault::Text { place });
    }
    let what = LimitKind::Dimension;
    let value = lexer.value(&token);
    if value > 7 {
        return Err(SchemaFault::Limit { what, place });
    }
    match Dim::new(value as u8) {
        Some(dim) => Ok(dim),
        None => Err(SchemaFault::Limit { what, place }),
    }
}

fn read_dim(lexer: &mut Lexer<'_>) -> Result<Dim, SchemaFault>
    ensures reads { IfOk result (λ dim. (strict : Bool) → Reads strict states.AtDim lexer.old lexer.new (states.AtEmbeds dim [])) }
    ensures stops { IfErr result (λ fault. (strict : Bool) → Stops strict states.AtDim lexer.old fault) }
{
    read_dim_word(lexer)?;
    read_top(lexer)
}

/// The name of an embedding after those that are known, where a second declaration is judged.
fn read_name(lexer: &mut Lexer<'_>, known: &[Embed], strict: bool) -> Result<Name, SchemaFault>
    ensures reads { IfOk result (ReadsName strict known.now lexer.old lexer.new) }
    ensures stops { IfErr result (StopsAtName strict known.now lexer.old) }
{
    let token = next_token(lexer)?;
    let place = token.start;
    if token.kind != TokenKind::Name {
        return Err(SchemaFault::Text { place });
    }
    let word = lexer.text(&token);
    if is_reserved(word) {
        return Err(SchemaFault::Text { place });
    }
    let Some(name) = Name::new(word) else {
        let what = LimitKind::Name;
        return Err(SchemaFault::Limit { what, place });
    };
    if strict && is_declared(known, word) {
        return Err(SchemaFault::Twice { place });
    }
    Ok(name)
}

fn open_orbit(lexer: &mut Lexer<'_>) -> Result<(), SchemaFault>
    ensures reads { IfOk result (λ _. (strict : Bool) (n : ℕ) (declared : List Embed) (name : List ℕ) → Reads strict (states.AtOrbit n declared name) lexer.old lexer.new (states.AtLabel n declared name no_labels)) }
    ensures stops { IfErr result (λ fault. (strict : Bool) (n : ℕ) (declared : List Embed) (name : List ℕ) → Stops strict (states.AtOrbit n declared name) lexer.old fault) }
{
    let token = next_token(lexer)?;
    if !reads_sign(lexer, &token, b"<") {
        return Err(SchemaFault::Text { place: token.start });
    }
    Ok(())
}

/// The next label of an orbit after those of the mask, or `None` at the orbit's end.
fn read_label(
    lexer: &mut Lexer<'_>,
    dim: Dim,
    mask: Mask,
    strict: bool,
) -> Result<Option<u8>, SchemaFault>
    ensures small { IfOk result (λ found. IfSome found (λ label. label ≤ MOST_DIMENSION)) }
    ensures reads { IfOk result (ReadsLabel strict dim mask lexer.old lexer.new) }
    ensures stops { IfErr result (StopsAtLabel strict dim mask lexer.old) }
    ensures text { IfOk result (λ found. lexer.new.text ≡ lexer.old.text) }
    ensures onward { IfOk result (λ found. lexer.old.place < lexer.new.place) }
    ensures within { IfOk result (λ found. lexer.new.place ≤ length lexer.new.text) }
{
    let token = next_token(lexer)?;
    let place = token.start;
    if reads_sign(lexer, &token, b">") {
        return Ok(None);
    }
    if token.kind != TokenKind::Number {
        return Err(SchemaFault::Text { place });
    }
    let value = lexer.value(&token);
    if value > u64::from(dim.top()) {
        let what = LimitKind::Label;
        return Err(SchemaFault::Limit { what, place });
    }
    let label = value as u8;
    if strict && mask.has(label) {
        return Err(SchemaFault::Twice { place });
    }
    Ok(Some(label))
}

fn read_orbit(lexer: &mut Lexer<'_>, dim: Dim, strict: bool) -> Result<Mask, SchemaFault>
    ensures reads { IfOk result (λ mask. (declared : List Embed) (name : List ℕ) → Reads strict (states.AtOrbit dim declared name) lexer.old lexer.new (states.AtKind dim declared name mask)) }
    ensures stops { IfErr result (λ fault. (declared : List Embed) (name : List ℕ) → Stops strict (states.AtOrbit dim declared name) lexer.old fault) }
{
    open_orbit(lexer)?;
    let mut mask = Mask { bits: 0 };
    while let Some(label) = read_label(lexer, dim, mask, strict)? {
        mask = with_label(mask, label);
    }
    Ok(mask)
}

fn read_kind(lexer: &mut Lexer<'_>) -> Result<Kind, SchemaFault>
    ensures reads { IfOk result (λ kind. (strict : Bool) (n : ℕ) (declared : List Embed) (name : List ℕ) (mask : Mask) → Reads strict (states.AtKind n declared name mask) lexer.old lexer.new (states.with_kind n declared name mask kind)) }
    ensures stops { IfErr result (λ fault. (strict : Bool) (n : ℕ) (declared : List Embed) (name : List ℕ) (mask : Mask) → Stops strict (states.AtKind n declared name mask) lexer.old fault) }
    ensures within { IfOk result (λ kind. lexer.new.place ≤ length lexer.new.text) }
{
    let token = next_token(lexer)?;
    match kind_named(lexer, &token) {
        Some(kind) => Ok(kind),
        None => Err(SchemaFault::Text { place: token.start }),
    }
}

/// The place of the word `embed`, where it stands next, which the lexer then goes past.
fn embed_word(lexer: &mut Lexer<'_>) -> Option<usize>
    ensures { MatchOption result (IsNoEmbedNext lexer.old lexer.new) (IsEmbedNext lexer.old lexer.new) }
{
    let mut ahead = lexer.fork();
    match next_token(&mut ahead) {
        Ok(token) if reads_word(&ahead, &token, b"embed") => {
            *lexer = ahead;
            Some(token.start)
        }
        _ => None,
    }
}

/// An embedding after its word.
fn read_embed(
    lexer: &mut Lexer<'_>,
    dim: Dim,
    known: &[Embed],
    strict: bool,
) -> Result<Embed, SchemaFault>
    ensures reads { IfOk result (ReadsDeclaration strict dim known.now lexer.old lexer.new) }
    ensures stops { IfErr result (StopsAtDeclaration strict dim known.now lexer.old) }
    ensures within { IfOk result (λ embed. lexer.new.place ≤ length lexer.new.text) }
{
    let name = read_name(lexer, known, strict)?;
    let mask = read_orbit(lexer, dim, strict)?;
    let kind = read_kind(lexer)?;
    Ok(Embed { name, mask, kind })
}

/// The next embedding after `count` of them, or `None` where none begins. Where a second declaration
/// is judged, those before it are known.
fn next_embed(
    lexer: &mut Lexer<'_>,
    dim: Dim,
    count: usize,
    known: &[Embed],
    strict: bool,
) -> Result<Option<Embed>, SchemaFault>
    ensures reads { IfOk result (ReadsEmbed strict dim count known.now lexer.old lexer.new) }
    ensures stops { IfErr result (StopsAtEmbed strict dim count known.now lexer.old) }
    ensures few { IfOk result (λ found. IfSome found (λ embed. count < MOST_EMBEDS)) }
    ensures text { IfOk result (λ found. lexer.new.text ≡ lexer.old.text) }
    ensures onward { IfOk result (λ found. IfSome found (λ embed. lexer.old.place < lexer.new.place)) }
    ensures within { IfOk result (λ found. IfSome found (λ embed. lexer.new.place ≤ length lexer.new.text)) }
{
    let Some(place) = embed_word(lexer) else {
        return Ok(None);
    };
    if count >= MOST_EMBEDS {
        let what = LimitKind::Embeddings;
        return Err(SchemaFault::Limit { what, place });
    }
    let embed = read_embed(lexer, dim, known, strict)?;
    Ok(Some(embed))
}

/// The embeddings up to where no further one begins.
fn read_embeds(alloc: Global, lexer: &mut Lexer<'_>, dim: Dim) -> Result<Vec<Embed>, SchemaFault>
    ensures reads { IfOk result (λ embeds. Reads true (states.AtEmbeds dim []) lexer.old lexer.new (states.AtEmbeds dim embeds.items)) }
    ensures next { IfOk result (λ embeds. EndsEmbeds lexer.new) }
    ensures stops { IfErr result (StopsOrLost true (states.AtEmbeds dim []) lexer.old) }
{
    let mut embeds = Vec::new(alloc);
    while let Some(embed) = next_embed(lexer, dim, embeds.len(), &embeds, true)? {
        embeds.push(embed)?;
    }
    Ok(embeds)
}

/// Goes past the embeddings, whatever is declared again in them.
fn skip_embeds(lexer: &mut Lexer<'_>, dim: Dim) -> Result<(), SchemaFault>
    ensures reads { IfOk result (λ _. SkipsEmbeds dim lexer.old lexer.new) }
    ensures next { IfOk result (λ _. EndsEmbeds lexer.new) }
    ensures stops { IfErr result (Stops false (states.AtEmbeds dim []) lexer.old) }
{
    let mut count = 0;
    while let Some(_) = next_embed(lexer, dim, count, &[], false)? {
        count += 1;
    }
    Ok(())
}

/// The schema that stands next, which the lexer goes past, up to where no further embedding begins:
/// directly after its last token. What stands after it isn't judged. After a refusal, whose fault is the first from left to right, the
/// lexer is as before.
pub fn read_schema(alloc: Global, lexer: &mut Lexer<'_>) -> Result<Schema, SchemaFault>
    ensures schema { IfOk result (IsSchemaRead lexer.old lexer.new) }
    ensures behind { IfOk result (λ _. IsBehindToken lexer.old lexer.new) }
    ensures sound { IfOk result (λ schema. IsSchema schema) }
    ensures fault { IfErr result (IsSchemaFault (marks_left lexer.old)) }
    ensures runs { IfOk result (λ schema. Reads true states.AtDim lexer.old lexer.new (states.AtEmbeds schema.dim schema.embeds)) }
    ensures stops { IfErr result (StopsOrLost true states.AtDim lexer.old) }
    ensures text { lexer.new.text ≡ lexer.old.text }
    ensures refused { OnErr result (lexer.new ≡ lexer.old) }
{
    let mut ahead = lexer.fork();
    let dim = read_dim(&mut ahead)?;
    let embeds = read_embeds(alloc, &mut ahead, dim)?;
    *lexer = ahead;
    Ok(Schema {
        dim,
        embeds: Items::new(embeds),
    })
}

/// The dimension of the schema that stands next, which the lexer goes past, up to where no further
/// embedding begins. A name or a label that is declared again isn't judged, and no memory is taken.
/// After a refusal, whose fault is the first from left to right, the lexer is as before.
pub fn skip_schema(lexer: &mut Lexer<'_>) -> Result<Dim, SchemaFault>
    ensures dim { IfOk result (IsSchemaSkipped lexer.old lexer.new) }
    ensures behind { IfOk result (λ _. IsBehindToken lexer.old lexer.new) }
    ensures fault { IfErr result (IsSkipFault (marks_left lexer.old)) }
    ensures runs { IfOk result (SkipsSchema lexer.old lexer.new) }
    ensures stops { IfErr result (Stops false states.AtDim lexer.old) }
    ensures text { lexer.new.text ≡ lexer.old.text }
    ensures refused { OnErr result (lexer.new ≡ lexer.old) }
{
    let mut ahead = lexer.fork();
    let dim = read_dim(&mut ahead)?;
    skip_embeds(&mut ahead, dim)?;
    *lexer = ahead;
    Ok(dim)
}
