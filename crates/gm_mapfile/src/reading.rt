//! The text of a map, read from left to right up to its first fault.
//!
//! `read_text` knows the grammar, its limits and the schema's declarations alone. Whether the darts
//! that it lists are a map is tested afterwards.
ghost use Rattle.std.specs.Prelude.{◌≡◌, ℕ, ◌+◌, ◌*◌, ◌≤◌, List, [], ◌∷◌, length, pos, replicate, Bool, IsTrue, IfOk, IfErr, IfSome, IfNone, OnOk};
ghost use Rattle.gm_model.specs.declared.schema.Schema.{Schema};
ghost use Rattle.gm_model.specs.Tokens as tokens;
ghost use Rattle.gm_model.specs.Limits.{most_darts, most_names};
ghost use Rattle.gm_model.specs.Maps.{IsSchema, IsSound};
ghost use Rattle.gm_arena.specs.inner.ArenaAsMap.{as_map};
ghost use Rattle.gm_text.specs.inner.Nested.{Outside};
ghost use Rattle.gm_mapfile.specs.MapText.{DartName, ListedMap, MapText, version_of};
ghost use Rattle.gm_mapfile.specs.inner.Draft.{IsDraft, IsDraftOf, IsFaultIn, version_in};
ghost use Rattle.gm_mapfile.specs.inner.Words.{IsEndNext, IsMoreNext};
ghost use Rattle.gm_mapfile.specs.inner.Rows.{listed_of};
ghost use Rattle.gm_mapfile.specs.inner.Answered.{map_fault_of_laws, name_told};
ghost use Rattle.gm_mapfile.specs.inner.Faults.{IsFaultOf, IsWhyNot};
ghost use Rattle.gm_mapfile.specs.MapReading as states;
ghost use Rattle.gm_mapfile.specs.MapReading.{start, into_schema, behind_schema, AtDarts, TheNumber, Reads, Stops, Takes, Misses, among, darts_wants, dart_wants, ReadsNames, ReadsDarts, ReadsMap};
ghost use Rattle.gm_mapfile.specs.declared.version.MapVersion.{MapVersion};

use crate::building::build;
use crate::fault::{MapFault, NoMap};
use crate::values::{Guesses, read_values};
use crate::version::MapVersion;
use crate::words::{Numeral, numeral_behind, read_number, read_word};
use gm_arena::{Arena, Steps};
use gm_laws::{LawFault, MapBreach, check_map};
use gm_model::{Embed, LimitKind, MOST_DARTS, MOST_NAMES, Name, Schema, Value};
use gm_text::{Guess, Lexer, SchemaFault, read_schema};
use std::alloc::Global;
use std::sync::ledger::Ledger;

/// The darts that a text lists, in its order, before any law of a map is tested.
#[derive(Drop)]
pub(crate) struct Draft {
    /// The next name, which a text of the second version states.
    pub stated: Option<u32>,
    pub schema: Schema,
    /// For each dart its name, and then its neighbours from label 0 on.
    pub numbers: Vec<u32>,
    /// For each dart its values, by embedding.
    pub values: Vec<Value>,
}

/// What stands before the darts.
struct Head {
    stated: Option<u32>,
    schema: Schema,
    count: usize,
}

/// The lines of the darts.
struct Lines {
    numbers: Vec<u32>,
    values: Vec<Value>,
}

/// The format and its version: whether it is the second.
fn read_format(lexer: &mut Lexer<'_>) -> Result<bool, SchemaFault>
    ensures reads { IfOk result (λ second. Reads start lexer.old lexer.new (into_schema second)) }
    ensures stops { IfErr result (Stops start lexer.old) }
{
    read_word(lexer, b"gmap")?;
    let Numeral { value, place } = read_number(lexer)?;
    match value {
        1 => Ok(false),
        2 => Ok(true),
        _ => Err(SchemaFault::Text { place }),
    }
}

/// The next name, which the second version states after the schema.
fn read_next(lexer: &mut Lexer<'_>, second: bool) -> Result<Option<u32>, SchemaFault>
    ensures reads { IfOk result (λ stated. (schema : Schema) → Reads (Outside (behind_schema second schema)) lexer.old lexer.new (Outside (AtDarts (record { version = version_in stated; schema = schema })))) }
    ensures stops { IfErr result (λ fault. (schema : Schema) → Stops (Outside (behind_schema second schema)) lexer.old fault) }
    ensures most { IfOk result (λ stated. IfSome stated (λ next. next ≤ most_names)) }
{
    if !second {
        return Ok(None);
    }
    read_word(lexer, b"next")?;
    let Numeral { value, place } = read_number(lexer)?;
    if value > u64::from(MOST_NAMES) {
        let what = LimitKind::DartName;
        return Err(SchemaFault::Limit { what, place });
    }
    Ok(Some(value as u32))
}

/// How many darts there are.
fn read_count(lexer: &mut Lexer<'_>) -> Result<usize, SchemaFault>
    ensures reads { IfOk result (λ count. (head : states.Head) → Reads (Outside (AtDarts head)) lexer.old lexer.new (among head [] (darts_wants head.schema count))) }
    ensures stops { IfErr result (λ fault. (head : states.Head) → Stops (Outside (AtDarts head)) lexer.old fault) }
    ensures most { IfOk result (λ count. count ≤ most_darts) }
{
    read_word(lexer, b"darts")?;
    let Numeral { value, place } = read_number(lexer)?;
    if value > u64::from(MOST_DARTS) {
        let what = LimitKind::Darts;
        return Err(SchemaFault::Limit { what, place });
    }
    Ok(value as usize)
}

/// All that stands before the darts.
fn read_head(alloc: Global, lexer: &mut Lexer<'_>) -> Result<Head, SchemaFault>
    ensures reads { IfOk result (λ head. Reads start lexer.old lexer.new (among (record { version = version_in head.stated; schema = head.schema }) [] (darts_wants head.schema head.count))) }
    ensures stops { IfErr result (Stops start lexer.old) }
    ensures schema { IfOk result (λ head. IsSchema head.schema) }
    ensures next { IfOk result (λ head. IfSome head.stated (λ next. next ≤ most_names)) }
    ensures most { IfOk result (λ head. head.count ≤ most_darts) }
{
    let second = read_format(lexer)?;
    let schema = read_schema(alloc, lexer)?;
    let stated = read_next(lexer, second)?;
    let count = read_count(lexer)?;
    Ok(Head {
        stated,
        schema,
        count,
    })
}

fn read_name(lexer: &mut Lexer<'_>) -> Result<u32, SchemaFault>
    ensures takes { IfOk result (λ name. Takes (TheNumber DartName ∷ []) (pos name ∷ []) lexer.old lexer.new) }
    ensures misses { IfErr result (Misses (TheNumber DartName ∷ []) lexer.old) }
{
    let Numeral { value, place } = read_number(lexer)?;
    if value >= u64::from(MOST_NAMES) {
        let what = LimitKind::DartName;
        return Err(SchemaFault::Limit { what, place });
    }
    Ok(value as u32)
}

/// A name that stands next after this blank and is small, or else the lexer stays.
// Inlined, as `read_number` is.
#[inline(always)]
fn small_dart_name(lexer: &mut Lexer<'_>, blank: u8, guess: &mut Guess) -> Option<u32>
    requires { IsTrue (tokens.is_blank blank) }
    ensures takes { IfSome result (λ name. Takes (TheNumber DartName ∷ []) (pos name ∷ []) lexer.old lexer.new) }
    ensures none { IfNone result (lexer.new ≡ lexer.old) }
{
    let mut ahead = lexer.fork();
    let Numeral { value, .. } = numeral_behind(&mut ahead, Some(blank), guess)?;
    if value >= u64::from(MOST_NAMES) {
        return None;
    }
    *lexer = ahead;
    Some(value as u32)
}

/// Names that are small, up to `count`, after those before them. The answer is how many; none are
/// read where there is no room for all.
// Inlined, as `read_number` is. The lexer is copied, so that the copy stays in registers.
#[inline(always)]
fn read_small_dart_names(
    lexer: &mut Lexer<'_>,
    guess: &mut Guess,
    count: usize,
    names: &mut Vec<u32>,
) -> usize
    ensures reads { ReadsNames result lexer.old lexer.new names.old.items names.new.items }
    ensures few { result ≤ count }
{
    if names.capacity() - names.len() < count {
        return 0;
    }
    let mut ahead = lexer.fork();
    let mut done = 0;
    let mut blank = b'\n';
    while done < count {
        let Some(name) = small_dart_name(&mut ahead, blank, guess) else {
            break;
        };
        names.push_reserved(name);
        blank = b' ';
        done += 1;
    }
    *lexer = ahead;
    done
}

/// `count` names, after those before them.
// Inlined, as `read_number` is.
#[inline(always)]
fn read_names(
    lexer: &mut Lexer<'_>,
    guess: &mut Guess,
    count: usize,
    names: &mut Vec<u32>,
) -> Result<(), SchemaFault>
    ensures reads { OnOk result (ReadsNames count lexer.old lexer.new names.old.items names.new.items) }
    ensures stops { IfErr result (Misses (replicate count (TheNumber DartName)) lexer.old) }
{
    let first = read_small_dart_names(lexer, guess, count, names);
    for _ in first..count {
        names.push(read_name(lexer)?)?;
    }
    Ok(())
}

/// The lines of as many darts as the header says. Where the header names more than the text can hold,
/// no more room is taken than for what it holds: each number and each value has two bytes at least,
/// with the blank after it, but the last.
// Apart, since within all that reads a map its loops would have no register left.
#[inline(never)]
fn read_darts(
    alloc: Global,
    lexer: &mut Lexer<'_>,
    schema: &Schema,
    count: usize,
    bytes: usize,
) -> Result<Lines, SchemaFault>
    requires schema { IsSchema schema.now }
    requires few { count ≤ most_darts }
    ensures reads { IfOk result (λ lines. ReadsDarts schema.now count lexer.old lexer.new lines.numbers.items lines.values.items) }
    ensures stops { IfErr result (Misses (darts_wants schema.now count) lexer.old) }
{
    let embeds = schema.embeds.as_slice();
    let width = schema.dim.top() as usize + 2;
    let room = count.min(bytes / (2 * width) + 1);
    let mut numbers = Vec::with_capacity(alloc, room * width)?;
    let mut values = Vec::with_capacity(alloc, room * embeds.len())?;
    // The copy stays in registers.
    let mut ahead = lexer.fork();
    // Names and components have guesses of their own, since a line's names have more digits.
    let mut guess = Guess::new();
    let mut guesses = Guesses {
        x: guess,
        y: guess,
        z: guess,
    };
    for _ in 0..count {
        read_names(&mut ahead, &mut guess, width, &mut numbers)?;
        read_values(&mut ahead, &mut guesses, embeds, &mut values)?;
    }
    *lexer = ahead;
    Ok(Lines { numbers, values })
}

/// Nothing but the end.
fn read_end(lexer: &mut Lexer<'_>) -> Result<(), SchemaFault>
    ensures ends { OnOk result (IsEndNext lexer.old) }
    ensures more { IfErr result (IsMoreNext lexer.old) }
{
    match lexer.next() {
        Ok(None) => Ok(()),
        Ok(Some(token)) => Err(SchemaFault::Text { place: token.start }),
        Err(fault) => Err(SchemaFault::Text { place: fault.place }),
    }
}

fn read_all(alloc: Global, bytes: &[u8]) -> Result<Draft, SchemaFault>
    ensures reads { IfOk result (λ draft. ReadsMap (record { text = bytes.now; place = 0 }) draft.stated draft.schema draft.numbers.items draft.values.items) }
    ensures stops { IfErr result (Stops start (record { text = bytes.now; place = 0 })) }
    ensures schema { IfOk result (λ draft. IsSchema draft.schema) }
    ensures next { IfOk result (λ draft. IfSome draft.stated (λ next. next ≤ most_names)) }
{
    let mut lexer = Lexer::new(bytes);
    let Head {
        stated,
        schema,
        count,
    } = read_head(alloc, &mut lexer)?;
    let Lines { numbers, values } = read_darts(alloc, &mut lexer, &schema, count, bytes.len())?;
    read_end(&mut lexer)?;
    Ok(Draft {
        stated,
        schema,
        numbers,
        values,
    })
}

/// The darts that the text lists, or its first fault from left to right.
pub(crate) fn read_text(alloc: Global, bytes: &[u8]) -> Result<Draft, SchemaFault>
    ensures draft { IfOk result (λ draft. IsDraft bytes.now (version_in draft.stated) draft.schema draft.numbers.items draft.values.items) }
    ensures schema { IfOk result (λ draft. IsSchema draft.schema) }
    ensures next { IfOk result (λ draft. IfSome draft.stated (λ next. next ≤ most_names)) }
    ensures fault { IfErr result (IsFaultIn bytes.now) }
{
    read_all(alloc, bytes)
}

/// The second version states the next name.
fn version_told(stated: Option<u32>) -> MapVersion
    ensures { result ≡ version_of (version_in stated) }
{
    match stated {
        None => MapVersion::One,
        Some(_) => MapVersion::Two,
    }
}

/// A map that was read, and the version of its text.
#[derive(Drop)]
pub struct MapRead {
    pub arena: Arena,
    pub version: MapVersion,
}

/// The name of the embedding whose values differ, where that is the fault.
fn name_broken(fault: LawFault, embeds: &[Embed]) -> Option<Name>
    ensures { result ≡ name_told embeds.now fault }
{
    match fault {
        LawFault::Breach(MapBreach::Embedding { embed, .. }) => {
            Some(embeds.get(usize::from(embed))?.name)
        }
        _ => None,
    }
}

/// Why a text gives no map, where its darts break a law.
fn why_broken(fault: LawFault, embeds: &[Embed]) -> NoMap
    ensures fault { result.fault ≡ map_fault_of_laws fault }
    ensures embed { result.embed ≡ name_told embeds.now fault }
{
    NoMap {
        fault: fault.into(),
        embed: name_broken(fault, embeds),
    }
}

/// The map of the darts that a text lists, if they are one.
fn map_of<L: Ledger>(alloc: Global, draft: Draft, steps: &mut Steps<L>) -> Result<MapRead, NoMap>
    requires draft { (text : List ℕ) × IsDraftOf text draft }
    requires schema { IsSchema draft.schema }
    requires next { IfSome draft.stated (λ next. next ≤ most_names) }
    ensures map { IfOk result (λ read. (text : List ℕ) → IsDraftOf text draft → MapText text read.version (listed_of read.arena)) }
    ensures sound { IfOk result (λ read. IsSound (as_map read.arena)) }
    ensures fault { IfErr result (λ no_map. (text : List ℕ) → IsDraftOf text draft → IsWhyNot text no_map) }
    ensures most { (text : List ℕ) (version : MapVersion) (map : ListedMap) → IsDraftOf text draft → MapText text version map → steps.new ≤ steps.old + 32 * ((map.schema.dim + 1) * (map.schema.dim + 1)) * (length map.darts + 1) }
    ensures least { IfOk result (λ read. steps.old + read.arena.count ≤ steps.new) }
{
    let version = version_told(draft.stated);
    let arena = build(alloc, draft, steps)?;
    prove!(arena.next() <= MOST_NAMES);
    if let Err(fault) = check_map(alloc, &arena, steps) {
        let no_map = why_broken(fault, arena.schema().embeds.as_slice());
        drop(arena);
        return Err(no_map);
    }
    Ok(MapRead { arena, version })
}

/// The map that the text stands for, with one step or more for each dart. It is a generalised map,
/// and each embedding has one value on each of its orbits. A fault is the first of the text: of its
/// grammar, limits and declarations by place, then of its darts' names, and then of the laws of a
/// map.
pub fn read_map<L: Ledger>(
    alloc: Global,
    bytes: &[u8],
    steps: &mut Steps<L>,
) -> Result<MapRead, MapFault>
    ensures map { IfOk result (λ read. MapText bytes.now read.version (listed_of read.arena)) }
    ensures sound { IfOk result (λ read. IsSound (as_map read.arena)) }
    ensures fault { IfErr result (IsFaultOf bytes.now) }
    ensures most { (version : MapVersion) (map : ListedMap) → MapText bytes.now version map → steps.new ≤ steps.old + 32 * ((map.schema.dim + 1) * (map.schema.dim + 1)) * (length map.darts + 1) }
    ensures least { IfOk result (λ read. steps.old + read.arena.count ≤ steps.new) }
{
    match read_map_or_why(alloc, bytes, steps) {
        Ok(read) => Ok(read),
        Err(no_map) => Err(no_map.fault),
    }
}

/// The same, with the name of the embedding whose values differ, where that is the fault.
pub fn read_map_or_why<L: Ledger>(
    alloc: Global,
    bytes: &[u8],
    steps: &mut Steps<L>,
) -> Result<MapRead, NoMap>
    ensures map { IfOk result (λ read. MapText bytes.now read.version (listed_of read.arena)) }
    ensures sound { IfOk result (λ read. IsSound (as_map read.arena)) }
    ensures fault { IfErr result (IsWhyNot bytes.now) }
    ensures most { (version : MapVersion) (map : ListedMap) → MapText bytes.now version map → steps.new ≤ steps.old + 32 * ((map.schema.dim + 1) * (map.schema.dim + 1)) * (length map.darts + 1) }
    ensures least { IfOk result (λ read. steps.old + read.arena.count ≤ steps.new) }
{
    let draft = read_text(alloc, bytes)?;
    map_of(alloc, draft, steps)
}

/// The same, where the text is let go as soon as its darts are known, so that it is never held
/// beside the map.
pub fn take_map<L: Ledger>(
    alloc: Global,
    bytes: Vec<u8>,
    steps: &mut Steps<L>,
) -> Result<MapRead, NoMap>
    ensures map { IfOk result (λ read. MapText bytes.items read.version (listed_of read.arena)) }
    ensures sound { IfOk result (λ read. IsSound (as_map read.arena)) }
    ensures fault { IfErr result (IsWhyNot bytes.items) }
    ensures most { (version : MapVersion) (map : ListedMap) → MapText bytes.items version map → steps.new ≤ steps.old + 32 * ((map.schema.dim + 1) * (map.schema.dim + 1)) * (length map.darts + 1) }
    ensures least { IfOk result (λ read. steps.old + read.arena.count ≤ steps.new) }
{
    let draft = read_text(alloc, bytes.as_slice())?;
    drop(bytes);
    map_of(alloc, draft, steps)
}
