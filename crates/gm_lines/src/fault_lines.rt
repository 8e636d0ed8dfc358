//! The lines that say why a file's text stands for nothing.

ghost use Rattle.std.specs.Prelude.{◌≡◌, ◌++◌, ℕ, List, IfOk, OnOk, codes, decimal};
ghost use Rattle.gm_lines.specs.Refusing.{TheMap, refusal, IsBadLine};
ghost use Rattle.gm_mapfile.specs.MapFaults.{limit_word};
ghost use Rattle.gm_mapfile.specs.inner.Faults.{IsNamedBreachOf, IsNamedFaultOf, IsWhyNot};
ghost use Rattle.gm_lines.specs.inner.FaultLines.{IsSaidOfBook, IsSaidOfScript, book_words, script_words, PutsMapFault};

use gm_book::BookFault;
use gm_laws::MapBreach;
use gm_mapfile::{MapFault, NoMap};
use gm_model::{LimitKind, Name, OutOfMemory};
use gm_script::ScriptFault;
use gm_text::{Text, put_number};
use std::alloc::Global;

/// The line that refuses a map, with its line end. There is none where memory ran out.
pub fn map_line(alloc: Global, no_map: NoMap) -> Result<Vec<u8>, OutOfMemory>
    ensures { IfOk result (λ line. (bytes : List ℕ) → IsWhyNot bytes no_map → IsBadLine bytes TheMap line.items) }
{
    let mut text = Text::new(alloc);
    text.put(b"refused MAP ")?;
    put_map_fault(&mut text, no_map.fault, no_map.embed)?;
    text.put(b"\n")?;
    Ok(text.into_bytes())
}

/// Appends the words of the fault, with the name of the embedding that it is about.
fn put_map_fault(text: &mut Text, fault: MapFault, embed: Option<Name>) -> Result<(), OutOfMemory>
    ensures { OnOk result ((bytes : List ℕ) → IsNamedFaultOf bytes fault embed → PutsMapFault bytes text.old text.new) }
{
    match fault {
        MapFault::Text { place } => put_number(text, b"text ", place as u64),
        MapFault::Limit { what, place } => put_limit(text, what, place),
        MapFault::Twice { place } => put_number(text, b"twice ", place as u64),
        MapFault::DartTwice { dart } => put_number(text, b"dart-twice ", u64::from(dart)),
        MapFault::Next { dart } => put_number(text, b"next dart ", u64::from(dart)),
        MapFault::NoTarget { dart, label } => put_label(text, b"no-target dart ", dart, label),
        MapFault::Breach(breach) => put_breach(text, breach, embed),
        MapFault::OutOfMemory => Err(OutOfMemory),
    }
}

fn put_breach(text: &mut Text, breach: MapBreach, embed: Option<Name>) -> Result<(), OutOfMemory>
    ensures { OnOk result ((bytes : List ℕ) → IsNamedBreachOf bytes breach embed → PutsMapFault bytes text.old text.new) }
{
    match breach {
        MapBreach::Involution { dart, label } => put_label(text, b"involution dart ", dart, label),
        MapBreach::Cycle { dart, i, j } => put_crossing(text, dart, i, j),
        // No text has this fault without the name.
        MapBreach::Embedding { dart, other, .. } => match embed {
            Some(name) => put_change(text, name.bytes(), dart, other),
            None => put_change(text, b"", dart, other),
        },
    }
}

fn put_change(text: &mut Text, name: &[u8], dart: u32, other: u32) -> Result<(), OutOfMemory>
    ensures { OnOk result (text.new ≡ text.old ++ (codes "embedding " ++ name.now ++ codes " darts " ++ decimal dart ++ codes " " ++ decimal other)) }
{
    text.put(b"embedding ")?;
    text.put(name)?;
    put_number(text, b" darts ", u64::from(dart))?;
    put_number(text, b" ", u64::from(other))
}

/// The line that refuses a book, with its line end. There is none where memory ran out.
pub fn book_line(alloc: Global, fault: BookFault) -> Result<Vec<u8>, OutOfMemory>
    ensures { IfOk result (λ line. IsSaidOfBook fault × (line.items ≡ refusal (codes "BOOK" ++ codes " " ++ book_words fault))) }
{
    let mut text = Text::new(alloc);
    text.put(b"refused BOOK ")?;
    put_book_fault(&mut text, fault)?;
    text.put(b"\n")?;
    Ok(text.into_bytes())
}

fn put_book_fault(text: &mut Text, fault: BookFault) -> Result<(), OutOfMemory>
    ensures { OnOk result (IsSaidOfBook fault × (text.new ≡ text.old ++ book_words fault)) }
{
    match fault {
        BookFault::Text { place } => put_number(text, b"text ", place as u64),
        BookFault::Limit { what, place } => put_limit(text, what, place),
        BookFault::Twice { place } => put_number(text, b"twice ", place as u64),
        BookFault::Unknown { place } => put_number(text, b"unknown ", place as u64),
        BookFault::WrongKind { place } => put_number(text, b"type ", place as u64),
        BookFault::OutOfMemory => Err(OutOfMemory),
    }
}

/// The line that refuses a script, with its line end. There is none where memory ran out.
pub fn script_line(alloc: Global, fault: ScriptFault) -> Result<Vec<u8>, OutOfMemory>
    ensures { IfOk result (λ line. IsSaidOfScript fault × (line.items ≡ refusal (codes "SCRIPT" ++ codes " " ++ script_words fault))) }
{
    let mut text = Text::new(alloc);
    text.put(b"refused SCRIPT ")?;
    put_script_fault(&mut text, fault)?;
    text.put(b"\n")?;
    Ok(text.into_bytes())
}

fn put_script_fault(text: &mut Text, fault: ScriptFault) -> Result<(), OutOfMemory>
    ensures { OnOk result (IsSaidOfScript fault × (text.new ≡ text.old ++ script_words fault)) }
{
    match fault {
        ScriptFault::Text { place } => put_number(text, b"text ", place as u64),
        ScriptFault::Limit { what, place } => put_limit(text, what, place),
        ScriptFault::Twice { place } => put_number(text, b"twice ", place as u64),
        ScriptFault::UnknownRule { place } => put_number(text, b"unknown-rule ", place as u64),
        ScriptFault::HookCount { place } => put_number(text, b"hook-count ", place as u64),
        ScriptFault::Params { place } => put_number(text, b"params ", place as u64),
        ScriptFault::OutOfMemory => Err(OutOfMemory),
    }
}

fn put_limit(text: &mut Text, what: LimitKind, place: usize) -> Result<(), OutOfMemory>
    ensures { OnOk result (text.new ≡ text.old ++ (codes "limit " ++ limit_word what ++ codes " " ++ decimal place)) }
{
    text.put(b"limit ")?;
    text.put(word_of(what))?;
    put_number(text, b" ", place as u64)
}

fn put_label(text: &mut Text, words: &[u8], dart: u32, label: u8) -> Result<(), OutOfMemory>
    ensures { OnOk result (text.new ≡ text.old ++ (words.now ++ decimal dart ++ codes " label " ++ decimal label)) }
{
    put_number(text, words, u64::from(dart))?;
    put_number(text, b" label ", u64::from(label))
}

fn put_crossing(text: &mut Text, dart: u32, i: u8, j: u8) -> Result<(), OutOfMemory>
    ensures { OnOk result (text.new ≡ text.old ++ (codes "cycle dart " ++ decimal dart ++ codes " labels " ++ decimal i ++ codes " " ++ decimal j)) }
{
    put_number(text, b"cycle dart ", u64::from(dart))?;
    put_number(text, b" labels ", u64::from(i))?;
    put_number(text, b" ", u64::from(j))
}

/// The word of a limit.
fn word_of(limit: LimitKind) -> &'static [u8]
    ensures { result.now ≡ limit_word limit }
{
    match limit {
        LimitKind::Dimension => b"dimension",
        LimitKind::Label => b"label",
        LimitKind::Embeddings => b"embeddings",
        LimitKind::Darts => b"darts",
        LimitKind::DartName => b"dart-name",
        LimitKind::Integer => b"integer",
        LimitKind::Channel => b"channel",
        LimitKind::Name => b"name",
        LimitKind::Rules => b"rules",
        LimitKind::Nodes => b"nodes",
        LimitKind::Links => b"links",
        LimitKind::Parameters => b"parameters",
        LimitKind::Word => b"word",
        LimitKind::Expression => b"expression",
        LimitKind::Lines => b"lines",
    }
}
