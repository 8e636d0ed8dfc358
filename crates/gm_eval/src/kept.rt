//! Values that were collected over the orbit of a node, kept for all positions at which the node lies
//! in it.
ghost use Rattle.std.specs.Prelude.{◌≡◌, ◌≢◌, ◌≤◌, [], ◌∷◌, ◌++◌, ◌⊎◌, IfSome, IsSome, IsTrue, ◌↔◌, IfOk, List, MatchOption, None, Option, Some};
ghost use Rattle.std.specs.List.{Contains};
ghost use Rattle.gm_model.specs.declared.value.Value.{Value as ValueOf};
ghost use Rattle.gm_model.specs.Maps.{IsGeneralised};
ghost use Rattle.gm_arena.specs.inner.ArenaAsMap.{as_map};
ghost use Rattle.gm_arena.specs.inner.ArenaMap.{ArenaMap};
ghost use Rattle.gm_plan.specs.inner.Placed.{Placed};
ghost use Rattle.gm_eval.specs.inner.Keeping.{AreKept};
ghost use Rattle.gm_eval.specs.inner.Sharing.{HasRoom, IsAtHand, StillKept};
ghost use Rattle.gm_eval.specs.declared.kept.Entry.{Entry as EntryOf};

use gm_model::{Mask, OutOfMemory, Value};
use std::alloc::Global;
use std::marker::Model;

/// How many values are kept at once. An expression of a book has at most 36 collectors, since it has
/// at most 256 tokens. With room for one more the list is never full, and nothing that can be kept is
/// lost.
const MOST: usize = 37;

/// What is collected over an orbit.
#[derive(Clone, Copy, PartialEq, Eq)]
pub enum Form {
    Count,
    Sum,
    Least,
    Greatest,
}

/// A collector over the orbit of a node's own dart. A count has the embedding 0.
#[derive(Clone, Copy, PartialEq, Eq)]
pub struct Collector {
    pub form: Form,
    pub mask: Mask,
    pub node: u8,
    pub embed: u8,
}

/// A collector with its value, or none where it has none.
#[derive(Clone, Copy)]
pub struct Entry {
    pub collector: Collector,
    pub value: Option<Value>,
}

/// Values of collectors, no collector twice. Contracts see their list, or none where nothing is ever
/// kept.
#[derive(Drop)]
pub(crate) struct Entries {
    /// None where nothing is ever kept. A list has its whole room from the start, so that what is kept
    /// later takes no memory.
    list: Option<Vec<Entry>>,
}

impl Model for Entries {
    ghost use Rattle.std.specs.Prelude.{◌≤◌, List, Option, MatchOption};
    ghost use Rattle.std.specs.Option.{option_map};
    ghost use Rattle.std.specs.Vec.{vec_capacity};
    ghost use Rattle.gm_eval.specs.declared.kept.Entry.{Entry};

    ghost Value = { Option (List Entry) };

    ghost view = { λ kept. option_map (λ entries. entries.items) kept.list };

    ghost invariant = { λ kept. MatchOption kept.list (Unit {0}) (λ entries. 37 ≤ vec_capacity entries) };
}

/// Values of collectors that are the same at each position of an application, and the node whose
/// expression was read last.
#[derive(Drop)]
pub struct Kept {
    pub(crate) entries: Entries,
    reader: Option<u8>,
}

impl Model for Kept {
    ghost use Rattle.gm_eval.specs.inner.Keeping.{KeptOf};

    ghost Value = { KeptOf };

    ghost view = { λ kept. record { entries = kept.entries; reader = kept.reader } };
}

impl Kept {
    /// Nothing, and nothing is ever kept: for what is read once. It takes no memory.
    #[inline(always)]
    pub(crate) fn closed() -> Kept
        ensures entries { result.entries ≡ None }
        ensures reader { result.reader ≡ None }
    {
        Kept {
            entries: Entries { list: None },
            reader: None,
        }
    }

    /// What is kept between `readings` readings before the first of them: nothing, and where there is
    /// one, or no collector in what is read, nothing ever. It takes memory only where something may be
    /// kept.
    #[inline(always)]
    pub fn between(alloc: Global, readings: u32, collects: bool) -> Result<Kept, OutOfMemory>
        ensures kept { IfOk result (λ kept. (m : ArenaMap) (placed : Placed) (params : List ValueOf) → IsGeneralised (as_map m) → AreKept m placed params kept.entries) }
        ensures open { IfOk result (λ kept. 2 ≤ readings → IsTrue collects → kept.entries ≡ Some []) }
        ensures closed { IfOk result (λ kept. (2 ≤ readings → IsTrue collects → ⊥) → kept.entries ≡ None) }
        ensures reader { IfOk result (λ kept. kept.reader ≡ None) }
    {
        if readings > 1 && collects {
            Kept::with_room(alloc)
        } else {
            Ok(Kept::closed())
        }
    }

    /// Nothing yet, with room for all that can be kept.
    // It is no part of its caller's code, since most expressions have no collector.
    #[inline(never)]
    fn with_room(alloc: Global) -> Result<Kept, OutOfMemory>
        ensures entries { IfOk result (λ kept. kept.entries ≡ Some []) }
        ensures reader { IfOk result (λ kept. kept.reader ≡ None) }
    {
        let list = Vec::with_capacity(alloc, MOST)?;
        Ok(Kept {
            entries: Entries { list: Some(list) },
            reader: None,
        })
    }

    /// Forgets all values where the expression of another node is read than before. So there are
    /// never more than one expression has collectors.
    pub fn turn_to(&mut self, node: u8)
        ensures kept { (m : ArenaMap) (placed : Placed) (params : List ValueOf) → AreKept m placed params self.old.entries → AreKept m placed params self.new.entries }
        ensures stays { self.old.reader ≡ Some node → self.new ≡ self.old }
        ensures turned { self.old.reader ≢ Some node → MatchOption self.old.entries (self.new.entries ≡ None) (λ _. self.new.entries ≡ Some []) }
        ensures reader { self.new.reader ≡ Some node }
    {
        if self.reader == Some(node) {
            return;
        }
        self.reader = Some(node);
        self.entries.clear();
    }
}

impl Entries {
    fn clear(&mut self)
        ensures { MatchOption self.old (self.new ≡ None) (λ _. self.new ≡ Some []) }
    {
        if let Some(entries) = &mut self.list {
            entries.clear();
        }
    }

    /// Whether values are kept.
    pub(crate) fn is_open(&self) -> bool
        ensures { IsTrue result ↔ IsSome self.now }
    {
        self.list.is_some()
    }

    /// The value of the collector, where it is kept.
    pub(crate) fn find(&self, collector: Collector) -> Option<Option<Value>>
        ensures known { IsAtHand self.now collector → IsSome result }
        ensures found { IfSome result (λ value. (entries : List EntryOf) × (self.now ≡ Some entries) × Contains entries (record { collector = collector; value = value })) }
    {
        let Some(entries) = &self.list else {
            return None;
        };
        find_in(entries.as_slice(), collector)
    }

    /// The values of both collectors, where both are kept.
    pub(crate) fn find_both(
        &self,
        first: Collector,
        second: Collector,
    ) -> Option<(Option<Value>, Option<Value>)>
        ensures known { IsAtHand self.now first → IsAtHand self.now second → IsSome result }
        ensures found { IfSome result (λ values. (entries : List EntryOf) × (self.now ≡ Some entries) × Contains entries (record { collector = first; value = values.0 }) × Contains entries (record { collector = second; value = values.1 })) }
    {
        let Some(entries) = &self.list else {
            return None;
        };
        let entries = entries.as_slice();
        Some((find_in(entries, first)?, find_in(entries, second)?))
    }

    /// Keeps the value of the collector, where there is room and it is not kept already. It takes no
    /// memory.
    pub(crate) fn keep(&mut self, collector: Collector, value: Option<Value>)
        ensures kept { (self.new ≡ self.old) ⊎ ((entries : List EntryOf) × (self.old ≡ Some entries) × (self.new ≡ Some (entries ++ record { collector = collector; value = value } ∷ []))) }
        ensures fresh { (self.new ≡ self.old) ⊎ (IsAtHand self.old collector → ⊥) }
        ensures open { IsSome self.old → IsSome self.new }
        ensures stays { StillKept self.old self.new }
        ensures room { HasRoom self.new → IsAtHand self.new collector }
    {
        if self.find(collector).is_some() {
            return;
        }
        self.push(Entry { collector, value });
    }

    /// Adds the entry, where there is room. It takes no memory.
    fn push(&mut self, entry: Entry)
        ensures kept { (self.new ≡ self.old) ⊎ ((entries : List EntryOf) × (self.old ≡ Some entries) × (self.new ≡ Some (entries ++ entry ∷ []))) }
        ensures open { IsSome self.old → IsSome self.new }
        ensures stays { StillKept self.old self.new }
        ensures room { HasRoom self.new → IsAtHand self.new entry.collector }
    {
        if let Some(list) = &mut self.list {
            if list.len() < list.capacity() {
                list.push_reserved(entry);
            }
        }
    }
}

/// The value of the collector, where it is among the entries.
fn find_in(entries: &[Entry], collector: Collector) -> Option<Option<Value>>
    ensures known { (value : Option ValueOf) → Contains entries.now (record { collector = collector; value = value }) → IsSome result }
    ensures found { IfSome result (λ value. Contains entries.now (record { collector = collector; value = value })) }
{
    for entry in entries {
        if entry.collector == collector {
            return Some(entry.value);
        }
    }
    None
}
