//! A script: its statements, with all their hooks and values one after another.
ghost use Rattle.std.specs.Prelude.{◌≡◌, ◌++◌, ◌∷◌, ◌+◌, ◌<◌, ◌≤◌, [], length, slice_get, Some, OnOk, OnErr, IfOk};
ghost use Rattle.gm_model.specs.Statements.{stat_of};
ghost use Rattle.gm_model.specs.inner.Entries.{alone, items_at, stat_at, Grows, IsPartOf, IsEntryOf};

use crate::memory::OutOfMemory;
use crate::value::Value;
use crate::word::Mask;
use std::alloc::Global;
use std::marker::Model;

/// An application that a script asks for: of the rule with this index in the book, at darts by name,
/// one for each hook, with a value for each parameter.
#[derive(Clone, Copy)]
pub struct LineRef<'a> {
    pub rule: u16,
    pub hooks: &'a [u32],
    pub params: &'a [Value],
}

/// A statement of a script, as the script lends it. Each is one line of the report.
#[derive(Clone, Copy)]
pub enum StatRef<'a> {
    Apply(LineRef<'a>),
    /// Goes back to the map before the last application, group or `Each` that was done.
    Undo,
    /// Goes forth again to the map that the last `Undo` went back from.
    Redo,
    /// Begins a group: up to its end the applications are done all, or none of them is.
    Group,
    End,
    /// Applies the rule, which has one hook, once for each orbit over the labels of the mask: at the
    /// least dart of each, as they stand before the first application.
    Each {
        mask: Mask,
        rule: u16,
        params: &'a [Value],
    },
}

/// What a statement is, apart from what it speaks of.
#[derive(Clone, Copy)]
enum What {
    Apply,
    Undo,
    Redo,
    Group,
    End,
    Each,
}

/// Where a statement's items stand among those of all: from a place up to another.
#[derive(Clone, Copy)]
struct Part {
    start: u32,
    end: u32,
}

/// Where no item stands.
const NO_PART: Part = Part { start: 0, end: 0 };

const NO_LABELS: Mask = Mask { bits: 0 };

/// How many items of a kind a script can have.
const MOST_ITEMS: usize = u32::MAX as usize;

impl Part {
    /// The items that stand there.
    #[inline(always)]
    fn of<T>(self, items: &[T]) -> &[T]
        requires { IsPartOf (length items.now) self }
        ensures { result.now ≡ items_at items.now self }
    {
        &items[self.start as usize..self.end as usize]
    }
}

/// Puts the items after all others, and answers where they stand.
#[inline(always)]
fn put_behind<T: Copy>(all: &mut Vec<T>, items: &[T]) -> Result<Part, OutOfMemory>
    ensures grown { Grows all.old.items all.new.items }
    ensures part { IfOk result (λ part. IsPartOf (length all.new.items) part) }
    ensures items { IfOk result (λ part. items_at all.new.items part ≡ items.now) }
{
    let start = all.len();
    // More items than that take more memory than there is.
    if start > MOST_ITEMS || items.len() > MOST_ITEMS - start {
        return Err(OutOfMemory);
    }
    // Most statements have one hook or two, and one value or none.
    match items {
        [] => {}
        [one] => all.push(*one)?,
        [one, other] => {
            all.push(*one)?;
            all.push(*other)?;
        }
        _ => all.extend_from_slice(items)?,
    }
    Ok(Part {
        start: start as u32,
        end: (start + items.len()) as u32,
    })
}

/// A statement, as a script keeps it.
#[derive(Clone, Copy)]
struct Entry {
    what: What,
    mask: Mask,
    rule: u16,
    hooks: Part,
    params: Part,
}

impl Entry {
    /// A statement that speaks of nothing else.
    #[inline(always)]
    fn alone(what: What) -> Entry
        ensures { result ≡ alone what }
    {
        Entry {
            what,
            mask: NO_LABELS,
            rule: 0,
            hooks: NO_PART,
            params: NO_PART,
        }
    }
}

/// The entry of a statement, whose hooks and values are put after all others.
#[inline(always)]
fn entry_of(
    stat: StatRef<'_>,
    hooks: &mut Vec<u32>,
    params: &mut Vec<Value>,
) -> Result<Entry, OutOfMemory>
    ensures hooks { Grows hooks.old.items hooks.new.items }
    ensures params { Grows params.old.items params.new.items }
    ensures within { IfOk result (λ entry. IsEntryOf (length hooks.new.items) (length params.new.items) entry) }
    ensures stat { IfOk result (λ entry. stat_at hooks.new.items params.new.items entry ≡ stat_of stat.entry) }
{
    Ok(match stat {
        StatRef::Apply(line) => Entry {
            what: What::Apply,
            mask: NO_LABELS,
            rule: line.rule,
            hooks: put_behind(hooks, line.hooks)?,
            params: put_behind(params, line.params)?,
        },
        StatRef::Undo => Entry::alone(What::Undo),
        StatRef::Redo => Entry::alone(What::Redo),
        StatRef::Group => Entry::alone(What::Group),
        StatRef::End => Entry::alone(What::End),
        StatRef::Each {
            mask,
            rule,
            params: values,
        } => Entry {
            what: What::Each,
            mask,
            rule,
            hooks: NO_PART,
            params: put_behind(params, values)?,
        },
    })
}

/// A script: its statements, in order. A statement takes no memory of its own, and its hooks and values
/// stand after those of the earlier ones.
#[derive(Drop)]
pub struct Script {
    entries: Vec<Entry>,
    hooks: Vec<u32>,
    params: Vec<Value>,
}

impl Model for Script {
    ghost use Rattle.gm_model.specs.Statements.{Statements};

    ghost Value = { Statements };

    ghost use Rattle.gm_model.specs.inner.Entries.{AreEntriesOf, stats_of};

    ghost view = { λ s. record { stats = stats_of s.hooks.items s.params.items s.entries.items } };

    ghost invariant = { λ s. AreEntriesOf s.hooks.items s.params.items s.entries.items };
}

impl Script {
    /// No statements, with room for `stats` of them.
    pub fn with_capacity(alloc: Global, stats: usize) -> Result<Script, OutOfMemory>
        ensures { IfOk result (λ script. script.stats ≡ []) }
    {
        Ok(Script {
            entries: Vec::with_capacity(alloc, stats)?,
            hooks: Vec::new(alloc),
            params: Vec::new(alloc),
        })
    }

    /// How many statements there are.
    #[inline(always)]
    pub fn len(&self) -> usize
        ensures { result ≡ length self.now.stats }
    {
        self.entries.len()
    }

    /// Puts a statement after the others.
    #[inline]
    pub fn push(&mut self, stat: StatRef<'_>) -> Result<(), OutOfMemory>
        ensures ok { OnOk result (self.new.stats ≡ self.old.stats ++ stat_of stat.entry ∷ []) }
        ensures err { OnErr result (self.new.stats ≡ self.old.stats) }
    {
        let entry = entry_of(stat, &mut self.hooks, &mut self.params)?;
        self.entries.push(entry)?;
        Ok(())
    }

    /// The statement at a place.
    #[inline(always)]
    pub fn get(&self, index: usize) -> StatRef<'_>
        requires { index < length self.now.stats }
        ensures { slice_get self.now.stats index ≡ Some (stat_of result) }
    {
        let entry = self.entries[index];
        match entry.what {
            What::Apply => StatRef::Apply(LineRef {
                rule: entry.rule,
                hooks: entry.hooks.of(&self.hooks),
                params: entry.params.of(&self.params),
            }),
            What::Undo => StatRef::Undo,
            What::Redo => StatRef::Redo,
            What::Group => StatRef::Group,
            What::End => StatRef::End,
            What::Each => StatRef::Each {
                mask: entry.mask,
                rule: entry.rule,
                params: entry.params.of(&self.params),
            },
        }
    }
}
