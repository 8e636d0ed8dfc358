//! The table from names to slots.
ghost use Rattle.std.specs.Prelude.{◌≡◌, ℕ, ◌<◌, ◌≤◌, ◌-◌, ◌++◌, [], length, replicate, max, slice_set, IfOk, IsOk, OnOk, OnErr};
ghost use Rattle.std.specs.List.{range_with_len};
ghost use Rattle.std.specs.Vec.{vec_capacity};
ghost use Rattle.gm_model.specs.Limits.{most_names};
ghost use Rattle.gm_arena.specs.inner.Inside.{no_slot, slot_in, names_in};

use gm_model::OutOfMemory;
use std::alloc::Global;
use std::marker::Model;

/// What the table has at a name that no live dart has.
pub(crate) const NO_SLOT: u32 = u32::MAX;

/// The slot of each reserved name, or `NO_SLOT`.
///
/// As long as the names from 0 on have the slots of their own numbers, as in a map that is read whose
/// names run from 0 on, no slot is listed: the room for all is there, and nothing of it is touched.
#[derive(Drop)]
pub(crate) struct Table {
    slots: Vec<u32>,
    /// How many names are reserved.
    len: usize,
    /// Where no slot is listed, how many names have one.
    taken: u32,
    is_listed: bool,
}

impl Model for Table {
    ghost use Rattle.std.specs.Prelude.{ℕ, List};
    ghost use Rattle.std.specs.Vec.{vec_capacity};
    ghost use Rattle.gm_arena.specs.inner.Listing.{listing, IsListed};

    ghost Value = { List ℕ };

    ghost view = { λ t. listing t.is_listed t.slots.items t.taken t.len };

    ghost invariant = { λ t. IsListed t.is_listed t.slots.items (vec_capacity t.slots) t.taken t.len };
}

impl Table {
    /// No reserved name. It takes no memory.
    pub(crate) fn new(alloc: Global) -> Table
        ensures { result ≡ [] }
    {
        Table {
            slots: Vec::new(alloc),
            len: 0,
            taken: 0,
            is_listed: false,
        }
    }

    /// The first `count` names from 0 on, each with the slot of its own number.
    pub(crate) fn numbered(alloc: Global, count: usize) -> Result<Table, OutOfMemory>
        requires { count ≤ most_names }
        ensures { IfOk result (λ table. table ≡ range_with_len 0 count) }
    {
        Ok(Table {
            slots: Vec::with_capacity(alloc, count)?,
            len: count,
            taken: count as u32,
            is_listed: false,
        })
    }

    /// How many names are reserved.
    pub(crate) fn len(&self) -> usize
        ensures { result ≡ length self.now }
    {
        self.len
    }

    /// The slot of a name, which need not be reserved.
    pub(crate) fn slot(&self, name: u32) -> u32
        ensures { result ≡ slot_in self.now name }
    {
        if self.is_listed {
            return slot_listed(&self.slots, name);
        }
        if name < self.taken { name } else { NO_SLOT }
    }

    /// Gives a reserved name this slot, or `NO_SLOT`. It takes no memory.
    pub(crate) fn set(&mut self, name: u32, slot: u32)
        requires reserved { name < length self.old }
        requires few { length self.old ≤ most_names }
        ensures { self.new ≡ slice_set self.old name slot }
    {
        if !self.is_listed {
            if (slot == name) & (name == self.taken) {
                self.taken += 1;
                return;
            }
            list_slots(&mut self.slots, self.taken, self.len);
            self.is_listed = true;
        }
        self.slots[name as usize] = slot;
    }

    /// Reserves the names below `names`.
    pub(crate) fn pad(&mut self, names: usize) -> Result<(), OutOfMemory>
        ensures ok { OnOk result (self.new ≡ self.old ++ replicate (names - length self.old) no_slot) }
        ensures len { OnOk result (length self.new ≡ max (length self.old) names) }
        ensures err { OnErr result (self.new ≡ self.old) }
    {
        if names <= self.len {
            return Ok(());
        }
        if self.is_listed {
            pad_slots(&mut self.slots, names)?;
        } else {
            self.slots.reserve(names)?;
        }
        self.len = names;
        Ok(())
    }

    /// The names that have a slot, ascending, of which there are about `count`.
    pub(crate) fn taken_names(&self, alloc: Global, count: usize) -> Result<Vec<u32>, OutOfMemory>
        requires { length self.now ≤ most_names }
        ensures { IfOk result (λ names. names.items ≡ names_in self.now) }
    {
        let mut names = Vec::with_capacity(alloc, count)?;
        for name in 0..self.len() {
            if self.slot(name as u32) != NO_SLOT {
                names.push(name as u32)?;
            }
        }
        Ok(names)
    }
}

/// The slot that is listed for a name, or `NO_SLOT` where none is.
fn slot_listed(slots: &[u32], name: u32) -> u32
    ensures { result ≡ slot_in slots.now name }
{
    match slots.get(name as usize) {
        Some(slot) => *slot,
        None => NO_SLOT,
    }
}

/// Lists the slots of `len` names: each of the first `taken` has that of its own number, and the
/// others have none. It takes no memory.
#[cold]
#[inline(never)]
fn list_slots(slots: &mut Vec<u32>, taken: u32, len: usize)
    requires empty { slots.old.items ≡ [] }
    requires taken { taken ≤ len }
    requires room { len ≤ vec_capacity slots.old }
    ensures { slots.new.items ≡ range_with_len 0 taken ++ replicate (len - taken) no_slot }
{
    for slot in 0..taken {
        slots.push_reserved(slot);
    }
    let _padded = pad_slots(slots, len);
}

/// Lists no slot for each further name below `names`. Where there is room, it takes no memory.
fn pad_slots(slots: &mut Vec<u32>, names: usize) -> Result<(), OutOfMemory>
    requires shorter { length slots.old.items ≤ names }
    ensures ok { OnOk result (slots.new.items ≡ slots.old.items ++ replicate (names - length slots.old.items) no_slot) }
    ensures err { OnErr result (slots.new.items ≡ slots.old.items) }
    ensures succeeds { names ≤ vec_capacity slots.old → IsOk result }
{
    slots.resize(names, NO_SLOT)?;
    Ok(())
}
