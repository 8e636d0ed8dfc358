//! The darts of a map in slots: added, looked up, linked, given values and removed.

ghost use Rattle.std.specs.Prelude.{◌≡◌, ℕ, ◌+◌, ◌*◌, ◌/◌, ◌<◌, ◌≤◌, ◌-◌, ◌++◌, ◌∷◌, [], length, replicate, take, max, map, Some, None, All, MatchOption, IfOk, IsSome, IsTrue, OnOk, OnErr};
ghost use Rattle.std.specs.FinMap.{get, keys};
ghost use Rattle.std.specs.List.{zip};
ghost use Rattle.std.specs.List.Sorted.{IsNonDecreasing, IsPermutation};
ghost use Rattle.slab.specs.Slab.{HasRoomFor, slab_len};
ghost use Rattle.gm_model.specs.Limits.{most_darts, most_names};
ghost use Rattle.std.specs.Vec.{vec_capacity};
ghost use Rattle.slab.specs.Slab as slab;
ghost use Rattle.gm_arena.specs.inner.Inside.{no_slot, names_in, name_in, linked, slot_numbered, links_in, place_names, IsWritten, HasParts, AreNumbered, AreNamesSlots};
ghost use Rattle.gm_model.specs.declared.limit.TheConstants.{MOST_EMBEDS, MOST_LABELS};

use crate::slot::Slot;
use crate::steps::Steps;
use crate::table::{NO_SLOT, Table};
use gm_model::{MOST_DARTS, OutOfMemory, Schema, Value};
use slab::Slab;
use std::alloc::Global;
use std::marker::Model;
use std::sync::ledger::Ledger;

/// How many entries are filled past what a slot needs.
const AHEAD: usize = 256;

/// Where there are more reserved names for each dart, the names of the darts are sorted, and not
/// sought in the table.
const NAMES_PER_DART: usize = 32;

#[derive(Clone, Copy)]
struct Place {
    name: u32,
}

/// The darts of a map, in slots. Contracts see the map by name, the name of the dart at each slot,
/// and the room that is reserved.
#[derive(Drop)]
pub struct Arena {
    schema: Schema,
    /// The number of labels, one more than the dimension.
    labels: usize,
    /// The number of embeddings.
    width: usize,
    places: Slab<Place>,
    /// The neighbours of the slots one after another, `labels` for each. What stands where no dart
    /// is has no meaning, and there is none for slots that were never in use.
    neighbours: Vec<Slot>,
    /// The values of the slots one after another, `width` for each, in the same way.
    values: Vec<Value>,
    table: Table,
    next: u32,
    /// How many darts can be added.
    spare: u32,
    /// One more than the greatest slot that was ever in use.
    bound: usize,
    /// Where it is set, the name of each live dart is its slot, so that the one is known from the
    /// other. Unset, it says nothing. It stays set in a map that was read whose names run from 0 on.
    names_are_slots: bool,
}

/// A dart as the arena holds it.
#[derive(Clone, Copy)]
pub struct Row<'a> {
    pub name: u32,
    /// The neighbours, by label.
    pub alphas: &'a [Slot],
    /// The values, by embedding.
    pub values: &'a [Value],
}

impl Model for Arena {
    ghost use Rattle.gm_arena.specs.inner.ArenaMap.{ArenaMap, arena_code};

    ghost Value = { ArenaMap };

    ghost coded = { arena_code };

    ghost use Rattle.std.specs.Vec.{vec_capacity};
    ghost use Rattle.gm_arena.specs.inner.Inside.{map_of, FitTogether, HasParts, AreNamesSlots};

    ghost view = { λ a. map_of a.schema a.labels a.width a.places a.neighbours.items a.values.items a.table a.next a.spare a.bound };

    ghost invariant = { λ a. FitTogether a.schema a.labels a.width a.places a.neighbours.items a.values.items a.table a.next a.spare a.bound × HasParts a.places.capacity a.labels a.width (vec_capacity a.neighbours) (vec_capacity a.values) × AreNamesSlots a.names_are_slots a.places };
}

impl Arena {
    ghost use Rattle.gm_arena.specs.inner.ArenaMap.{IsAt, IsLiveSlot, IsLiveName, name_at, alpha};
    ghost use Rattle.gm_arena.specs.inner.InOrder.{HasNoneFrom, IsFirstFrom};
    ghost use Rattle.gm_model.specs.declared.schema.Embed.{Embed};
    ghost use Rattle.gm_model.specs.Maps.{IsSchema, IsEmbedAt};
    ghost use Rattle.gm_model.specs.Values.{IsValueOf};
    ghost use Rattle.gm_arena.specs.inner.ArenaAsMap.{value};
    ghost use Rattle.gm_arena.specs.inner.Lawful.{IsLawful, AreGoodValues};
    ghost use Rattle.gm_arena.specs.inner.Edits.{empty_map, with_dart, with_alpha, with_alphas, with_value, without_dart, IsAlone};
    ghost use Rattle.gm_arena.specs.inner.Lines.{line_count, AreLines, HoldsLines};

    /// An arena without darts, whose next name is 0. It takes no memory.
    pub fn new(alloc: Global, schema: Schema) -> Arena
        requires { IsSchema schema }
        ensures { result ≡ empty_map schema }
    {
        Arena {
            labels: schema.dim.top() as usize + 1,
            width: schema.embeds.as_slice().len(),
            schema,
            places: Slab::new(alloc),
            neighbours: Vec::new(alloc),
            values: Vec::new(alloc),
            table: Table::new(alloc),
            next: 0,
            spare: 0,
            bound: 0,
            names_are_slots: true,
        }
    }

    /// The arena of the darts 0, 1 and so on, each of which has a line: its name, and then those of its
    /// neighbours by label. What is left after the last whole line has no meaning. The values of each
    /// dart by embedding stand one after another in the order of the lines; the arena takes them over
    /// as they are. It counts 2n+4 steps for each dart, as to add it, to look up its neighbours and to
    /// set them would.
    pub fn of_lines<L: Ledger>(
        alloc: Global,
        schema: Schema,
        lines: Vec<u32>,
        mut values: Vec<Value>,
        steps: &mut Steps<L>,
    ) -> Result<Arena, OutOfMemory>
        requires schema { IsSchema schema }
        requires lines { AreLines schema lines.items values.items }
        ensures holds { IfOk result (HoldsLines schema lines.items values.items) }
        ensures cost { steps.new ≡ steps.old + (2 * schema.dim + 4) * line_count schema lines.items }
    {
        let labels = schema.dim.top() as usize + 1;
        let width = schema.embeds.as_slice().len();
        let count = lines.len() / (labels + 1);
        steps.tick_times((count * (2 * labels + 2)) as u64);
        let table = Table::numbered(alloc, count)?;
        let mut places = Slab::new(alloc);
        let mut neighbours = Vec::new(alloc);
        put_lines(
            &mut places,
            &mut neighbours,
            &mut values,
            labels,
            width,
            lines,
        )?;
        Ok(Arena {
            schema,
            labels,
            width,
            places,
            neighbours,
            values,
            table,
            next: count as u32,
            spare: 0,
            bound: count,
            names_are_slots: true,
        })
    }

    /// The dimension and the embeddings.
    pub fn schema(&self) -> &Schema
        ensures { result.now ≡ self.now.schema }
    {
        &self.schema
    }

    /// How many darts are live.
    pub fn count(&self) -> u32
        ensures count { result ≡ self.now.count }
        ensures lawful { IsLawful self.now }
    {
        self.places.len() as u32
    }

    /// The number above every name that was ever in the map.
    pub fn next(&self) -> u32
        ensures next { result ≡ self.now.next }
        ensures lawful { IsLawful self.now }
    {
        self.next
    }

    /// One more than the greatest slot that was ever in use, so each live slot is below it.
    pub fn bound(&self) -> usize
        ensures bound { result ≡ self.now.bound }
        ensures lawful { IsLawful self.now }
    {
        self.bound
    }

    /// Whether each slot below the bound has a live dart, as in a map from which none was removed. It
    /// counts no step.
    pub fn is_dense(&self) -> bool
        ensures live { IsTrue result → (at : ℕ) → at < self.now.bound → IsLiveSlot self.now at }
        ensures count { IsTrue result → self.now.bound ≡ self.now.count }
    {
        // As many darts as slots, and no dart at or above the bound: none of these is without one.
        self.places.len() == self.bound
    }

    /// Whether each slot below the bound has the dart of which it is the name, so that no other name
    /// is live. Nothing has to be looked up then. It counts no step.
    fn has_slots_for_names(&self) -> bool
        ensures at { IsTrue result → (name : ℕ) → name < self.now.bound → IsAt self.now name name }
        ensures none { IsTrue result → (name : ℕ) → self.now.bound ≤ name → get self.now.darts name ≡ None }
        ensures count { IsTrue result → self.now.bound ≡ self.now.count }
    {
        self.names_are_slots & (self.places.len() == self.bound)
    }

    /// The slot of this number, where it is below the bound.
    fn slot_below_bound(&self, at: u32) -> Option<Slot>
        ensures { MatchOption result (self.now.bound ≤ at) (λ s. (s.at ≡ at) × (at < self.now.bound)) }
    {
        if (at as usize) < self.bound {
            Some(Slot { at })
        } else {
            None
        }
    }

    /// The names of the live darts, ascending. It counts one step for each dart. A step stands for some
    /// 32 names of the table, or where darts are fewer for one dart's part in sorting them, which is
    /// in the order of the logarithm of their number, 20 at most.
    pub fn names<L: Ledger>(
        &self,
        alloc: Global,
        steps: &mut Steps<L>,
    ) -> Result<Vec<u32>, OutOfMemory>
        ensures names { IfOk result (λ names. names.items ≡ keys self.now.darts) }
        ensures cost { steps.new ≡ steps.old + self.now.count }
    {
        let count = self.places.len();
        steps.tick_times(count as u64);
        if count < self.table.len() / NAMES_PER_DART {
            return sorted_names(alloc, &self.places);
        }
        self.table.taken_names(alloc, count)
    }

    /// The slot of a name; `None` where no live dart has it.
    pub fn slot_of<L: Ledger>(&self, name: u32, steps: &mut Steps<L>) -> Option<Slot>
        ensures slot { MatchOption result (get self.now.darts name ≡ None) (λ s. IsAt self.now s.at name) }
        ensures cost { steps.new ≡ steps.old + 1 }
    {
        steps.tick();
        if self.has_slots_for_names() {
            return self.slot_below_bound(name);
        }
        let at = self.table.slot(name);
        if at == NO_SLOT {
            return None;
        }
        Some(Slot { at })
    }

    /// The slot of the live dart with the least name from `from` on; `None` where there is none. It
    /// counts one step.
    pub fn slot_from<L: Ledger>(&self, from: u32, steps: &mut Steps<L>) -> Option<Slot>
        ensures slot { MatchOption result (HasNoneFrom self.now from) (λ s. IsFirstFrom self.now from s.at) }
        ensures cost { steps.new ≡ steps.old + 1 }
    {
        steps.tick();
        if self.has_slots_for_names() {
            return self.slot_below_bound(from);
        }
        for name in from as usize..self.table.len() {
            let at = self.table.slot(name as u32);
            if at != NO_SLOT {
                return Some(Slot { at });
            }
        }
        None
    }

    /// The name of the dart at a slot.
    pub fn name_of<L: Ledger>(&self, slot: Slot, steps: &mut Steps<L>) -> u32
        requires { IsLiveSlot self.now slot.at }
        ensures name { IsAt self.now slot.at result }
        ensures cost { steps.new ≡ steps.old + 1 }
    {
        steps.tick();
        read_name(&self.places, self.names_are_slots, slot)
    }

    /// The dart at a slot. Nothing is copied.
    pub fn row<L: Ledger>(&self, slot: Slot, steps: &mut Steps<L>) -> Row<'_>
        requires { IsLiveSlot self.now slot.at }
        ensures name { IsAt self.now slot.at result.name }
        ensures dart { get self.now.darts result.name ≡ Some (record {
          alphas = map (λ (s : Slot). name_at self.now s.at) result.alphas.now;
          values = result.values.now;
        }) }
        ensures live { All (λ (s : Slot). IsLiveSlot self.now s.at) result.alphas.now }
        ensures cost { steps.new ≡ steps.old + 1 }
    {
        steps.tick();
        let at = slot.at as usize;
        Row {
            name: read_name(&self.places, self.names_are_slots, slot),
            alphas: &self.neighbours[at * self.labels..at * self.labels + self.labels],
            values: &self.values[at * self.width..at * self.width + self.width],
        }
    }

    /// The neighbour of the dart at a slot, along a label.
    pub fn alpha<L: Ledger>(&self, slot: Slot, label: u8, steps: &mut Steps<L>) -> Slot
        requires live { IsLiveSlot self.now slot.at }
        requires label { label ≤ self.now.schema.dim }
        ensures neighbour { IsAt self.now result.at (alpha self.now label (name_at self.now slot.at)) }
        ensures cost { steps.new ≡ steps.old + 1 }
    {
        steps.tick();
        self.neighbours[slot.at as usize * self.labels + label as usize]
    }

    /// The value of the dart at a slot, of an embedding by its index in the schema.
    pub fn value<L: Ledger>(&self, slot: Slot, embed: u8, steps: &mut Steps<L>) -> Value
        requires live { IsLiveSlot self.now slot.at }
        requires embed { embed < length self.now.schema.embeds }
        ensures value { result ≡ value self.now embed (name_at self.now slot.at) }
        ensures cost { steps.new ≡ steps.old + 1 }
    {
        steps.tick();
        self.values[slot.at as usize * self.width + embed as usize]
    }

    /// Makes room for `more` further darts and for all names below `names`, so that `add` takes no
    /// memory. An arena has at most 1,048,576 darts, with names below 16,777,216. A refused call
    /// may have made room for some of them, and for no more.
    pub fn reserve(&mut self, more: u32, names: u32) -> Result<(), OutOfMemory>
        requires darts { self.old.count + more ≤ most_darts }
        requires names { names ≤ most_names }
        ensures darts { OnOk result (self.new.spare ≡ max self.old.spare more) }
        ensures names { OnOk result (self.new.reserved ≡ max self.old.reserved names) }
        ensures spare_stays { self.old.spare ≤ self.new.spare }
        ensures spare_most { self.new.spare ≤ max self.old.spare more }
        ensures reserved_stays { self.old.reserved ≤ self.new.reserved }
        ensures reserved_most { self.new.reserved ≤ max self.old.reserved names }
        ensures map { self.new ≡ record self.old { spare = self.new.spare; reserved = self.new.reserved } }
    {
        self.table.pad(names as usize)?;
        let room = self.spare.max(more);
        reserve_places(
            &mut self.places,
            &mut self.neighbours,
            &mut self.values,
            self.labels,
            self.width,
            room as usize,
        )?;
        self.spare = room;
        Ok(())
    }

    /// Adds a dart that is free for every label. It takes no memory.
    // Inlined, it takes 20 instructions less for each dart.
    #[inline(always)]
    pub fn add<L: Ledger>(&mut self, name: u32, values: &[Value], steps: &mut Steps<L>) -> Slot
        requires room { 0 < self.old.spare }
        requires reserved { name < self.old.reserved }
        requires new_name { get self.old.darts name ≡ None }
        requires values { AreGoodValues self.old.schema values.now }
        ensures slot { get self.old.slots result.at ≡ None }
        ensures map { self.new ≡ with_dart self.old result.at name values.now }
        ensures cost { steps.new ≡ steps.old + 1 }
    {
        steps.tick();
        let key = self.places.insert_reserved(Place { name });
        let own = Slot { at: key as u32 };
        free(&mut self.neighbours, self.labels, own);
        write_values(&mut self.values, key, values);
        self.table.set(name, own.at);
        self.next = self.next.max(name + 1);
        self.spare -= 1;
        self.bound = self.bound.max(key + 1);
        self.names_are_slots &= own.at == name;
        own
    }

    /// Makes the dart at `to` the neighbour of the dart at `slot`, and changes nothing at `to`.
    pub fn set_alpha<L: Ledger>(&mut self, slot: Slot, label: u8, to: Slot, steps: &mut Steps<L>)
        requires live { IsLiveSlot self.old slot.at }
        requires label { label ≤ self.old.schema.dim }
        requires to_live { IsLiveSlot self.old to.at }
        ensures map { self.new ≡ with_alpha self.old (name_at self.old slot.at) label (name_at self.old to.at) }
        ensures cost { steps.new ≡ steps.old + 1 }
    {
        steps.tick();
        self.neighbours[slot.at as usize * self.labels + label as usize] = to;
    }

    /// Makes each dart at `to` the neighbour of the dart at the same place of `from`, and changes
    /// nothing at those. Where a dart comes twice in `from`, the last one counts. It counts one step
    /// for each.
    pub fn set_alphas<L: Ledger>(
        &mut self,
        from: &[Slot],
        label: u8,
        to: &[Slot],
        steps: &mut Steps<L>,
    )
        requires label { label ≤ self.old.schema.dim }
        requires live { All (λ (s : Slot). IsLiveSlot self.old s.at) from.now }
        requires to_live { All (λ (s : Slot). IsLiveSlot self.old s.at) to.now }
        requires long { length to.now ≡ length from.now }
        ensures map { self.new ≡ with_alphas self.old label (zip from.now to.now) }
        ensures cost { steps.new ≡ steps.old + length from.now }
    {
        steps.tick_times(from.len() as u64);
        let neighbours = self.neighbours.as_mut_slice();
        link(neighbours, self.labels, label as usize, from, to);
    }

    /// Sets the value of the dart at a slot, of an embedding by its index in the schema. The other
    /// darts of the embedding's orbit keep theirs.
    pub fn set_value<L: Ledger>(
        &mut self,
        slot: Slot,
        embed: u8,
        value: Value,
        steps: &mut Steps<L>,
    )
        requires live { IsLiveSlot self.old slot.at }
        requires value { (kept : Embed) × IsEmbedAt self.old.schema embed kept × IsValueOf kept.kind value }
        ensures map { self.new ≡ with_value self.old (name_at self.old slot.at) embed value }
        ensures cost { steps.new ≡ steps.old + 1 }
    {
        steps.tick();
        self.values[slot.at as usize * self.width + embed as usize] = value;
    }

    /// Removes a dart that is no other dart's neighbour. Its slot may be used again.
    pub fn remove<L: Ledger>(&mut self, slot: Slot, steps: &mut Steps<L>)
        requires live { IsLiveSlot self.old slot.at }
        requires alone { IsAlone self.old (name_at self.old slot.at) }
        ensures map { self.new ≡ without_dart self.old slot.at (name_at self.old slot.at) }
        ensures cost { steps.new ≡ steps.old + 1 }
    {
        steps.tick();
        let place = self.places.remove(slot.at as usize);
        self.table.set(place.name, NO_SLOT);
        self.spare += 1;
    }

    /// Sets the number above every name. It counts no step.
    pub fn set_next(&mut self, next: u32)
        requires names { (name : ℕ) → IsLiveName self.old name → name < next }
        requires limit { next ≤ most_names }
        ensures { self.new ≡ record self.old { next = next } }
    {
        self.next = next;
    }
}

/// The name of the place at a slot, which is the slot itself where all names are.
fn read_name(places: &Slab<Place>, names_are_slots: bool, slot: Slot) -> u32
    requires live { IsSome (slab.get places.now slot.at) }
    requires named { AreNamesSlots names_are_slots places.now }
    ensures { result ≡ name_in places.now slot.at }
{
    if names_are_slots {
        return slot.at;
    }
    places[slot.at as usize].name
}

/// The names of all places, ascending. It goes over the slots that were ever in use.
fn sorted_names(alloc: Global, places: &Slab<Place>) -> Result<Vec<u32>, OutOfMemory>
    ensures permutation { IfOk result (λ names. IsPermutation (place_names places.now) names.items) }
    ensures ascending { IfOk result (λ names. IsNonDecreasing names.items) }
{
    let mut names = names_by_slot(alloc, places)?;
    names.sort_unstable();
    Ok(names)
}

/// The names of all places, in the order of their slots.
fn names_by_slot(alloc: Global, places: &Slab<Place>) -> Result<Vec<u32>, OutOfMemory>
    ensures { IfOk result (λ names. names.items ≡ place_names places.now) }
{
    let mut names = Vec::with_capacity(alloc, places.len())?;
    for (_slot, place) in places {
        names.push(place.name)?;
    }
    Ok(names)
}

/// Makes each neighbour of the slot the slot itself. It takes no memory.
// The compiler is told the labels of a surface and of a solid, and writes their slots without a loop.
#[inline(always)]
fn free(neighbours: &mut Vec<Slot>, labels: usize, own: Slot)
    requires { own.at * labels + labels ≤ vec_capacity neighbours.old }
    ensures written { IsWritten labels own.at neighbours.old.items (replicate labels own) neighbours.new.items }
    ensures reaches { own.at * labels + labels ≤ length neighbours.new.items }
    ensures capacity { vec_capacity neighbours.old ≤ vec_capacity neighbours.new }
{
    match labels {
        3 => free_labels(neighbours, 3, own),
        4 => free_labels(neighbours, 4, own),
        _ => free_labels(neighbours, labels, own),
    }
}

/// The same for labels of which the caller may tell how many there are.
#[inline(always)]
fn free_labels(neighbours: &mut Vec<Slot>, labels: usize, own: Slot)
    requires { own.at * labels + labels ≤ vec_capacity neighbours.old }
    ensures written { IsWritten labels own.at neighbours.old.items (replicate labels own) neighbours.new.items }
    ensures reaches { own.at * labels + labels ≤ length neighbours.new.items }
    ensures capacity { vec_capacity neighbours.old ≤ vec_capacity neighbours.new }
{
    let start = own.at as usize * labels;
    lengthen(neighbours, start + labels, own);
    neighbours[start..start + labels].fill(own);
}

/// Gives the slot these values, as many as each slot has. It takes no memory.
fn write_values(held: &mut Vec<Value>, slot: usize, values: &[Value])
    requires { slot * length values.now + length values.now ≤ vec_capacity held.old }
    ensures written { IsWritten (length values.now) slot held.old.items values.now held.new.items }
    ensures reaches { slot * length values.now + length values.now ≤ length held.new.items }
    ensures capacity { vec_capacity held.old ≤ vec_capacity held.new }
{
    let width = values.len();
    if width == 0 {
        return;
    }
    let start = slot * width;
    lengthen(held, start + width, Value::Int(0));
    overwrite(&mut held[start..start + width], values);
}

/// Writes the values over a slice that is as long. They are so few that a loop takes less than a
/// call that copies any number.
fn overwrite(part: &mut [Value], values: &[Value])
    requires { length part.old ≡ length values.now }
    ensures { part.new ≡ values.now }
{
    for (at, value) in values.iter().enumerate() {
        part[at] = *value;
    }
}

/// Makes the vector at least so long, by fillers. It takes no memory.
fn lengthen<T: Copy>(vector: &mut Vec<T>, long: usize, filler: T)
    requires { long ≤ vec_capacity vector.old }
    ensures items { vector.new.items ≡ vector.old.items ++ replicate (length vector.new.items - length vector.old.items) filler }
    ensures long { long ≤ length vector.new.items }
    ensures capacity { vec_capacity vector.old ≤ vec_capacity vector.new }
{
    if vector.len() < long {
        fill_ahead(vector, long, filler);
    }
}

/// Makes the vector so long and some entries longer, where it has room, so that the next slots find
/// their parts there. It takes no memory.
#[cold]
#[inline(never)]
fn fill_ahead<T: Copy>(vector: &mut Vec<T>, long: usize, filler: T)
    requires shorter { length vector.old.items ≤ long }
    requires room { long ≤ vec_capacity vector.old }
    ensures items { vector.new.items ≡ vector.old.items ++ replicate (length vector.new.items - length vector.old.items) filler }
    ensures long { long ≤ length vector.new.items }
    ensures capacity { vec_capacity vector.old ≤ vec_capacity vector.new }
{
    let ahead = (vector.capacity() - long).min(AHEAD);
    let _filled = vector.resize(long + ahead, filler);
}

/// Makes each slot of `to` the neighbour of that at the same place of `from`, one after another.
fn link(neighbours: &mut [Slot], labels: usize, label: usize, from: &[Slot], to: &[Slot])
    requires label { label < labels }
    requires within { All (λ (s : Slot). s.at * labels + labels ≤ length neighbours.old) from.now }
    requires long { length to.now ≡ length from.now }
    ensures { neighbours.new ≡ linked labels label (zip from.now to.now) neighbours.old }
{
    for (at, slot) in from.iter().enumerate() {
        neighbours[slot.at as usize * labels + label] = to[at];
    }
}

/// Puts the darts of all whole lines into places, of which there are none yet, and makes room for their
/// values.
fn put_lines(
    places: &mut Slab<Place>,
    neighbours: &mut Vec<Slot>,
    values: &mut Vec<Value>,
    labels: usize,
    width: usize,
    lines: Vec<u32>,
) -> Result<(), OutOfMemory>
    requires places { places.old.slots ≡ [] }
    requires capacity { places.old.capacity ≡ 0 }
    requires neighbours { neighbours.old.items ≡ [] }
    requires labels { labels ≤ MOST_LABELS }
    requires width { width ≤ MOST_EMBEDS }
    requires few { length lines.items / (labels + 1) ≤ most_darts }
    ensures numbered { OnOk result (AreNumbered (length lines.items / (labels + 1)) places.new) }
    ensures len { OnOk result (slab_len places.new ≡ length lines.items / (labels + 1)) }
    ensures fits { OnOk result (places.new.capacity ≤ no_slot) }
    ensures room { OnOk result (length lines.items / (labels + 1) ≤ places.new.capacity) }
    ensures parts { OnOk result (HasParts places.new.capacity labels width (vec_capacity neighbours.new) (vec_capacity values.new)) }
    ensures neighbours { OnOk result (neighbours.new.items ≡ links_in labels (length lines.items / (labels + 1)) lines.items) }
    ensures values { values.new.items ≡ values.old.items }
{
    let count = lines.len() / (labels + 1);
    *places = grown(places, count)?;
    widen(neighbours, places.capacity() * labels)?;
    put_neighbours(neighbours, labels, &lines);
    // Their room is free again before values and places take theirs.
    drop(lines);
    widen(values, places.capacity() * width)?;
    number_places(places, count)
}

/// Appends the neighbours of all whole lines, each of which has a slot in front of them. It takes no
/// memory.
// The compiler is told the labels of a surface and of a solid, and does each line without a loop.
fn put_neighbours(neighbours: &mut Vec<Slot>, labels: usize, lines: &[u32])
    requires labels { labels ≤ MOST_LABELS }
    requires room { length neighbours.old.items + length lines.now / (labels + 1) * labels ≤ vec_capacity neighbours.old }
    ensures items { neighbours.new.items ≡ neighbours.old.items ++ links_in labels (length lines.now / (labels + 1)) lines.now }
    ensures capacity { vec_capacity neighbours.old ≤ vec_capacity neighbours.new }
{
    match labels {
        3 => put_each_line(neighbours, 3, lines),
        4 => put_each_line(neighbours, 4, lines),
        _ => put_each_line(neighbours, labels, lines),
    }
}

/// The same for labels of which the caller may tell how many there are.
#[inline(always)]
fn put_each_line(neighbours: &mut Vec<Slot>, labels: usize, lines: &[u32])
    requires labels { labels ≤ MOST_LABELS }
    requires room { length neighbours.old.items + length lines.now / (labels + 1) * labels ≤ vec_capacity neighbours.old }
    ensures items { neighbours.new.items ≡ neighbours.old.items ++ links_in labels (length lines.now / (labels + 1)) lines.now }
    ensures capacity { vec_capacity neighbours.old ≤ vec_capacity neighbours.new }
{
    for line in lines.chunks_exact(labels + 1) {
        put_slots(neighbours, &line[1..]);
    }
}

/// Appends the slots of these numbers. It takes no memory.
#[inline(always)]
fn put_slots(slots: &mut Vec<Slot>, numbers: &[u32])
    requires { length slots.old.items + length numbers.now ≤ vec_capacity slots.old }
    ensures items { slots.new.items ≡ slots.old.items ++ map slot_numbered numbers.now }
    ensures capacity { vec_capacity slots.old ≤ vec_capacity slots.new }
{
    for at in numbers {
        slots.push_reserved(Slot { at: *at });
    }
}

/// Adds the places of `count` names, the name of each being its slot. A slab does not say which key
/// comes next, so the keys are compared, and one that is another counts as memory that ran out.
fn number_places(places: &mut Slab<Place>, count: usize) -> Result<(), OutOfMemory>
    requires none { places.old.slots ≡ [] }
    requires room { count ≤ places.old.capacity }
    requires few { count ≤ most_darts }
    ensures numbered { OnOk result (AreNumbered count places.new) }
    ensures len { OnOk result (slab_len places.new ≡ count) }
    ensures capacity { places.new.capacity ≡ places.old.capacity }
{
    for name in 0..count {
        let key = places.insert_reserved(Place { name: name as u32 });
        if key != name {
            return Err(OutOfMemory);
        }
    }
    Ok(())
}

/// Makes room for `more` further places, the keys of which fit a slot, and for their neighbours and
/// values. The room doubles, but not past the most darts of an arena. A refused call may have made
/// room for neighbours and values.
fn reserve_places(
    places: &mut Slab<Place>,
    neighbours: &mut Vec<Slot>,
    values: &mut Vec<Value>,
    labels: usize,
    width: usize,
    more: usize,
) -> Result<(), OutOfMemory>
    requires fits { places.old.capacity ≤ no_slot }
    requires few { slab_len places.old + more ≤ most_darts }
    requires labels { labels ≤ MOST_LABELS }
    requires width { width ≤ MOST_EMBEDS }
    requires parts { HasParts places.old.capacity labels width (vec_capacity neighbours.old) (vec_capacity values.old) }
    ensures room { OnOk result (HasRoomFor places.new more) }
    ensures fits { places.new.capacity ≤ no_slot }
    ensures parts { HasParts places.new.capacity labels width (vec_capacity neighbours.new) (vec_capacity values.new) }
    ensures slots { places.new.slots ≡ places.old.slots }
    ensures within { OnOk result (length places.new.slots ≤ places.new.capacity) }
    ensures neighbours { neighbours.new.items ≡ neighbours.old.items }
    ensures values { values.new.items ≡ values.old.items }
    ensures err { OnErr result (places.new ≡ places.old) }
{
    if places.capacity() - places.len() >= more {
        return Ok(());
    }
    let grown = grown(places, more)?;
    widen_parts(neighbours, values, labels, width, grown.capacity())?;
    *places = grown;
    Ok(())
}

/// Makes room for the neighbours and values of `slots` slots. A refused call may have made room for
/// the neighbours.
fn widen_parts(
    neighbours: &mut Vec<Slot>,
    values: &mut Vec<Value>,
    labels: usize,
    width: usize,
    slots: usize,
) -> Result<(), OutOfMemory>
    requires slots { slots ≤ no_slot }
    requires labels { labels ≤ MOST_LABELS }
    requires width { width ≤ MOST_EMBEDS }
    ensures parts { OnOk result (HasParts slots labels width (vec_capacity neighbours.new) (vec_capacity values.new)) }
    ensures neighbours { neighbours.new.items ≡ neighbours.old.items }
    ensures values { values.new.items ≡ values.old.items }
    ensures links_grow { vec_capacity neighbours.old ≤ vec_capacity neighbours.new }
    ensures values_grow { vec_capacity values.old ≤ vec_capacity values.new }
{
    widen(neighbours, slots * labels)?;
    widen(values, slots * width)
}

/// The same places with room for `more` further ones. A slab does not say that it grows by no more than
/// was asked for, so a copy grows, and is taken where its keys fit.
fn grown(places: &Slab<Place>, more: usize) -> Result<Slab<Place>, OutOfMemory>
    requires fits { places.now.capacity ≤ no_slot }
    requires few { slab_len places.now + more ≤ most_darts }
    ensures room { IfOk result (λ grown. HasRoomFor grown more) }
    ensures fits { IfOk result (λ grown. grown.capacity ≤ no_slot) }
    ensures slots { IfOk result (λ grown. grown.slots ≡ places.now.slots) }
    ensures within { IfOk result (λ grown. length grown.slots ≤ grown.capacity) }
{
    let room = (places.len() + more).max((2 * places.capacity()).min(MOST_DARTS as usize));
    let mut grown = places.clone()?;
    grown.reserve_exact(room - places.len())?;
    if grown.capacity() > NO_SLOT as usize {
        return Err(OutOfMemory);
    }
    Ok(grown)
}

/// Makes the capacity at least so great, and asks for no more memory than that needs.
fn widen<T>(vector: &mut Vec<T>, capacity: usize) -> Result<(), OutOfMemory>
    ensures items { vector.new.items ≡ vector.old.items }
    ensures grows { vec_capacity vector.old ≤ vec_capacity vector.new }
    ensures room { OnOk result (capacity ≤ vec_capacity vector.new) }
{
    if vector.capacity() < capacity {
        vector.reserve_exact(capacity - vector.len())?;
    }
    Ok(())
}
