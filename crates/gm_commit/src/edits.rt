//! The changes of an application that own what they hold, and their commit to the arena.

ghost use Rattle.std.specs.Prelude.{◌≡◌, ◌≢◌, ℕ, ◌+◌, ◌-◌, ◌*◌, ◌<◌, ◌≤◌, List, [], ◌++◌, length, IfOk, OnOk};
ghost use Rattle.std.specs.FinMap.{get};
ghost use Rattle.std.specs.List.{Contains};
ghost use Rattle.std.specs.Option.{option_map};
ghost use Rattle.gm_model.specs.Maps.{IsGeneralised};
ghost use Rattle.gm_arena.specs.inner.ArenaAsMap.{as_map};
ghost use Rattle.gm_arena.specs.inner.ArenaMap.{IsLiveSlot};
ghost use Rattle.gm_arena.specs.declared.slot.Slot.{Slot};
ghost use Rattle.gm_commit.specs.declared.changes.ValueAt.{ValueAt};
ghost use Rattle.gm_commit.specs.inner.EditLists.{AreDistinct, AreEditsHere, AreEditsOf, HasSameRows, IsReachedSumIn, IsResultOf, IsUntouched, cost_of};
ghost use Rattle.gm_commit.specs.inner.OldDartValues.{told_of, values_told};
ghost use Rattle.gm_commit.specs.inner.OwnEdits.{AreTouched};
ghost use Rattle.gm_pending.specs.inner.Results.{PendingOf, rule_in};
ghost use Rattle.gm_commit.specs.inner.TouchedSlots.{AreTaken, touched_or};

use crate::applied::Applied;
use crate::changes::{Changes, ValueAt};
use crate::rewrite::Rewrite;
use gm_arena::{Arena, Slot, Steps};
use gm_model::{MOST_DARTS, MOST_LABELS, OutOfMemory, Step, Value};
use gm_pending::{DecidedOrbits, DecidingInstance, OrbitsByEmbed, given};
use gm_plan::Instances;
use gm_walk::{At, Mark, Scratch};
use std::alloc::Global;
use std::marker::Model;
use std::sync::ledger::Ledger;

/// The changes that make an application's result of its arena, and the darts that they touch. They
/// own what they hold, and all the memory that the commit needs.
#[derive(Drop)]
pub struct Edits {
    applied: Applied,
    dim: u8,
    removes: bool,
    goes: u32,
    freed: Vec<[Step; MOST_LABELS]>,
    made: Vec<[Step; MOST_LABELS]>,
    found: Instances,
    added: usize,
    added_values: Vec<Value>,
    orbits: OrbitsByEmbed,
    slots: Vec<Slot>,
    /// The slots of the darts that are touched; where no value is set, they are those of the left
    /// nodes.
    touched: Option<Vec<Slot>>,
}

impl Model for Edits {
    ghost use Rattle.std.specs.Prelude.{◌≡◌, ◌+◌, ◌≤◌, length};
    ghost use Rattle.std.specs.Option.{option_map};
    ghost use Rattle.std.specs.Vec.{vec_capacity};
    ghost use Rattle.gm_commit.specs.inner.InstanceEdits.{IsFitted, rows_at, told_by, left_slots, all_removed};
    ghost use Rattle.gm_commit.specs.inner.OwnEdits.{OwnEdits, own_edits};
    ghost use Rattle.gm_commit.specs.inner.EditLists.{AreDistinct};
    ghost use Rattle.gm_commit.specs.inner.OldDartValues.{lists_told, values_told};
    ghost use Rattle.gm_commit.specs.inner.TouchedSlots.{touched_or};

    ghost Value = { OwnEdits };

    ghost view = { λ e. own_edits (lists_told (told_by (rows_at e.dim e.removes e.goes e.freed.items e.made.items e.found)) e.added e.added_values.items (values_told e.orbits.items)) (touched_or e.slots.items (option_map (λ t. t.items) e.touched)) };

    ghost invariant = { λ e. IsFitted (rows_at e.dim e.removes e.goes e.freed.items e.made.items e.found)
        × (e.slots.items ≡ left_slots (told_by (rows_at e.dim e.removes e.goes e.freed.items e.made.items e.found)))
        × (length e.slots.items + e.added ≤ vec_capacity e.slots)
        × AreDistinct e.slots.items
        × (length e.orbits.items ≤ 255)
        × (e.applied.added ≡ e.added)
        × (e.applied.removed ≡ length (all_removed (told_by (rows_at e.dim e.removes e.goes e.freed.items e.made.items e.found)))) };
}

impl Changes<'_> {
    /// The same edits, which own what they hold and tell which darts they touch. `applied` says
    /// how many darts are added and removed. The scratch may have grown.
    pub fn into_edits(
        self,
        alloc: Global,
        applied: Applied,
        arena: &Arena,
        scratch: &mut Scratch,
    ) -> Result<Edits, OutOfMemory>
        requires here { AreEditsHere arena.now self }
        requires added { applied.added ≡ self.added }
        requires removed { applied.removed ≡ length self.removed }
        ensures edits { IfOk result (λ edits. edits.lists ≡ self.entry) }
        ensures touched { IfOk result (λ edits. AreTouched arena.now self.entry edits.touched) }
        ensures few { (app : PendingOf) (reached : ℕ) → AreEditsOf app self.entry → IsReachedSumIn app reached → IfOk result (λ edits. length edits.touched ≤ length (rule_in app).nodes * app.placed.positions + reached) }
        ensures room { scratch.old.bound ≤ scratch.new.bound }
    {
        let values = new_values(alloc, &self.orbits)?;
        let touched = touched_slots(alloc, &self.slots, &values, arena, scratch)?;
        let Changes {
            rewrite,
            added,
            added_values,
            orbits,
            slots,
        } = self;
        Ok(Edits {
            applied,
            dim: rewrite.dim,
            removes: rewrite.removes,
            goes: rewrite.goes,
            freed: Vec::from_slice(alloc, rewrite.freed)?,
            made: Vec::from_slice(alloc, rewrite.made)?,
            found: rewrite.found.copy(alloc)?,
            added,
            added_values,
            orbits,
            slots,
            touched,
        })
    }
}

/// The slots and those of the values, each once. Where there is no value, they are the slots as they
/// stand, and none are answered.
fn touched_slots(
    alloc: Global,
    slots: &[Slot],
    values: &[ValueAt],
    arena: &Arena,
    scratch: &mut Scratch,
) -> Result<Option<Vec<Slot>>, OutOfMemory>
    requires matched { (slot : Slot) → Contains slots.now slot → IsLiveSlot arena.now slot.at }
    requires distinct { AreDistinct slots.now }
    requires valued { (at : ValueAt) → Contains values.now at → IsLiveSlot arena.now at.slot.at }
    ensures taken { IfOk result (λ touched. AreTaken slots.now values.now (touched_or slots.now (option_map (λ t. t.items) touched))) }
    ensures room { scratch.old.bound ≤ scratch.new.bound }
{
    if values.is_empty() {
        return Ok(None);
    }
    scratch.fit(arena)?;
    // The arena tells here that its live slots lie below its bound.
    prove!(arena.count() <= MOST_DARTS);
    scratch.clear();
    for slot in slots {
        scratch.take_in(*slot);
    }
    take_values(values, scratch);
    let touched = Vec::from_slice(alloc, scratch.walked())?;
    Ok(Some(touched))
}

/// Takes the slots in that get values and aren't among those that were taken in.
fn take_values(values: &[ValueAt], scratch: &mut Scratch)
    requires within { (at : ValueAt) → Contains values.now at → at.slot.at < scratch.old.bound }
    ensures taken { (slots : List Slot) → AreTaken slots [] scratch.old.walked → AreTaken slots values.now scratch.new.walked }
    ensures bound { scratch.new.bound ≡ scratch.old.bound }
{
    for entry in values {
        scratch.take_in(entry.slot);
    }
}

/// The values that old darts get, embedding by embedding.
fn new_values(
    alloc: Global,
    by_embed: &[Option<DecidedOrbits>],
) -> Result<Vec<ValueAt>, OutOfMemory>
    requires { length by_embed.now ≤ 255 }
    ensures { IfOk result (λ values. values.items ≡ values_told by_embed.now) }
{
    let mut values = Vec::new(alloc);
    for embed in 0..by_embed.len() as u8 {
        if let Some(orbits) = &by_embed[embed as usize] {
            put_new_values(
                embed,
                &orbits.instances,
                orbits.marks.as_slice(),
                &mut values,
            )?;
        }
    }
    Ok(values)
}

/// Puts the values of the embedding that old darts get after those of the earlier ones.
fn put_new_values(
    embed: u8,
    instances: &[DecidingInstance],
    marks: &[Mark],
    values: &mut Vec<ValueAt>,
) -> Result<(), OutOfMemory>
    ensures { OnOk result (values.new.items ≡ values.old.items ++ told_of embed instances.now marks.now) }
{
    for mark in marks {
        if let At::Old(slot) = mark.at.unpack() {
            if let Some(value) = given(instances, mark.instance) {
                fit_one(values, marks.len())?;
                values.push(ValueAt { slot, embed, value })?;
            }
        }
    }
    Ok(())
}

/// Makes room for `room` more values at once, where there is none.
fn fit_one(values: &mut Vec<ValueAt>, room: usize) -> Result<(), OutOfMemory>
    ensures { values.new.items ≡ values.old.items }
{
    if values.len() >= values.capacity() {
        values.reserve(room)?;
    }
    Ok(())
}

impl Edits {
    /// Live slots, each once, of all darts that the commit changes or removes.
    pub fn touched(&self) -> &[Slot]
        ensures { result.now ≡ self.now.touched }
    {
        match &self.touched {
            Some(touched) => touched,
            None => &self.slots,
        }
    }

    /// How many darts the application adds and removes.
    pub fn applied(&self) -> Applied
        ensures added { result.added ≡ self.now.lists.added }
        ensures removed { result.removed ≡ length self.now.lists.removed }
    {
        self.applied
    }

    /// Makes the arena the result. It can't be refused, and takes no memory.
    pub fn commit<L: Ledger>(self, arena: &mut Arena, steps: &mut Steps<L>)
        requires edits { AreEditsHere arena.old self.lists }
        requires names { arena.old.next + self.lists.added ≤ arena.old.reserved }
        requires room { self.lists.added ≤ arena.old.spare + length self.lists.removed }
        ensures unfolded { (app : PendingOf) → HasSameRows app.map arena.old → AreEditsOf app self.lists → IsResultOf app arena.new }
        ensures generalised { IsGeneralised (as_map arena.new) }
        ensures elsewhere { (d : ℕ) → d < arena.old.next → IsUntouched arena.old self.lists d → get arena.new.darts d ≡ get arena.old.darts d }
        ensures schema { arena.new.schema ≡ arena.old.schema }
        ensures count { arena.new.count ≡ arena.old.count - length self.lists.removed + self.lists.added }
        ensures spare { arena.new.spare + self.lists.added ≡ arena.old.spare + length self.lists.removed }
        ensures reserved { arena.new.reserved ≡ arena.old.reserved }
        ensures cost { steps.new ≡ steps.old + cost_of self.lists }
    {
        let Edits {
            applied: _,
            dim,
            removes,
            goes,
            freed,
            made,
            found,
            added,
            added_values,
            orbits,
            slots,
            touched: _,
        } = self;
        let changes = Changes {
            rewrite: Rewrite {
                dim,
                removes,
                goes,
                freed: &freed,
                made: &made,
                found: &found,
            },
            added,
            added_values,
            orbits,
            slots,
        };
        changes.commit(arena, steps);
    }
}
