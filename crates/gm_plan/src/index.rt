//! Instances of a rule by the numbers of darts.
ghost use Rattle.std.specs.Prelude.{◌≡◌, ℕ, None, MatchOption, IfOk, OnErr, nat_eq};
ghost use Rattle.std.specs.HashMap.{get};
ghost use Rattle.gm_plan.specs.inner.Indices.{index_at, AreTheSame, IsElsewhere, IsOneMore, IsPlaceOf};

use gm_model::OutOfMemory;
use std::alloc::Global;
use std::collections::HashMap;

/// How many slots a table has at most for each dart that is expected.
const SLOTS_A_DART: usize = 8;

/// Indices by the numbers of darts. The number of a dart that has a slot is twice the slot; others are
/// odd.
#[derive(Drop)]
pub struct Index {
    /// By slot, one more than the index, or 0. It is empty where the darts that are expected are few
    /// beside the slots, since it takes as long to make as it is.
    by_slot: Vec<u32>,
    /// For the darts that have no place in the table.
    others: HashMap<u64, u32>,
}

impl Index {
    /// No dart. It has room for `room` darts, and the arena has `slots` slots.
    pub fn build(alloc: Global, room: usize, slots: usize) -> Result<Index, OutOfMemory>
        ensures { IfOk result (λ index. (key : ℕ) → index_at index key ≡ None) }
    {
        if slots / SLOTS_A_DART > room {
            return Ok(Index {
                by_slot: Vec::new(alloc),
                others: HashMap::with_capacity(alloc, room)?,
            });
        }
        let mut by_slot = Vec::new(alloc);
        by_slot.resize(slots, 0)?;
        Ok(Index {
            by_slot,
            others: HashMap::new(alloc),
        })
    }

    /// The index of the dart; none where it has none.
    #[inline]
    pub fn find(&self, number: u64) -> Option<u32>
        ensures { result ≡ index_at self.now number }
    {
        match self.place(number) {
            Some(place) => self.by_slot[place].checked_sub(1),
            None => self.others.get(&number).copied(),
        }
    }

    /// Gives the dart an index, unless it has one, which is answered. Where memory ran out, each dart
    /// has what it had.
    #[inline]
    pub fn put(&mut self, number: u64, index: u32) -> Result<Option<u32>, OutOfMemory>
        ensures had { IfOk result (λ had. had ≡ index_at self.old number) }
        ensures put { IfOk result (λ had. MatchOption had (IsOneMore (index_at self.old) (index_at self.new) number index) (λ _. AreTheSame (index_at self.old) (index_at self.new))) }
        ensures err { OnErr result (AreTheSame (index_at self.old) (index_at self.new)) }
    {
        let Some(place) = self.place(number) else {
            return put_in(&mut self.others, number, index);
        };
        if self.by_slot[place] > 0 {
            return Ok(self.by_slot[place].checked_sub(1));
        }
        let Some(next) = index.checked_add(1) else {
            return Err(OutOfMemory);
        };
        self.by_slot[place] = next;
        Ok(None)
    }

    /// The place of the dart in the table; none where it has none there.
    #[inline(always)]
    fn place(&self, number: u64) -> Option<usize>
        ensures { MatchOption result (IsElsewhere self.now.by_slot.items number) (IsPlaceOf self.now.by_slot.items number) }
    {
        if number % 2 != 0 {
            return None;
        }
        let place = (number / 2) as usize;
        if place >= self.by_slot.len() {
            return None;
        }
        Some(place)
    }
}

/// Puts an index under the number, unless one stands there, which is answered.
fn put_in(
    others: &mut HashMap<u64, u32>,
    number: u64,
    index: u32,
) -> Result<Option<u32>, OutOfMemory>
    ensures had { IfOk result (λ had. had ≡ get nat_eq others.old number) }
    ensures put { IfOk result (λ had. MatchOption had (IsOneMore (get nat_eq others.old) (get nat_eq others.new) number index) (λ _. AreTheSame (get nat_eq others.old) (get nat_eq others.new))) }
    ensures err { OnErr result (AreTheSame (get nat_eq others.old) (get nat_eq others.new)) }
{
    // So most darts, which are new, are looked up once.
    let had = others.insert(number, index)?;
    if let Some(before) = had {
        others.insert(number, before)?;
    }
    Ok(had)
}
