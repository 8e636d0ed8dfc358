//! Counting orbits: a dart that is in no orbit that was met so far is the least of its own.

ghost use Rattle.std.specs.Prelude.{◌≡◌, ℕ, List, ◌+◌, ◌*◌, ◌<◌, ◌≤◌, [], ◌∷◌, ◌++◌, length, replicate, slice_index_or, false, None, All, IfOk, IfSome, IsTrue};
ghost use Rattle.std.specs.FinMap.{keys};
ghost use Rattle.std.specs.List.{Contains};
ghost use Rattle.gm_model.specs.Labels.{has};
ghost use Rattle.gm_model.specs.declared.word.Letter.TheVariants.{At};
ghost use Rattle.gm_model.specs.Maps.{IsDart, IsGeneralised};
ghost use Rattle.gm_model.specs.Orbits.{Labels, HasNoRepeats, HasOrbits};
ghost use Rattle.gm_arena.specs.declared.slot.Slot.{Slot};
ghost use Rattle.gm_arena.specs.inner.ArenaAsMap.{as_map};
ghost use Rattle.gm_arena.specs.inner.ArenaMap.{ArenaMap, IsLiveSlot, alpha, name_at};
ghost use Rattle.gm_arena.specs.inner.Lawful.{IsLawful};
ghost use Rattle.gm_walk.specs.inner.Room.{Fits};
ghost use Rattle.gm_walk.specs.inner.Seen.{HasFollowed, HasGrownBy, HasLettersOf, HasMet, HasSeen, IsClosed, seen_count};
ghost use Rattle.gm_walk.specs.inner.Walks.{IsWord, letters_of, names_of, AreLive};
ghost use Rattle.gm_model.specs.declared.limit.TheConstants.{MOST_DIMENSION};

use crate::scratch::Scratch;
use crate::walk::{walk_word, word_of};
use gm_arena::{Arena, Slot, Steps};
use gm_model::{Letter, Mask, OutOfMemory, Word};
use std::alloc::Global;
use std::sync::ledger::Ledger;

/// How many orbits over the labels of the mask the live darts have. The scratch keeps its room, and
/// gets more where it walks: an orbit over two labels needs none.
pub fn orbits<L: Ledger>(
    alloc: Global,
    arena: &Arena,
    mask: Mask,
    scratch: &mut Scratch,
    steps: &mut Steps<L>,
) -> Result<u32, OutOfMemory>
    requires generalised { IsGeneralised (as_map arena.now) }
    requires mask { (label : ℕ) → label ≤ MOST_DIMENSION → IsTrue (has mask label) → label ≤ arena.now.schema.dim }
    ensures orbits { IfOk result (HasOrbits (IsDart (as_map arena.now)) (as_map arena.now).alpha (has mask)) }
    ensures cost { steps.new ≤ steps.old + 8 * (arena.now.schema.dim + 1) * arena.now.count }
    ensures least { steps.old ≤ steps.new }
    ensures room { scratch.old.bound ≤ scratch.new.bound }
{
    let pair = pair_of(&word_of(mask));
    if pair.is_none() {
        scratch.fit(arena)?;
    }
    // One byte for each slot, so that a count touches little memory.
    let mut seen = none_seen(alloc, arena.bound())?;
    count_darts(alloc, arena, mask, pair, &mut seen, scratch, steps)
}

/// The same, where no slot was seen yet and the scratch has the room for a walk.
#[inline]
fn count_darts<L: Ledger>(
    alloc: Global,
    arena: &Arena,
    mask: Mask,
    pair: Option<(u8, u8)>,
    seen: &mut [bool],
    scratch: &mut Scratch,
    steps: &mut Steps<L>,
) -> Result<u32, OutOfMemory>
    requires generalised { IsGeneralised (as_map arena.now) }
    requires mask { (label : ℕ) → IsTrue (has mask label) → label ≤ arena.now.schema.dim }
    requires pair { IfSome pair (λ labels. letters_of mask ≡ At labels.0 ∷ At labels.1 ∷ []) }
    requires seen { seen.old ≡ replicate arena.now.bound false }
    requires fits { pair ≡ None → Fits scratch.old arena.now }
    ensures orbits { IfOk result (HasOrbits (IsDart (as_map arena.now)) (as_map arena.now).alpha (has mask)) }
    ensures cost { steps.new ≤ steps.old + 8 * (arena.now.schema.dim + 1) * arena.now.count }
    ensures least { steps.old ≤ steps.new }
    ensures bound { scratch.new.bound ≡ scratch.old.bound }
{
    if arena.is_dense() {
        return Ok(count_slots(arena, mask, pair, seen, scratch, steps));
    }
    let names = arena.names(alloc, steps)?;
    Ok(count_names(arena, &names, mask, pair, seen, scratch, steps))
}

/// For each slot whether it was seen: none was.
pub fn none_seen(alloc: Global, slots: usize) -> Result<Vec<bool>, OutOfMemory>
    ensures { IfOk result (λ seen. seen.items ≡ replicate slots false) }
{
    Ok(vec![in alloc; false; slots]?)
}

/// How many orbits over the labels of the mask the live darts have, where each slot has one and none
/// was seen yet. It needs no names.
fn count_slots<L: Ledger>(
    arena: &Arena,
    mask: Mask,
    pair: Option<(u8, u8)>,
    seen: &mut [bool],
    scratch: &mut Scratch,
    steps: &mut Steps<L>,
) -> u32
    requires generalised { IsGeneralised (as_map arena.now) }
    requires live { (at : ℕ) → at < arena.now.bound → IsLiveSlot arena.now at }
    requires count { arena.now.bound ≡ arena.now.count }
    requires mask { (label : ℕ) → IsTrue (has mask label) → label ≤ arena.now.schema.dim }
    requires pair { IfSome pair (λ labels. letters_of mask ≡ At labels.0 ∷ At labels.1 ∷ []) }
    requires seen { seen.old ≡ replicate arena.now.bound false }
    requires fits { pair ≡ None → Fits scratch.old arena.now }
    ensures orbits { HasOrbits (IsDart (as_map arena.now)) (as_map arena.now).alpha (has mask) result }
    ensures cost { steps.new ≤ steps.old + (4 * (arena.now.schema.dim + 1) + 1) * arena.now.count }
    ensures least { steps.old ≤ steps.new }
    ensures bound { scratch.new.bound ≡ scratch.old.bound }
{
    let word = word_of(mask);
    let mut orbits = 0;
    for at in 0..arena.bound() {
        let slot = Slot { at: at as u32 };
        orbits += see_new(arena, slot, &word, pair, seen, scratch, steps);
    }
    orbits
}

/// How many orbits over the labels of the mask the live darts have, of which these are the names,
/// where no slot was seen yet.
fn count_names<L: Ledger>(
    arena: &Arena,
    names: &[u32],
    mask: Mask,
    pair: Option<(u8, u8)>,
    seen: &mut [bool],
    scratch: &mut Scratch,
    steps: &mut Steps<L>,
) -> u32
    requires generalised { IsGeneralised (as_map arena.now) }
    requires names { names.now ≡ keys arena.now.darts }
    requires mask { (label : ℕ) → IsTrue (has mask label) → label ≤ arena.now.schema.dim }
    requires pair { IfSome pair (λ labels. letters_of mask ≡ At labels.0 ∷ At labels.1 ∷ []) }
    requires seen { seen.old ≡ replicate arena.now.bound false }
    requires fits { pair ≡ None → Fits scratch.old arena.now }
    ensures orbits { HasOrbits (IsDart (as_map arena.now)) (as_map arena.now).alpha (has mask) result }
    ensures cost { steps.new ≤ steps.old + (4 * (arena.now.schema.dim + 1) + 1) * arena.now.count }
    ensures least { steps.old ≤ steps.new }
    ensures bound { scratch.new.bound ≡ scratch.old.bound }
{
    prove!(names.len() == arena.count() as usize);
    let word = word_of(mask);
    let mut orbits = 0;
    for name in names {
        let slot = arena.slot_of(*name, steps).unwrap();
        orbits += see_new(arena, slot, &word, pair, seen, scratch, steps);
    }
    orbits
}

/// Sees the orbit of a slot along the labels of the word, and answers how many orbits more were met:
/// one, or none where the slot was seen. Where the labels are two, `pair` has them.
#[inline]
fn see_new<L: Ledger>(
    arena: &Arena,
    from: Slot,
    word: &Word,
    pair: Option<(u8, u8)>,
    seen: &mut [bool],
    scratch: &mut Scratch,
    steps: &mut Steps<L>,
) -> u32
    requires generalised { IsGeneralised (as_map arena.now) }
    requires lawful { IsLawful arena.now }
    requires from { IsLiveSlot arena.now from.at }
    requires word { IsWord arena.now.schema.dim word.now }
    requires pair { IfSome pair (λ labels. word.now ≡ At labels.0 ∷ At labels.1 ∷ []) }
    requires long { length seen.old ≡ arena.now.bound }
    requires fits { pair ≡ None → Fits scratch.old arena.now }
    ensures met { (o : Labels) (before : List ℕ) (count : ℕ) → HasLettersOf o word.now → ((label : ℕ) → IsTrue (o label) → label ≤ arena.now.schema.dim) → HasSeen arena.now seen.old before → HasMet arena.now o word.now before count → (after : List ℕ) × HasSeen arena.now seen.new after × HasMet arena.now o word.now after (count + result) × ((d : ℕ) → Contains before d → Contains after d) × Contains after (name_at arena.now from.at) }
    ensures one { result ≤ 1 }
    ensures cost { (before : List ℕ) → HasSeen arena.now seen.old before → IsClosed arena.now word.now before → steps.new + 4 * (arena.now.schema.dim + 1) * seen_count seen.old ≤ steps.old + 4 * (arena.now.schema.dim + 1) * seen_count seen.new }
    ensures least { steps.old ≤ steps.new }
    ensures long { length seen.new ≡ length seen.old }
    ensures bound { scratch.new.bound ≡ scratch.old.bound }
{
    // An orbit that was met was seen whole, so its other darts aren't walked from again.
    if seen[from.at as usize] {
        return 0;
    }
    see_orbit(arena, from, word, pair, seen, scratch, steps);
    1
}

/// Sees the orbit of a slot that wasn't seen, along the labels of the word. Where these are two,
/// `pair` has them.
pub fn see_orbit<L: Ledger>(
    arena: &Arena,
    from: Slot,
    word: &Word,
    pair: Option<(u8, u8)>,
    seen: &mut [bool],
    scratch: &mut Scratch,
    steps: &mut Steps<L>,
)
    requires generalised { IsGeneralised (as_map arena.now) }
    requires lawful { IsLawful arena.now }
    requires from { IsLiveSlot arena.now from.at }
    requires word { IsWord arena.now.schema.dim word.now }
    requires pair { IfSome pair (λ labels. word.now ≡ At labels.0 ∷ At labels.1 ∷ []) }
    requires long { length seen.old ≡ arena.now.bound }
    requires unseen { slice_index_or seen.old from.at false ≡ false }
    requires fits { pair ≡ None → Fits scratch.old arena.now }
    ensures seen { (before : List ℕ) → HasSeen arena.now seen.old before → IsClosed arena.now word.now before → (after : List ℕ) × HasSeen arena.now seen.new after × HasGrownBy arena.now word.now (name_at arena.now from.at) before after }
    ensures cost { (before : List ℕ) → HasSeen arena.now seen.old before → IsClosed arena.now word.now before → steps.new + 4 * (arena.now.schema.dim + 1) * seen_count seen.old ≤ steps.old + 4 * (arena.now.schema.dim + 1) * seen_count seen.new }
    ensures least { steps.old ≤ steps.new }
    ensures long { length seen.new ≡ length seen.old }
    ensures bound { scratch.new.bound ≡ scratch.old.bound }
{
    match pair {
        Some((first, second)) => see_ring(arena, from, first, second, seen, steps),
        None => see_walk(arena, from, word, seen, scratch, steps),
    }
}

/// The two labels of a word that has two letters and no more.
pub fn pair_of(word: &Word) -> Option<(u8, u8)>
    ensures { IfSome result (λ labels. word.now ≡ At labels.0 ∷ At labels.1 ∷ []) }
{
    if word.len() != 2 {
        return None;
    }
    match (word.letter(0), word.letter(1)) {
        (Letter::At(first), Letter::At(second)) => Some((first, second)),
        _ => None,
    }
}

/// Sees the orbit of a slot that wasn't seen, along two labels: it is a path or a ring, of which the
/// slot is one place, so it is followed along its two ends.
fn see_ring<L: Ledger>(
    arena: &Arena,
    from: Slot,
    first: u8,
    second: u8,
    seen: &mut [bool],
    steps: &mut Steps<L>,
)
    requires generalised { IsGeneralised (as_map arena.now) }
    requires lawful { IsLawful arena.now }
    requires from { IsLiveSlot arena.now from.at }
    requires first { first ≤ arena.now.schema.dim }
    requires second { second ≤ arena.now.schema.dim }
    requires long { length seen.old ≡ arena.now.bound }
    requires unseen { slice_index_or seen.old from.at false ≡ false }
    ensures seen { (before : List ℕ) → HasSeen arena.now seen.old before → (after : List ℕ) × HasSeen arena.now seen.new after × HasGrownBy arena.now (At first ∷ At second ∷ []) (name_at arena.now from.at) before after }
    ensures cost { steps.new + 4 * (arena.now.schema.dim + 1) * seen_count seen.old ≤ steps.old + 4 * (arena.now.schema.dim + 1) * seen_count seen.new }
    ensures least { steps.old ≤ steps.new }
    ensures long { length seen.new ≡ length seen.old }
{
    prove!((from.at as usize) < arena.bound());
    seen[from.at as usize] = true;
    follow(arena, from, first, second, seen, steps);
    follow(arena, from, second, first, seen, steps);
}

/// Sees the slots to which two labels lead in turns from a slot that was seen, the first of them
/// first, up to one that was seen already.
fn follow<L: Ledger>(
    arena: &Arena,
    from: Slot,
    first: u8,
    second: u8,
    seen: &mut [bool],
    steps: &mut Steps<L>,
)
    requires generalised { IsGeneralised (as_map arena.now) }
    requires lawful { IsLawful arena.now }
    requires from { IsLiveSlot arena.now from.at }
    requires first { first ≤ arena.now.schema.dim }
    requires second { second ≤ arena.now.schema.dim }
    requires long { length seen.old ≡ arena.now.bound }
    ensures followed { (before : List ℕ) → HasSeen arena.now seen.old before → Contains before (name_at arena.now from.at) → (after : List ℕ) × HasSeen arena.now seen.new after × HasFollowed arena.now first second (name_at arena.now from.at) before after }
    ensures long { length seen.new ≡ length seen.old }
    ensures more { seen_count seen.old ≤ seen_count seen.new }
    ensures cost { steps.new + seen_count seen.old ≡ steps.old + 1 + seen_count seen.new }
{
    let (mut label, mut other) = (second, first);
    let mut next = arena.alpha(from, first, steps);
    while !seen[next.at as usize] {
        seen[next.at as usize] = true;
        // Where one label led to, only the other leads on.
        next = arena.alpha(next, label, steps);
        (label, other) = (other, label);
    }
}

/// Sees the orbit of a slot that wasn't seen, along the labels of the word. The scratch keeps its room.
fn see_walk<L: Ledger>(
    arena: &Arena,
    from: Slot,
    word: &Word,
    seen: &mut [bool],
    scratch: &mut Scratch,
    steps: &mut Steps<L>,
)
    requires generalised { IsGeneralised (as_map arena.now) }
    requires lawful { IsLawful arena.now }
    requires from { IsLiveSlot arena.now from.at }
    requires word { IsWord arena.now.schema.dim word.now }
    requires long { length seen.old ≡ arena.now.bound }
    requires unseen { slice_index_or seen.old from.at false ≡ false }
    requires fits { Fits scratch.old arena.now }
    ensures seen { (before : List ℕ) → HasSeen arena.now seen.old before → IsClosed arena.now word.now before → (after : List ℕ) × HasSeen arena.now seen.new after × HasGrownBy arena.now word.now (name_at arena.now from.at) before after }
    ensures cost { (before : List ℕ) → HasSeen arena.now seen.old before → IsClosed arena.now word.now before → steps.new + 4 * (arena.now.schema.dim + 1) * seen_count seen.old ≤ steps.old + 4 * (arena.now.schema.dim + 1) * seen_count seen.new }
    ensures least { steps.old ≤ steps.new }
    ensures long { length seen.new ≡ length seen.old }
    ensures bound { scratch.new.bound ≡ scratch.old.bound }
{
    let walk = walk_word(arena, from, word, scratch, steps);
    see_slots(walk.slots(), seen);
}

/// Marks the slots as seen.
fn see_slots(slots: &[Slot], seen: &mut [bool])
    requires within { All (λ (slot : Slot). slot.at < length seen.old) slots.now }
    ensures seen { (m : ArenaMap) (before : List ℕ) → IsLawful m → AreLive m slots.now → HasSeen m seen.old before → HasNoRepeats (before ++ names_of m slots.now) → HasSeen m seen.new (before ++ names_of m slots.now) }
    ensures long { length seen.new ≡ length seen.old }
{
    for slot in slots {
        seen[slot.at as usize] = true;
    }
}
