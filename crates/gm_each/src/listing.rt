//! In ascending order of their names, a dart that is in no orbit that was met so far is the least
//! of its own.

ghost use Rattle.std.specs.Prelude.{◌≡◌, ℕ, ◌+◌, ◌*◌, ◌<◌, ◌≤◌, [], ◌∷◌, replicate, false, None, IfOk, IfSome, IsTrue};
ghost use Rattle.std.specs.FinMap.{keys};
ghost use Rattle.gm_model.specs.declared.word.Letter.TheVariants.{At};
ghost use Rattle.gm_model.specs.Labels.{has};
ghost use Rattle.gm_model.specs.Maps.{IsGeneralised};
ghost use Rattle.gm_model.specs.Runs.{AreLeads};
ghost use Rattle.gm_arena.specs.inner.ArenaAsMap.{as_map};
ghost use Rattle.gm_walk.specs.inner.Room.{Fits};
ghost use Rattle.gm_walk.specs.inner.Walks.{letters_of};
ghost use Rattle.gm_model.specs.declared.limit.TheConstants.{MOST_DIMENSION};

use gm_arena::{Arena, Steps};
use gm_model::{Mask, OutOfMemory};
use gm_walk::{Scratch, none_seen, pair_of, see_orbit, word_of};
use std::alloc::Global;
use std::sync::ledger::Ledger;

/// The least dart of each orbit over the labels of the mask, ascending by name. The scratch keeps
/// its room, and gets more where it walks: an orbit over two labels needs none.
pub fn leads<L: Ledger>(
    alloc: Global,
    arena: &Arena,
    mask: Mask,
    scratch: &mut Scratch,
    steps: &mut Steps<L>,
) -> Result<Vec<u32>, OutOfMemory>
    requires generalised { IsGeneralised (as_map arena.now) }
    requires mask { (label : ℕ) → label ≤ MOST_DIMENSION → IsTrue (has mask label) → label ≤ arena.now.schema.dim }
    ensures leads { IfOk result (λ leads. AreLeads (as_map arena.now) mask leads.items) }
    ensures cost { steps.new ≤ steps.old + 8 * (arena.now.schema.dim + 1) * arena.now.count }
    ensures least { steps.old ≤ steps.new }
    ensures room { scratch.old.bound ≤ scratch.new.bound }
{
    let pair = pair_of(&word_of(mask));
    if pair.is_none() {
        scratch.fit(arena)?;
    }
    let mut seen = none_seen(alloc, arena.bound())?;
    let names = arena.names(alloc, steps)?;
    leads_among(alloc, arena, &names, mask, pair, &mut seen, scratch, steps)
}

/// The least dart of each orbit over the labels of the mask, of which `pair` has the labels where
/// they are two. The names are those of the live darts, and no slot was seen yet.
fn leads_among<L: Ledger>(
    alloc: Global,
    arena: &Arena,
    names: &[u32],
    mask: Mask,
    pair: Option<(u8, u8)>,
    seen: &mut [bool],
    scratch: &mut Scratch,
    steps: &mut Steps<L>,
) -> Result<Vec<u32>, OutOfMemory>
    requires generalised { IsGeneralised (as_map arena.now) }
    requires names { names.now ≡ keys arena.now.darts }
    requires mask { (label : ℕ) → IsTrue (has mask label) → label ≤ arena.now.schema.dim }
    requires pair { IfSome pair (λ labels. letters_of mask ≡ At labels.0 ∷ At labels.1 ∷ []) }
    requires seen { seen.old ≡ replicate arena.now.bound false }
    requires fits { pair ≡ None → Fits scratch.old arena.now }
    ensures leads { IfOk result (λ leads. AreLeads (as_map arena.now) mask leads.items) }
    ensures cost { steps.new ≤ steps.old + (4 * (arena.now.schema.dim + 1) + 1) * arena.now.count }
    ensures least { steps.old ≤ steps.new }
    ensures bound { scratch.new.bound ≡ scratch.old.bound }
{
    prove!(names.len() == arena.count() as usize);
    let word = word_of(mask);
    let mut leads = Vec::new(alloc);
    for name in names {
        let slot = arena.slot_of(*name, steps).unwrap();
        // An orbit that was met was seen whole, from its least dart on.
        if !seen[slot.at as usize] {
            see_orbit(arena, slot, &word, pair, seen, scratch, steps);
            leads.push(*name)?;
        }
    }
    Ok(leads)
}
