//! That each map has such leads: a law over the definitions, and no call of this crate.

ghost use Rattle.std.specs.Prelude.{ℕ, ◌≤◌, List, IsTrue};
ghost use Rattle.gm_model.specs.declared.word.Mask.{Mask};
ghost use Rattle.gm_model.specs.Labels.{has};
ghost use Rattle.gm_model.specs.Maps.{Map, IsSound, dimension};
ghost use Rattle.gm_model.specs.Runs.{AreLeads};

/// A sound map has, for each set of its labels, the list of the least darts of the orbits over
/// them, ascending. The law is the clause; the function does nothing.
pub fn maps_have_leads()
    ensures { (map : Map) (mask : Mask) → IsSound map → ((i : ℕ) → IsTrue (has mask i) → i ≤ dimension map) → (leads : List ℕ) × AreLeads map mask leads }
{}
