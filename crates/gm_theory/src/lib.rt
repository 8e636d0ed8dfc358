//! Why conditions that are read off a rule alone make every application lawful: the laws and the
//! theorem, over the definitions of `gm_model`. The crate has no code that runs.
#![tactic(auto)]

mod outcomes;
mod readings;
mod values;

ghost use Rattle.gm_theory.specs.inner.Theorem.{RulesKeepGeneralisedMaps};

pub use outcomes::{
    applications_have_budgets, applications_have_outcomes, one_match_at_most, scripts_have_runs,
};
pub use readings::{readings_are_determined, values_have_their_kinds};
pub use values::{applications_keep_sound_maps, keeps_well_embedded_maps};

/// For every generalised map of dimension 1 to 7, every accepted rule and every match, the
/// unfolding exists, is determined, and is a generalised map with the next name above its names.
/// The theorem is the clause; the function does nothing.
pub fn keeps_generalised_maps()
    ensures { RulesKeepGeneralisedMaps }
{}
