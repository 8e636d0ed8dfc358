//! The theorem on values, and what both halves say of applications.

ghost use Rattle.gm_theory.specs.inner.Values.{RulesKeepWellEmbeddedMaps, ApplicationsKeepSoundMaps};

/// For every generalised and well embedded map of dimension 1 to 7, every accepted rule and every
/// match: where each deciding instance has a value, the unfolding has new values; no others are
/// the new values; and with them it is well embedded. The theorem is the clause; the function does
/// nothing.
pub fn keeps_well_embedded_maps()
    ensures { RulesKeepWellEmbeddedMaps }
{}

/// Where the application of an accepted rule to a sound map is done, with a value of its kind for
/// each parameter, its result is sound: a generalised map, well embedded, with each value in the
/// range of its kind and the next name above its names. So the law holds for each line of a script
/// in turn. It follows from the two halves of the theorem.
pub fn applications_keep_sound_maps()
    ensures { ApplicationsKeepSoundMaps }
{}
