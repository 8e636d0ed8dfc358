//! What is a law over the definitions, and no call of the arena.

ghost use Rattle.gm_arena.specs.inner.ArenaAsMap.{as_map};
ghost use Rattle.gm_arena.specs.inner.ArenaMap.{ArenaMap};
ghost use Rattle.gm_arena.specs.inner.Lawful.{IsLawful};
ghost use Rattle.gm_model.specs.Maps.{IsMap};

/// What an arena holds is a map: each name lies below the next, and each value is one of its
/// embedding's kind. The law is the clause; the function does nothing.
pub fn what_is_held_is_a_map()
    ensures { (m : ArenaMap) → IsLawful m → IsMap (as_map m) }
{}
