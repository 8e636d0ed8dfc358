//! What is a law over the definitions, and no call of this crate.

ghost use Rattle.std.specs.Prelude.{◌≡◌, ◌<◌, ℕ, ◌⊎◌, Bool, List};
ghost use Rattle.gm_cells.specs.Colours.{IsOddWalk, IsOrientation, IsTwoColouring};
ghost use Rattle.gm_cells.specs.declared.orientation.Orientation.{Orientation};
ghost use Rattle.gm_model.specs.Maps.{Map, IsDart, IsGeneralised, dimension};

/// A generalised map whose names lie below its next name has two colours or an odd walk. The law is the clause; the function does nothing.
pub fn two_colours_or_an_odd_walk()
    ensures { (map : Map) → ((d : ℕ) → IsDart map d → d < map.next) → IsGeneralised map →
        ((colour : ℕ → Bool) × IsTwoColouring (dimension map) map.alpha (IsDart map) colour)
        ⊎ ((d : ℕ) × (labels : List ℕ) × IsDart map d × IsOddWalk (dimension map) map.alpha d labels) }
{}

/// A generalised map never has two colours and an odd walk. The law is the clause; the function does
/// nothing.
pub fn never_two_colours_and_an_odd_walk()
    ensures { (map : Map) (colour : ℕ → Bool) (d : ℕ) (labels : List ℕ) → IsGeneralised map → IsTwoColouring (dimension map) map.alpha (IsDart map) colour → IsDart map d → IsOddWalk (dimension map) map.alpha d labels → ⊥ }
{}

/// A generalised map has one orientation at most: the darts of the first colour, or the odd walk.
/// The law is the clause; the function does nothing.
pub fn one_orientation_at_most()
    ensures { (map : Map) (answer other : Orientation) → IsGeneralised map → IsOrientation map answer → IsOrientation map other → answer ≡ other }
{}
