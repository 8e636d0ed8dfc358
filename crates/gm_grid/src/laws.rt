//! What is a law over the definitions of a grid and of its book, whoever makes them.
ghost use Rattle.std.specs.Prelude.{◌≤◌, ℕ};
ghost use Rattle.gm_model.specs.Acceptance.{IsAccepted};
ghost use Rattle.gm_model.specs.Maps.{Map, IsSchema, IsSound};
ghost use Rattle.gm_model.specs.Structure.{IsWithinLimits};
ghost use Rattle.gm_grid.specs.GridBook.{triangulation};
ghost use Rattle.gm_grid.specs.GridMap.{IsGridMap, grid_schema};

/// A map that is a grid of at most 100 rows is sound: generalised, with values of its embedding's
/// kind, and one point on each orbit of it.
pub fn grids_are_sound()
    ensures { (m : ℕ) (map : Map) → m ≤ 100 → IsGridMap m map → IsSound map }
{}

/// There is a grid of each number of rows, so what is said of each of them is said of one.
pub fn grids_exist()
    ensures { (m : ℕ) → (map : Map) × IsGridMap m map }
{}

/// The rule of a grid's book is accepted, and lies within the limits of a rule: so it has a plan.
pub fn the_rule_is_accepted()
    ensures declared { IsSchema grid_schema }
    ensures limits { IsWithinLimits triangulation }
    ensures accepted { IsAccepted grid_schema triangulation }
{}
