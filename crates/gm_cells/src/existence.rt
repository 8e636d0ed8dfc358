//! That each map has these numbers and an orientation: laws over the definitions, and no call of
//! this crate.

ghost use Rattle.std.specs.Prelude.{◌<◌, ℕ};
ghost use Rattle.gm_cells.specs.declared.counts.Counts.{Counts};
ghost use Rattle.gm_cells.specs.declared.orientation.Orientation.{Orientation};
ghost use Rattle.gm_cells.specs.Cells.{AreCounts};
ghost use Rattle.gm_cells.specs.Colours.{IsOrientation};
ghost use Rattle.gm_model.specs.Maps.{Map, IsDart, IsGeneralised};

/// A generalised map whose names lie below its next name has its numbers: of darts, of cells and
/// free darts for each label, and of components. The law is the clause; the function does nothing.
pub fn maps_have_counts()
    ensures { (map : Map) → ((d : ℕ) → IsDart map d → d < map.next) → IsGeneralised map → (counts : Counts) × AreCounts map counts }
{}

/// Such a map has an orientation: the darts of the first colour, ascending, or the first component
/// without two colours and its least odd walk. The law is the clause; the function does nothing.
pub fn maps_have_orientations()
    ensures { (map : Map) → ((d : ℕ) → IsDart map d → d < map.next) → IsGeneralised map → (answer : Orientation) × IsOrientation map answer }
{}
