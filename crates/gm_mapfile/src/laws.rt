//! What holds of the texts of maps, whoever reads or prints them.
ghost use Rattle.std.specs.Prelude.{◌≡◌, ℕ, List};
ghost use Rattle.gm_mapfile.specs.MapText.{ListedMap, MapText, IsCanonicalTextOf, StandsForNoMap, canonical};
ghost use Rattle.gm_mapfile.specs.MapFaults.{TextFault, IsFirstFault};
ghost use Rattle.gm_mapfile.specs.inner.Printing.{IsPrintable, renumbered};
ghost use Rattle.gm_mapfile.specs.declared.version.MapVersion.{MapVersion};

/// A text stands for one map at most, in one version.
pub fn one_map_at_most()
    ensures { (text : List ℕ) (version other : MapVersion) (map second : ListedMap) → MapText text version map → MapText text other second → (version ≡ other) × (map ≡ second) }
{}

/// The canonical text, in either version, of the map that a text stands for stands for that map
/// too. In the first version the next name is the least above all names.
pub fn what_is_printed_is_read_again()
    ensures { (text : List ℕ) (read printed : MapVersion) (map : ListedMap) → MapText text read map → MapText (canonical printed map) printed (renumbered printed map) }
{}

/// The canonical text of a map within the limits stands for the map. In the first version the next
/// name is the least above all names.
pub fn a_canonical_text_stands_for_its_map()
    ensures { (version : MapVersion) (map : ListedMap) (bytes : List ℕ) → IsPrintable map → IsCanonicalTextOf version map bytes → MapText bytes version (renumbered version map) }
{}

/// A text has one first fault at most, whatever its kind: of grammar, limits, declarations, names
/// or laws. So whoever answers a first fault answers the only one. A text that has one stands for
/// no map, so no text is both a map and refused for a fault.
pub fn one_first_fault_at_most()
    ensures one { (text : List ℕ) (fault other : TextFault) → IsFirstFault text fault → IsFirstFault text other → fault ≡ other }
    ensures no_map { (text : List ℕ) (fault : TextFault) → IsFirstFault text fault → StandsForNoMap text }
{}
