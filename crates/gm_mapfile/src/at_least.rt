//! What a text stands for, or else which fault is its first: no text falls between the definitions.
ghost use Rattle.std.specs.Prelude.{◌⊎◌, ℕ, List};
ghost use Rattle.gm_mapfile.specs.MapText.{ListedMap, MapText};
ghost use Rattle.gm_mapfile.specs.MapFaults.{TextFault, IsFirstFault};
ghost use Rattle.gm_mapfile.specs.declared.version.MapVersion.{MapVersion};

/// A text stands for a map, or it has a first fault: of grammar, limits or declarations, or else of
/// names, or else of the laws of a map.
pub fn a_text_stands_for_a_map_or_has_a_first_fault()
    ensures { (text : List ℕ) → ((version : MapVersion) × (map : ListedMap) × MapText text version map) ⊎ ((fault : TextFault) × IsFirstFault text fault) }
{}
