//! Worked examples: the premises of the theorem can be met, each condition refuses some rule, and
//! without the condition on squares a rule breaks a map. Each function does nothing; what it shows
//! is its clauses.

ghost use Rattle.gm_model.specs.declared.rule.RuleFault.TheVariants as faults;
ghost use Rattle.gm_model.specs.Acceptance.{IsFault};
ghost use Rattle.gm_model.specs.Applications.{IsDone, IsRefused, IsBudget, NoDart, Arc, Same, PreNoValue, PreFalse, FullDarts, FullNames, NoValue};
ghost use Rattle.gm_model.specs.declared.value.Value.TheVariants as values;
ghost use Rattle.gm_model.specs.Expressions.{Reading, HasNoValue};
ghost use Rattle.gm_model.specs.Kinds.{AreGoodParams, IsTyped};
ghost use Rattle.gm_model.specs.Maps.{IsMap, IsSchema, IsWellEmbedded};
ghost use Rattle.gm_model.specs.Matches.{Placement, IsMatch};
ghost use Rattle.gm_model.specs.Orbits.{IsWalk};
ghost use Rattle.gm_model.specs.Structure.{IsInRange};
ghost use Rattle.gm_model.specs.Trees.{Number, Truth};
ghost use Rattle.gm_theory.specs.inner.Examples.{IsLawfulExample, IsWorkedExample, BreaksMaps, planar, polygonal, triangulation, square, on_square, twisted, four_triangles, triangulating, on_edge, two_edges, splitting, relabelled, pointless, hookless, unfinished, miscounted, merging, contradicting, turning};
ghost use Rattle.gm_theory.specs.inner.ExamplesOutcomes.{drop_at, merging_alone, split_if, valueless, crowded, late, pair_on, spoiling_square, torn, overdue, misnamed, astray, setting, outsized, too_great};
ghost use Rattle.std.specs.Prelude.{[], ◌∷◌, false, pos, true};

use gm_theory::{
    applications_have_budgets, applications_have_outcomes, applications_keep_sound_maps,
    keeps_generalised_maps, keeps_well_embedded_maps, readings_are_determined, scripts_have_runs,
    values_have_their_kinds,
};

/// The triangulation of a square face of eight darts gives four triangles, with the new vertex in
/// the centre.
fn triangulates_a_square()
    ensures worked { IsWorkedExample triangulating on_square four_triangles }
    ensures again { IsLawfulExample four_triangles }
    ensures done { IsDone triangulating four_triangles 16 0 }
    ensures budget { IsBudget triangulating 3528 }
{}

/// The split of an edge gives two edges.
fn splits_an_edge()
    ensures { IsWorkedExample splitting on_edge two_edges }
{}

/// Each condition refuses a rule, with its first fault.
fn refuses_rules()
    ensures hooks { IsFault planar hookless faults.Hooks }
    ensures arcs { IsFault planar unfinished (faults.ArcMissing 1 2) }
    ensures squares { IsFault planar relabelled (faults.Square 1 0 2) }
    ensures no_value { IsFault planar pointless (faults.NoValue 0 2) }
    ensures twice { IsFault polygonal contradicting (faults.SetTwice 0 0 1) }
    ensures merge { IsFault polygonal merging (faults.Merge 0 0 1) }
    ensures merge_along { IsFault polygonal turning (faults.MergeAlong 0 0 0) }
    ensures kinds { IsTyped planar miscounted → ⊥ }
{}

/// Each cause refuses an application.
fn refuses_applications()
    ensures no_dart { IsRefused (drop_at 99) (NoDart 0) }
    ensures arc { IsRefused (drop_at 0) (Arc 0 2 2) }
    ensures same { IsRefused merging_alone (Same 0 0 1 0) }
    ensures pre_no_value { IsRefused (split_if valueless) PreNoValue }
    ensures pre_false { IsRefused (split_if (Truth false)) PreFalse }
    ensures full_darts { IsRefused (pair_on crowded) (FullDarts 1048575 2) }
    ensures full_names { IsRefused (pair_on late) (FullNames 16777215 2) }
    ensures no_value { IsRefused spoiling_square (NoValue 0 0) }
{}

/// What lacks a property: a walk in another order, a vertex of two points, a next name that is
/// taken, a reserved name, a label past the dimension, a hook where there is no dart, and a match
/// without a dart for its hook.
fn tells_apart()
    ensures order { IsWalk (λ d l. square.alpha l d) 2 0 (0 ∷ 7 ∷ 1 ∷ 6 ∷ 2 ∷ 5 ∷ 3 ∷ 4 ∷ []) → ⊥ }
    ensures points { IsWellEmbedded torn → ⊥ }
    ensures next { IsMap overdue → ⊥ }
    ensures name { IsSchema misnamed → ⊥ }
    ensures label { IsInRange planar astray → ⊥ }
    ensures hook { (place : Placement) → IsMatch square triangulation (99 ∷ []) place → ⊥ }
    ensures count { (place : Placement) → IsMatch square triangulation (0 ∷ 1 ∷ []) place → ⊥ }
{}

/// Values out of their kind: a truth for a parameter that is a number, and a number past the
/// greatest, which no map has on a dart and no expression gives.
#[cfg(test)]
fn refuses_values()
    ensures param { AreGoodParams setting (values.Bool true ∷ []) → ⊥ }
    ensures number { IsMap outsized → ⊥ }
    ensures literal { (reading : Reading) → HasNoValue reading (Number (pos too_great)) }
{}

/// A rule that the condition on squares alone refuses, and a square face that it would break.
fn needs_squares()
    ensures { BreaksMaps square relabelled (0 ∷ []) on_square twisted }
{}

#[test]
fn examples_stand() {
    triangulates_a_square();
    splits_an_edge();
    refuses_rules();
    refuses_applications();
    tells_apart();
    refuses_values();
    needs_squares();
    keeps_generalised_maps();
    keeps_well_embedded_maps();
    applications_keep_sound_maps();
    values_have_their_kinds();
    readings_are_determined();
    applications_have_outcomes();
    applications_have_budgets();
    scripts_have_runs();
}
