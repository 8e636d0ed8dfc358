//! What is a law over the definitions, and no call of this crate.

ghost use Rattle.std.specs.Prelude.{◌≡◌, ◌≤◌, ◌⊎◌, ◌↔◌, ℕ};
ghost use Rattle.gm_dual.specs.Duals.{IsOfMatch, dual_application, dual_map, dual_rule};
ghost use Rattle.gm_model.specs.Acceptance.{IsAccepted};
ghost use Rattle.gm_model.specs.Applications.{Application, Cause, IsBudget, IsRefused};
ghost use Rattle.gm_model.specs.Kinds.{IsTyped};
ghost use Rattle.gm_model.specs.Maps.{IsSchema, IsSound, Map};
ghost use Rattle.gm_model.specs.Rules.{Rule};
ghost use Rattle.gm_model.specs.Structure.{IsInRange};
ghost use Rattle.gm_model.specs.declared.schema.Schema.{Schema};
ghost use Rattle.gm_model.specs.declared.limit.TheConstants.{MOST_DIMENSION};

/// The dual of the dual of a map is the map itself. The law is the clause; the function does nothing.
pub fn the_dual_of_the_dual_is_the_map()
    ensures { (map : Map) → map.schema.dim ≤ MOST_DIMENSION → IsSchema map.schema → dual_map (dual_map map) ≡ map }
{}

/// The dual of the dual of a rule whose numbers and expressions are in range is the rule itself. The
/// law is the clause; the function does nothing.
pub fn the_dual_of_the_dual_is_the_rule()
    ensures { (schema : Schema) (rule : Rule) → schema.dim ≤ MOST_DIMENSION → IsInRange schema rule → IsTyped schema rule → dual_rule schema.dim (dual_rule schema.dim rule) ≡ rule }
{}

/// Where an application of an accepted rule is refused, that of its dual to the dual map is refused for
/// the same cause, with the same nodes, darts and numbers, and the other way round; unless the cause is
/// that there is no match, since the arc that is met first in one needn't be met first in the other. The
/// law is the clauses; the function does nothing.
pub fn duals_are_refused_for_the_same_cause()
    ensures to_dual { (app : Application) (cause : Cause) → app.map.schema.dim ≤ MOST_DIMENSION → IsSchema app.map.schema → IsAccepted app.map.schema app.rule → IsRefused app cause → IsOfMatch cause ⊎ IsRefused (dual_application app) cause }
    ensures from_dual { (app : Application) (cause : Cause) → app.map.schema.dim ≤ MOST_DIMENSION → IsSchema app.map.schema → IsAccepted app.map.schema app.rule → IsRefused (dual_application app) cause → IsOfMatch cause ⊎ IsRefused app cause }
{}

/// An application of an accepted rule to a sound map, done or refused, may take as many steps as that of
/// its dual to the dual map. The law is the clause; the function does nothing.
pub fn duals_have_the_same_budget()
    ensures { (app : Application) (budget : ℕ) → app.map.schema.dim ≤ MOST_DIMENSION → IsSchema app.map.schema → IsAccepted app.map.schema app.rule → IsSound app.map → IsBudget app budget ↔ IsBudget (dual_application app) budget }
{}
