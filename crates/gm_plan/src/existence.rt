//! That a rule that isn't accepted has a first fault: laws over the definitions, and no call of
//! this crate.

ghost use Rattle.std.specs.Prelude.{ℕ, ◌⊎◌};
ghost use Rattle.gm_model.specs.declared.rule.RuleFault.{RuleFault};
ghost use Rattle.gm_model.specs.declared.schema.Schema.{Schema};
ghost use Rattle.gm_model.specs.Acceptance.{IsAccepted, IsFault};
ghost use Rattle.gm_model.specs.Components.{HasSources, IsEmbedFault};
ghost use Rattle.gm_model.specs.Kinds.{IsTyped};
ghost use Rattle.gm_model.specs.Rules.{Rule};
ghost use Rattle.gm_model.specs.Squares.{HasSquares, IsSquareFault};
ghost use Rattle.gm_model.specs.Structure.{IsInRange, HasIncidence, IsIncidenceFault};

/// A typed rule in range is accepted, or it has a first fault. The law is the clause; the function
/// does nothing.
pub fn accepted_or_a_first_fault()
    ensures { (schema : Schema) (rule : Rule) → IsInRange schema rule → IsTyped schema rule → IsAccepted schema rule ⊎ ((fault : RuleFault) × IsFault schema rule fault) }
{}

/// A rule meets each of the three conditions, or has a first fault of it, whatever it lacks of the
/// others and whether it is in range or not.
pub fn each_condition_is_met_or_has_a_fault()
    ensures incidence { (n : ℕ) (rule : Rule) → HasIncidence n rule ⊎ ((fault : RuleFault) × IsIncidenceFault n rule fault) }
    ensures squares { (n : ℕ) (rule : Rule) → HasSquares n rule ⊎ ((fault : RuleFault) × IsSquareFault n rule fault) }
    ensures sources { (schema : Schema) (rule : Rule) → HasSources schema rule ⊎ ((fault : RuleFault) × IsEmbedFault schema rule fault) }
{}
