//! What holds of the faults of rules, whoever finds them.
ghost use Rattle.std.specs.Prelude.{◌≡◌, ℕ};
ghost use Rattle.gm_model.specs.declared.rule.RuleFault.{RuleFault};
ghost use Rattle.gm_model.specs.declared.schema.Schema.{Schema};
ghost use Rattle.gm_model.specs.Acceptance.{IsAccepted, IsFault};
ghost use Rattle.gm_model.specs.Components.{HasSources, IsEmbedFault};
ghost use Rattle.gm_model.specs.Rules.{Rule};
ghost use Rattle.gm_model.specs.Squares.{HasSquares, IsSquareFault};
ghost use Rattle.gm_model.specs.Structure.{HasIncidence, IsIncidenceFault};

/// A rule has at most one first fault, and a rule that is accepted has none.
pub fn one_fault_at_most()
    ensures one { (schema : Schema) (rule : Rule) (fault other : RuleFault) → IsFault schema rule fault → IsFault schema rule other → fault ≡ other }
    ensures none { (schema : Schema) (rule : Rule) (fault : RuleFault) → IsAccepted schema rule → IsFault schema rule fault → ⊥ }
{}

/// A rule that meets one of the three conditions has no fault of that condition, whatever it lacks
/// of the others.
pub fn no_fault_of_a_condition_that_is_met()
    ensures incidence { (n : ℕ) (rule : Rule) (fault : RuleFault) → HasIncidence n rule → IsIncidenceFault n rule fault → ⊥ }
    ensures squares { (n : ℕ) (rule : Rule) (fault : RuleFault) → HasSquares n rule → IsSquareFault n rule fault → ⊥ }
    ensures sources { (schema : Schema) (rule : Rule) (fault : RuleFault) → HasSources schema rule → IsEmbedFault schema rule fault → ⊥ }
{}
