//! What a text stands for, or else which fault is its first: no text falls between the definitions.
ghost use Rattle.std.specs.Prelude.{◌≢◌, ◌⊎◌, ℕ, List};
ghost use Rattle.gm_model.specs.Statements.{Stat};
ghost use Rattle.gm_model.specs.Rules.{Rule};
ghost use Rattle.gm_script.specs.inner.Faults.{IsFaultOf};
ghost use Rattle.gm_script.specs.ScriptText.{ScriptText};
ghost use Rattle.gm_script.specs.declared.fault.ScriptFault.{ScriptFault};
ghost use Rattle.gm_script.specs.declared.fault.ScriptFault.TheVariants.{OutOfMemory};

/// Under any rules a text stands for a script, or it has a first fault: of the grammar, a limit or a
/// second mention, or else of the first statement that disagrees with the rules.
pub fn a_text_stands_for_a_script_or_has_a_first_fault()
    ensures { (text : List ℕ) (n : ℕ) (rules : List Rule) → ((stats : List Stat) × ScriptText text n rules stats) ⊎ ((fault : ScriptFault) × (fault ≢ OutOfMemory) × IsFaultOf text n rules fault) }
{}
