//! What holds of the texts of scripts, whoever reads them.
ghost use Rattle.std.specs.Prelude.{◌≡◌, ℕ, List, false};
ghost use Rattle.std.specs.List.{AllByRecursion};
ghost use Rattle.gm_model.specs.declared.limit.LimitKind.{LimitKind};
ghost use Rattle.gm_model.specs.Statements.{Stat};
ghost use Rattle.gm_model.specs.Rules.{Rule};
ghost use Rattle.gm_model.specs.Runs.{AreInOrder};
ghost use Rattle.gm_script.specs.inner.Agreement.{Agrees};
ghost use Rattle.gm_script.specs.ScriptText.{ScriptText, StandsForNoScript, IsTextFault, IsLimitFault, IsAgainFault, Disagreement, IsFirstDisagreement};

/// A text stands for one script at most under a book, whose labels go up to `n`.
pub fn one_script_at_most()
    ensures { (text : List ℕ) (n : ℕ) (rules : List Rule) (stats others : List Stat) → ScriptText text n rules stats → ScriptText text n rules others → stats ≡ others }
{}

/// A text has one first fault at most under a book, and one that has a fault stands for no script.
pub fn one_first_fault_at_most()
    ensures text { (n : ℕ) (text : List ℕ) (place other : ℕ) → IsTextFault n text place → IsTextFault n text other → place ≡ other }
    ensures limit { (n : ℕ) (text : List ℕ) (what other : LimitKind) (place last : ℕ) → IsLimitFault n text what place → IsLimitFault n text other last → (what ≡ other) × (place ≡ last) }
    ensures again { (n : ℕ) (text : List ℕ) (place last : ℕ) → IsAgainFault n text place → IsAgainFault n text last → place ≡ last }
    ensures either { (n : ℕ) (text : List ℕ) (what : LimitKind) (place other : ℕ) → IsTextFault n text place → IsLimitFault n text what other → ⊥ }
    ensures text_or_again { (n : ℕ) (text : List ℕ) (place other : ℕ) → IsTextFault n text place → IsAgainFault n text other → ⊥ }
    ensures limit_or_again { (n : ℕ) (text : List ℕ) (what : LimitKind) (place other : ℕ) → IsLimitFault n text what place → IsAgainFault n text other → ⊥ }
    ensures disagreement { (text : List ℕ) (n : ℕ) (rules : List Rule) (fault other : Disagreement) → IsFirstDisagreement text n rules fault → IsFirstDisagreement text n rules other → fault ≡ other }
    ensures no_disagreement_at_text { (text : List ℕ) (n : ℕ) (rules : List Rule) (place : ℕ) (fault : Disagreement) → IsTextFault n text place → IsFirstDisagreement text n rules fault → ⊥ }
    ensures no_disagreement_at_limit { (text : List ℕ) (n : ℕ) (rules : List Rule) (what : LimitKind) (place : ℕ) (fault : Disagreement) → IsLimitFault n text what place → IsFirstDisagreement text n rules fault → ⊥ }
    ensures no_disagreement_at_again { (text : List ℕ) (n : ℕ) (rules : List Rule) (place : ℕ) (fault : Disagreement) → IsAgainFault n text place → IsFirstDisagreement text n rules fault → ⊥ }
    ensures no_script_at_text { (text : List ℕ) (n : ℕ) (rules : List Rule) (place : ℕ) → IsTextFault n text place → StandsForNoScript text n rules }
    ensures no_script_at_limit { (text : List ℕ) (n : ℕ) (rules : List Rule) (what : LimitKind) (place : ℕ) → IsLimitFault n text what place → StandsForNoScript text n rules }
    ensures no_script_at_again { (text : List ℕ) (n : ℕ) (rules : List Rule) (place : ℕ) → IsAgainFault n text place → StandsForNoScript text n rules }
    ensures no_script_at_disagreement { (text : List ℕ) (n : ℕ) (rules : List Rule) (fault : Disagreement) → IsFirstDisagreement text n rules fault → StandsForNoScript text n rules }
{}

/// The statements of a script that a text stands for are in an order that scripts have. Each names a
/// rule of the book, with one dart for each hook and one value for each parameter, of the parameter's
/// kind and in its range; an `each` names one with one hook, and has no label past the greatest.
pub fn scripts_agree_with_their_books()
    ensures order { (text : List ℕ) (n : ℕ) (rules : List Rule) (stats : List Stat) → ScriptText text n rules stats → AreInOrder false stats }
    ensures each { (text : List ℕ) (n : ℕ) (rules : List Rule) (stats : List Stat) → ScriptText text n rules stats → AllByRecursion (Agrees n rules) stats }
{}
