//! What holds of runs of scripts, whoever makes them: laws over the definitions.

ghost use Rattle.std.specs.Prelude.{◌≡◌, ◌≢◌, ◌≤◌, ℕ, List, All};
ghost use Rattle.gm_model.specs.declared.schema.Schema.{Schema};
ghost use Rattle.gm_model.specs.Statements.{Stat};
ghost use Rattle.gm_model.specs.Acceptance.{IsAccepted};
ghost use Rattle.gm_model.specs.Budgets.{Bounds, no_entries, IsRunWithin};
ghost use Rattle.gm_model.specs.Maps.{Map, IsSchema, IsSound};
ghost use Rattle.gm_model.specs.Rules.{Rule};
ghost use Rattle.gm_model.specs.Runs.{Outcome, Undone, Dropped, State, start_of, IsRun, IsStatOutcome};
ghost use Rattle.gm_theory.specs.inner.Outcomes.{IsGoodStat};
ghost use Rattle.gm_run.specs.inner.Alike.{AreAlikeStates};

/// From a sound map, statements over accepted rules have one run at most: the outcomes, causes and
/// all, and the state that they leave, with the maps to which undo and redo lead. And each run has
/// bounds on its steps, and one pair of them.
pub fn one_run_at_most()
    ensures one { (schema : Schema) (rules : List Rule) (before : Map) (stats : List Stat) (outcomes others : List Outcome) (after end : State) →
        before.schema ≡ schema → IsSchema schema → All (IsAccepted schema) rules → IsSound before → All (IsGoodStat rules schema.dim) stats →
        IsRun rules (start_of before) stats outcomes after → IsRun rules (start_of before) stats others end → (outcomes ≡ others) × AreAlikeStates after end }
    ensures bounds { (schema : Schema) (rules : List Rule) (before : Map) (stats : List Stat) (outcomes : List Outcome) (after : State) →
        before.schema ≡ schema → IsSchema schema → All (IsAccepted schema) rules → IsSound before → All (IsGoodStat rules schema.dim) stats →
        IsRun rules (start_of before) stats outcomes after → (bounds : Bounds) × IsRunWithin rules (start_of before) no_entries stats outcomes after bounds }
    ensures one_pair { (schema : Schema) (rules : List Rule) (before : Map) (stats : List Stat) (outcomes others : List Outcome) (after end : State) (bounds other : Bounds) →
        before.schema ≡ schema → IsSchema schema → All (IsAccepted schema) rules → IsSound before → All (IsGoodStat rules schema.dim) stats →
        IsRunWithin rules (start_of before) no_entries stats outcomes after bounds → IsRunWithin rules (start_of before) no_entries stats others end other → bounds ≡ other }
{}

/// The next name never falls in a run but by an undo, or by a group that is dropped.
pub fn next_never_falls()
    ensures { (rules : List Rule) (before : Map) (stats : List Stat) (outcomes : List Outcome) (state after : State) (stat : Stat) (outcome : Outcome) →
        IsRun rules (start_of before) stats outcomes state → IsStatOutcome rules state stat outcome after → outcome ≢ Undone → outcome ≢ Dropped → state.map.next ≤ after.map.next }
{}
