//! What an application and a run do over maps that are alike: laws over the definitions alone.
ghost use Rattle.std.specs.Prelude.{◌≡◌, ℕ, false, List, All};
ghost use Rattle.gm_model.specs.declared.schema.Schema.{Schema};
ghost use Rattle.gm_model.specs.Statements.{Stat};
ghost use Rattle.gm_model.specs.Acceptance.{IsAccepted};
ghost use Rattle.gm_model.specs.Applications.{Application, IsDone};
ghost use Rattle.gm_model.specs.Budgets.{Bounds, no_entries, IsRunWithin};
ghost use Rattle.gm_model.specs.Maps.{Map, IsSchema, IsSound};
ghost use Rattle.gm_model.specs.Rules.{Rule};
ghost use Rattle.gm_model.specs.Runs.{Outcome, State, start_of, IsRun, AreInOrder};
ghost use Rattle.gm_theory.specs.inner.Outcomes.{IsGoodStat};
ghost use Rattle.gm_run.specs.inner.Alike.{AreAlike, AreAlikeStates};

/// What an application of an accepted rule to a sound map leaves, each map alike is: so a map that is
/// left can be listed. And from a map alike the statements have a run with the same outcomes and the
/// same bounds, which leaves a state alike.
pub fn alike_maps_run_alike()
    ensures leaves { (app : Application) (after end : Map) (added removed : ℕ) → IsSchema app.map.schema → IsSound app.map → IsAccepted app.map.schema app.rule → AreAlike after end → IsDone app after added removed → IsDone app end added removed }
    ensures runs { (rules : List Rule) (before other : Map) (stats : List Stat) (outcomes : List Outcome) (after : State) →
        IsSchema before.schema → All (IsAccepted before.schema) rules → IsSound before → All (IsGoodStat rules before.schema.dim) stats → AreInOrder false stats → AreAlike before other →
        IsRun rules (start_of before) stats outcomes after → (end : State) × IsRun rules (start_of other) stats outcomes end × AreAlikeStates after end }
    ensures bounds { (rules : List Rule) (before other : Map) (stats : List Stat) (outcomes others : List Outcome) (after end : State) (bounds most : Bounds) →
        IsSchema before.schema → All (IsAccepted before.schema) rules → IsSound before → All (IsGoodStat rules before.schema.dim) stats → AreAlike before other →
        IsRunWithin rules (start_of before) no_entries stats outcomes after bounds → IsRunWithin rules (start_of other) no_entries stats others end most → bounds ≡ most }
{}
