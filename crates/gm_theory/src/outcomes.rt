//! The outcomes and budgets of applications, and the runs of scripts, as laws of the definitions.

ghost use Rattle.gm_theory.specs.inner.OneMatch.{OneMatchAtMost};
ghost use Rattle.gm_theory.specs.inner.Outcomes.{ApplicationsHaveOutcomes, ApplicationsHaveBudgets, ScriptsHaveRuns};

/// At given hook darts a rule has one match at most: two have the same positions and turns, and
/// each left node at the same darts. The law is the clause; the function does nothing.
pub fn one_match_at_most()
    ensures { OneMatchAtMost }
{}

/// Each application of an accepted rule to a sound map, with a dart's name for each hook and a
/// value of its kind for each parameter, has an outcome: it is done, or it is refused for the first
/// cause that holds. So no application falls between the definitions. The law is the clause; the
/// function does nothing.
pub fn applications_have_outcomes()
    ensures { ApplicationsHaveOutcomes }
{}

/// Each such application has a budget, whether it is done or refused. The law is the clause; the
/// function does nothing.
pub fn applications_have_budgets()
    ensures { ApplicationsHaveBudgets }
{}

/// Each script whose statements name accepted rules, with a dart's name for each hook and a value
/// of its kind for each parameter, has a run from each sound map of their schema, with its bounds
/// on steps: where the statements stand in an order that scripts have, and an `each` has a rule of
/// one hook and labels of the map. The run leaves a sound map, and so is each map to which undo and
/// redo lead then. The law is the clause; the function does nothing.
pub fn scripts_have_runs()
    ensures { ScriptsHaveRuns }
{}
