//! That there is what the clauses of the program speak of: a run of good files, the answer of a
//! grid, and the bounds on the steps of both. Laws over the definitions alone.
ghost use Rattle.std.specs.Prelude.{◌≡◌, ◌≤◌, ℕ};
ghost use Rattle.gm_tool.specs.Answer.{Files, Answer};
ghost use Rattle.gm_tool.specs.GridAnswer.{IsGridAnswer};
ghost use Rattle.gm_tool.specs.RunAnswer.{RunNames, Inputs, Ran, HasMap, HasBook, HasScript, Agree, IsGoodRun};
ghost use Rattle.gm_tool.specs.StepBounds.{IsMost, IsLeast, IsGridMost, IsGridLeast};

/// A map, a book with each rule accepted and a script, each good and map and book of one schema,
/// have a run: an outcome for each line, and a map that is left and can be listed. There is no other
/// run, by `one_answer_at_most`.
pub fn good_files_have_runs()
    ensures { (files : Files) (named : RunNames) (inputs : Inputs) → HasMap files named inputs → HasBook files named inputs → HasScript files named inputs → Agree inputs → (ran : Ran) × IsGoodRun files named inputs ran }
{}

/// Each run of good files has a most and a least of steps, and one of each. So the most that
/// `steps.most` names is the only one: whatever is a most of the run, no more steps are taken.
pub fn runs_have_bounds()
    ensures most { (files : Files) (named : RunNames) (inputs : Inputs) (ran : Ran) → IsGoodRun files named inputs ran → (most : ℕ) × IsMost files named most }
    ensures least { (files : Files) (named : RunNames) (inputs : Inputs) (ran : Ran) → IsGoodRun files named inputs ran → (least : ℕ) × IsLeast files named least }
    ensures one_most { (files : Files) (named : RunNames) (most other : ℕ) → IsMost files named most → IsMost files named other → most ≡ other }
    ensures one_least { (files : Files) (named : RunNames) (least other : ℕ) → IsLeast files named least → IsLeast files named other → least ≡ other }
{}

/// For each number of rows up to 100 `grid` has an answer, and a most and a least of steps, one of
/// each.
pub fn grids_have_answers()
    ensures answer { (m : ℕ) → m ≤ 100 → (answer : Answer) × IsGridAnswer m answer }
    ensures most { (m : ℕ) → m ≤ 100 → (most : ℕ) × IsGridMost m most }
    ensures least { (m : ℕ) → m ≤ 100 → (least : ℕ) × IsGridLeast m least }
    ensures one_most { (m most other : ℕ) → m ≤ 100 → IsGridMost m most → IsGridMost m other → most ≡ other }
    ensures one_least { (m least other : ℕ) → m ≤ 100 → IsGridLeast m least → IsGridLeast m other → least ≡ other }
{}
