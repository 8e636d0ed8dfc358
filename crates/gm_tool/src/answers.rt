//! That all words and files have an answer: laws over the definitions alone.
ghost use Rattle.std.specs.Prelude.{◌≡◌, ◌↔◌, ℕ, List};
ghost use Rattle.gm_tool.specs.Answer.{Files, Answer};
ghost use Rattle.gm_tool.specs.Program.{IsAnswer};

/// All words and files have an answer, and with `one_answer_at_most` the answer is a function of
/// them: each text stands for something or has a first fault, each rule is accepted or has one, and
/// each map has its numbers and an orientation.
pub fn one_answer_at_least()
    ensures answer { (words : List (List ℕ)) (files : Files) → (answer : Answer) × IsAnswer words files answer }
    ensures function { (answer_to : List (List ℕ) → Files → Answer) × ((words : List (List ℕ)) (files : Files) (answer : Answer) → IsAnswer words files answer ↔ (answer ≡ answer_to words files)) }
{}
