//! What holds of the definition of the program's answer, whoever meets it.
ghost use Rattle.std.specs.Prelude.{◌≡◌, ℕ, List};
ghost use Rattle.gm_tool.specs.Answer.{Files, Answer};
ghost use Rattle.gm_tool.specs.Program.{IsAnswer};

/// The definition gives one answer at most to the words and the files.
pub fn one_answer_at_most()
    ensures { (words : List (List ℕ)) (files : Files) (one other : Answer) → IsAnswer words files one → IsAnswer words files other → one ≡ other }
{}
