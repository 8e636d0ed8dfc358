//! What an expression's text is read as, or else which fault is its first.
ghost use Rattle.std.specs.Prelude.{◌⊎◌, ℕ};
ghost use Rattle.gm_model.specs.Trees.{Tree};
ghost use Rattle.gm_text.specs.inner.Cursor.{Cursor};
ghost use Rattle.gm_text.specs.inner.SchemaAnswers.{marks_left};
ghost use Rattle.gm_parse.specs.declared.fault.SyntaxFault.{SyntaxFault};
ghost use Rattle.gm_parse.specs.inner.Answers.{HasFirstFault, IsExprRead, IsSyntaxFault};
ghost use Rattle.gm_parse.specs.Meaning.{NameFault, Names};

/// Under any names a tree is read at each place of a text, or what stands there has a first fault:
/// by the grammar and its limits, or else by its names.
pub fn a_tree_is_read_or_there_is_a_first_fault()
    ensures { (n : ℕ) (names : Names) (old : Cursor) → ((new : Cursor) × (tree : Tree) × IsExprRead n names old new tree) ⊎ (((fault : SyntaxFault) × IsSyntaxFault n (marks_left old) fault) ⊎ ((fault : NameFault) × HasFirstFault n names (marks_left old) fault)) }
{}
