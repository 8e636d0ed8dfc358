//! What holds of the texts of expressions, whoever reads them.
ghost use Rattle.std.specs.Prelude.{◌⊎◌, ℕ};
ghost use Rattle.gm_text.specs.inner.Cursor.{Cursor};
ghost use Rattle.gm_text.specs.inner.SchemaAnswers.{marks_left};
ghost use Rattle.gm_parse.specs.declared.fault.SyntaxFault.{SyntaxFault};
ghost use Rattle.gm_parse.specs.inner.Answers.{IsExprSkipped, IsSyntaxFault};

/// At each place of a text an expression stands, or what stands there has a first fault by the
/// grammar and its limits.
pub fn an_expression_stands_or_has_a_first_fault()
    ensures { (n : ℕ) (old : Cursor) → ((new : Cursor) × IsExprSkipped n old new) ⊎ ((fault : SyntaxFault) × IsSyntaxFault n (marks_left old) fault) }
{}
