//! What holds of the texts of expressions, whoever reads or prints them.
ghost use Rattle.std.specs.Prelude.{◌≡◌, ◌≤◌, ◌+◌, ℕ, length};
ghost use Rattle.gm_model.specs.declared.rule.RuleTable.{RuleTable};
ghost use Rattle.gm_model.specs.declared.schema.Schema.{Schema};
ghost use Rattle.gm_model.specs.Rules.{Rule, rule_of};
ghost use Rattle.gm_model.specs.Symbols.{marks_of};
ghost use Rattle.gm_model.specs.Trees.{Tree};
ghost use Rattle.gm_text.specs.inner.Cursor.{Cursor};
ghost use Rattle.gm_text.specs.inner.SchemaAnswers.{marks_left};
ghost use Rattle.gm_parse.specs.inner.Answers.{IsExprRead};
ghost use Rattle.gm_parse.specs.Meaning.{names_in};
ghost use Rattle.gm_expr.specs.ExprText.{expr_text};
ghost use Rattle.gm_expr.specs.inner.Whole.{IsReadWhole};
ghost use Rattle.gm_expr.specs.inner.Writable.{AreGoodNames, IsWritable, names_of};
ghost use Rattle.gm_model.specs.declared.limit.TheConstants.{MOST_DIMENSION};

/// Where a tree was read under the names of a schema and a rule, its canonical text has no more
/// tokens than were gone past, and so no more than an expression can have. A text has a mark for each
/// of its tokens, and one at its end.
pub fn no_text_is_shorter()
    ensures { (n : ℕ) (schema : Schema) (rule : Rule) (old new : Cursor) (tree : Tree) → n ≤ MOST_DIMENSION → AreGoodNames schema.embeds rule.params rule.nodes → IsExprRead n (names_of schema.embeds rule.params rule.nodes) old new tree → length (marks_of (expr_text schema rule tree)) + length (marks_left new) ≤ length (marks_left old) + 1 }
{}

/// Under good names the canonical text of a tree is read as that tree, from the beginning to the end:
/// where the tree can be written and its text has at most 256 tokens, and where some text gave the
/// tree, whatever its length. Of several things with one name, that name leads to the first, so a tree
/// that can be written has no number of another. The names are those of a schema and a rule.
pub fn what_is_printed_is_read_again()
    ensures written { (n : ℕ) (schema : Schema) (rule : Rule) (tree : Tree) → n ≤ MOST_DIMENSION → AreGoodNames schema.embeds rule.params rule.nodes → IsWritable schema.embeds rule.params rule.nodes n tree → length (marks_of (expr_text schema rule tree)) ≤ 257 → IsReadWhole n (names_of schema.embeds rule.params rule.nodes) (expr_text schema rule tree) tree }
    ensures read { (n : ℕ) (schema : Schema) (rule : Rule) (old new : Cursor) (tree : Tree) → n ≤ MOST_DIMENSION → AreGoodNames schema.embeds rule.params rule.nodes → IsExprRead n (names_of schema.embeds rule.params rule.nodes) old new tree → IsReadWhole n (names_of schema.embeds rule.params rule.nodes) (expr_text schema rule tree) tree }
    ensures names { (schema : Schema) (table : RuleTable) → names_in schema table.params table.nodes ≡ names_of schema.embeds (rule_of table).params (rule_of table).nodes }
{}
