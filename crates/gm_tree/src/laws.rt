//! What holds of the texts of expressions, whoever reads them.
ghost use Rattle.std.specs.Prelude.{◌≡◌, ◌≤◌, ℕ, List, length};
ghost use Rattle.gm_model.specs.declared.rule.Node.{Node};
ghost use Rattle.gm_model.specs.declared.rule.Param.{Param};
ghost use Rattle.gm_model.specs.declared.schema.Schema.{Schema};
ghost use Rattle.gm_model.specs.Symbols.{Mark};
ghost use Rattle.gm_model.specs.Trees.{Tree};
ghost use Rattle.gm_text.specs.inner.Cursor.{Cursor};
ghost use Rattle.gm_text.specs.inner.SchemaAnswers.{marks_left};
ghost use Rattle.gm_parse.specs.declared.fault.SyntaxFault.{SyntaxFault};
ghost use Rattle.gm_parse.specs.inner.Answers.{HasFirstFault, IsExprRead, IsSyntaxFault};
ghost use Rattle.gm_parse.specs.Meaning.{NameFault, Names, names_in};
ghost use Rattle.gm_tree.specs.inner.FirstNames.{first_names};
ghost use Rattle.gm_model.specs.declared.limit.TheConstants.{MOST_DIMENSION};

/// Under the same names one tree at most stands at a place of a text, with the same tokens after
/// it: `a - b - c` has one grouping, and no reader can choose another.
pub fn one_tree_at_most()
    ensures { (n : ℕ) (names : Names) (old new other : Cursor) (tree second : Tree) → n ≤ MOST_DIMENSION → IsExprRead n names old new tree → IsExprRead n names old other second → (tree ≡ second) × (marks_left new ≡ marks_left other) }
{}

/// There is one first fault at most, its kind and place included: by the grammar and its limits, or
/// else, of an expression that stands there, by its names.
pub fn one_fault_at_most()
    ensures names { (n : ℕ) (names : Names) (marks : List Mark) (fault other : NameFault) → n ≤ MOST_DIMENSION → HasFirstFault n names marks fault → HasFirstFault n names marks other → fault ≡ other }
    ensures syntax { (n : ℕ) (marks : List Mark) (fault other : SyntaxFault) → IsSyntaxFault n marks fault → IsSyntaxFault n marks other → fault ≡ other }
    ensures either { (n : ℕ) (names : Names) (marks : List Mark) (fault : NameFault) (other : SyntaxFault) → HasFirstFault n names marks fault → IsSyntaxFault n marks other → ⊥ }
{}

/// Where there is a fault no tree is read.
pub fn no_tree_at_a_fault()
    ensures names { (n : ℕ) (names : Names) (old new : Cursor) (tree : Tree) (fault : NameFault) → n ≤ MOST_DIMENSION → IsExprRead n names old new tree → HasFirstFault n names (marks_left old) fault → ⊥ }
    ensures syntax { (n : ℕ) (names : Names) (old new : Cursor) (tree : Tree) (fault : SyntaxFault) → IsExprRead n names old new tree → IsSyntaxFault n (marks_left old) fault → ⊥ }
{}

/// Where a schema and a rule have no more of them than a number of one byte counts, an expression
/// can use all their names.
pub fn few_names_are_all_first()
    ensures { (schema : Schema) (params : List Param) (nodes : List Node) → length schema.embeds ≤ 256 → length params ≤ 256 → length nodes ≤ 256 → first_names schema params nodes ≡ names_in schema params nodes }
{}
