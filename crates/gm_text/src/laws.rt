//! What holds of the texts of schemas, whoever reads or prints them.
ghost use Rattle.std.specs.Prelude.{◌≡◌, ◌≢◌, ◌++◌, ℕ, List};
ghost use Rattle.gm_model.specs.declared.schema.Schema.{Schema};
ghost use Rattle.gm_model.specs.Symbols.{Mark};
ghost use Rattle.gm_text.specs.inner.Cursor.{Cursor};
ghost use Rattle.gm_text.specs.inner.Lexing.{IsBehindToken};
ghost use Rattle.gm_text.specs.inner.SchemaAnswers.{marks_left, IsSchemaRead, IsSchemaSkipped, IsSchemaFault, IsSkipFault};
ghost use Rattle.gm_text.specs.inner.SchemaPrinting.{BeginNoEmbed, StandsBefore};
ghost use Rattle.gm_text.specs.SchemaText.{canonical};
ghost use Rattle.gm_text.specs.declared.schema_fault.SchemaFault.{SchemaFault};
ghost use Rattle.gm_text.specs.declared.schema_fault.SchemaFault.TheVariants.{OutOfMemory};

/// At a place of a text one schema stands at most, and what is skipped there is what is read.
pub fn one_schema_at_most()
    ensures read { (old new other : Cursor) (schema second : Schema) → IsSchemaRead old new schema → IsSchemaRead old other second → (schema ≡ second) × (marks_left new ≡ marks_left other) }
    ensures skipped { (old new other : Cursor) (schema : Schema) (n : ℕ) → IsSchemaRead old new schema → IsSchemaSkipped old other n → (schema.dim ≡ n) × (marks_left new ≡ marks_left other) }
{}

/// Where the same marks are left after tokens, the lexer stands at the same place. So what is read
/// settles the place that it is read to, and no reader can go on over blanks or comments.
pub fn one_place_behind_tokens()
    ensures { (old new other : Cursor) → IsBehindToken old new → IsBehindToken old other → marks_left new ≡ marks_left other → new.place ≡ other.place }
{}

/// There is one first fault at most, its kind and place included.
pub fn one_schema_fault_at_most()
    ensures read { (marks : List Mark) (fault other : SchemaFault) → fault ≢ OutOfMemory → other ≢ OutOfMemory → IsSchemaFault marks fault → IsSchemaFault marks other → fault ≡ other }
    ensures skipped { (marks : List Mark) (fault other : SchemaFault) → IsSkipFault marks fault → IsSkipFault marks other → fault ≡ other }
{}

/// Where there is a fault no schema stands.
pub fn no_schema_at_a_fault()
    ensures read { (old new : Cursor) (schema : Schema) (fault : SchemaFault) → fault ≢ OutOfMemory → IsSchemaRead old new schema → IsSchemaFault (marks_left old) fault → ⊥ }
    ensures skipped { (old new : Cursor) (n : ℕ) (fault : SchemaFault) → IsSchemaSkipped old new n → IsSkipFault (marks_left old) fault → ⊥ }
{}

/// The canonical text of a schema that was read is read as the same schema, whatever stands after
/// it that begins no embedding.
pub fn a_printed_schema_is_read_again()
    ensures { (old new : Cursor) (schema : Schema) (rest : List ℕ) → IsSchemaRead old new schema → BeginNoEmbed rest → StandsBefore rest (canonical schema ++ rest) schema }
{}
