//! What stands in a text, or else which fault is its first: no text falls between the definitions.
ghost use Rattle.std.specs.Prelude.{◌≡◌, ◌≢◌, ◌⊎◌, ℕ};
ghost use Rattle.gm_model.specs.declared.schema.Schema.{Schema};
ghost use Rattle.gm_text.specs.inner.Cursor.{Cursor};
ghost use Rattle.gm_text.specs.inner.SchemaAnswers.{marks_left, IsSchemaRead, IsSchemaSkipped, IsSchemaFault, IsSkipFault};
ghost use Rattle.gm_text.specs.declared.schema_fault.SchemaFault.{SchemaFault};
ghost use Rattle.gm_text.specs.declared.schema_fault.SchemaFault.TheVariants.{OutOfMemory};

/// At each place of a text a schema stands, or what stands there has a first fault.
pub fn a_schema_is_read_or_has_a_first_fault()
    ensures read { (old : Cursor) → ((new : Cursor) × (schema : Schema) × IsSchemaRead old new schema) ⊎ ((fault : SchemaFault) × (fault ≢ OutOfMemory) × IsSchemaFault (marks_left old) fault) }
    ensures skipped { (old : Cursor) → ((new : Cursor) × (n : ℕ) × IsSchemaSkipped old new n) ⊎ ((fault : SchemaFault) × IsSkipFault (marks_left old) fault) }
{}
