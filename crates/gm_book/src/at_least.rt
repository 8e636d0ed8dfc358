//! What a text stands for, or else which fault is its first: no text falls between the definitions.
ghost use Rattle.std.specs.Prelude.{◌≢◌, ◌⊎◌, ℕ, List};
ghost use Rattle.gm_model.specs.declared.schema.Schema.{Schema};
ghost use Rattle.gm_model.specs.Rules.{Rule};
ghost use Rattle.gm_forms.specs.BookText.{BookText};
ghost use Rattle.gm_book.specs.declared.fault.BookFault.{BookFault};
ghost use Rattle.gm_book.specs.declared.fault.BookFault.TheVariants.{OutOfMemory};
ghost use Rattle.gm_book.specs.inner.Faults.{IsFaultOf};

/// A text stands for a book, or it has a first fault: by its grammar and limits, or else by its
/// names and the kinds of its expressions.
pub fn a_text_stands_for_a_book_or_has_a_first_fault()
    ensures { (text : List ℕ) → ((version : ℕ) × (schema : Schema) × (rules : List Rule) × BookText text version schema rules) ⊎ ((fault : BookFault) × (fault ≢ OutOfMemory) × IsFaultOf text fault) }
{}
