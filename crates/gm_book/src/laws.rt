//! What holds of the texts of books, whoever reads or prints them.
ghost use Rattle.std.specs.Prelude.{◌≡◌, ◌≢◌, ◌≤◌, ℕ, List, All, length};
ghost use Rattle.gm_model.specs.declared.schema.Schema.{Schema};
ghost use Rattle.gm_model.specs.declared.limit.TheConstants.{MOST_RULES};
ghost use Rattle.gm_model.specs.inner.Collectors.{HasFewCollectors};
ghost use Rattle.gm_model.specs.Kinds.{IsTyped};
ghost use Rattle.gm_model.specs.Rules.{Rule};
ghost use Rattle.gm_model.specs.Structure.{IsInRange, IsWithinLimits};
ghost use Rattle.gm_book.specs.Canonical.{canonical};
ghost use Rattle.gm_forms.specs.BookText.{BookText, StandsForNoBook, NameFault, IsFirstNameFault};
ghost use Rattle.gm_book.specs.declared.fault.BookFault.{BookFault};
ghost use Rattle.gm_book.specs.declared.fault.BookFault.TheVariants.{OutOfMemory};
ghost use Rattle.gm_book.specs.inner.Faults.{IsFaultOf};
ghost use Rattle.gm_book.specs.inner.Unsigned.{HasUnsignedExprs};

/// A text has one version and stands for one book at most.
pub fn one_book_at_most()
    ensures { (text : List ℕ) (version second : ℕ) (schema other : Schema) (rules others : List Rule) → BookText text version schema rules → BookText text second other others → (version ≡ second) × (schema ≡ other) × (rules ≡ others) }
{}

/// A text has one first fault at most, its kind and place included: by its grammar and limits, or
/// else by its names and the kinds of its expressions.
pub fn one_first_fault_at_most()
    ensures one { (text : List ℕ) (fault other : BookFault) → fault ≢ OutOfMemory → other ≢ OutOfMemory → IsFaultOf text fault → IsFaultOf text other → fault ≡ other }
    ensures names { (text : List ℕ) (fault other : NameFault) → IsFirstNameFault text fault → IsFirstNameFault text other → fault ≡ other }
{}

/// A text that has a fault stands for no book.
pub fn no_book_at_a_fault()
    ensures { (text : List ℕ) (fault : BookFault) → fault ≢ OutOfMemory → IsFaultOf text fault → StandsForNoBook text }
{}

/// The canonical text of the schema and the rules that a text stands for, in its version, stands for
/// them too.
pub fn what_is_printed_is_read_again()
    ensures { (text : List ℕ) (version : ℕ) (schema : Schema) (rules : List Rule) → BookText text version schema rules → BookText (canonical version schema rules) version schema rules }
{}

/// A text stands for a book of 256 rules at most.
pub fn few_rules_at_most()
    ensures { (text : List ℕ) (version : ℕ) (schema : Schema) (rules : List Rule) → BookText text version schema rules → length rules ≤ MOST_RULES }
{}

/// In version 1 a rule that a text stands for has one hook at most.
pub fn one_hook_at_most_in_version_one()
    ensures { (text : List ℕ) (schema : Schema) (rules : List Rule) → BookText text 1 schema rules → All (λ rule. length rule.hooks ≤ 1) rules }
{}

/// The rules that a text stands for are in range and within the limits on their parts. Each of their
/// expressions names what is there and has the kind that its place needs, and no number in it is
/// negative.
pub fn what_is_read_is_in_range()
    ensures { (text : List ℕ) (version : ℕ) (schema : Schema) (rules : List Rule) → BookText text version schema rules → All (λ rule. IsInRange schema rule × IsWithinLimits rule × IsTyped schema rule × HasUnsignedExprs rule) rules }
{}

/// An expression of a rule that a text stands for has 36 collectors at most, so what an application
/// keeps of them for its later readings has room for each.
pub fn few_collectors_at_most()
    ensures { (text : List ℕ) (version : ℕ) (schema : Schema) (rules : List Rule) → BookText text version schema rules → All HasFewCollectors rules }
{}
