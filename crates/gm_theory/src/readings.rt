//! What reading an expression of a rule gives and takes, as laws of the definitions.

ghost use Rattle.gm_theory.specs.inner.Readings.{ValuesHaveTheirKinds, ReadingsAreDetermined};

/// The value of a typed expression is one of its kind, and its numbers lie in the range of the
/// kind: where it is read in a generalised map whose values are so, at a position where each left
/// node has a live dart, with a value of its kind for each parameter. The law is the clause; the
/// function does nothing.
pub fn values_have_their_kinds()
    ensures { ValuesHaveTheirKinds }
{}

/// A typed expression that is read there has one value, or none, and reading it takes one number
/// of units. So where the budget or the outcome of an application rests on what is read, there is
/// one answer. The law is the clause; the function does nothing.
pub fn readings_are_determined()
    ensures { ReadingsAreDetermined }
{}
