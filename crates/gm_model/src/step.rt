//! What a node of a rule has at a label.

/// What a node has at a label on one side of a rule.
#[derive(Clone, Copy, PartialEq, Eq)]
pub enum Step {
    /// Nothing.
    Absent,
    /// A link, to this node.
    Exp(u8),
    /// A letter, at this place of its word.
    Imp(u8),
}
