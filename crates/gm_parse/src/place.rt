//! Where in an expression reading is.

/// What an operand can begin with, beside what each can.
#[derive(Clone, Copy)]
pub enum Need {
    /// `if` and `not`.
    Any,
    /// `not` alone.
    NoIf,
    /// Neither.
    Tight,
}

/// What stands after a dart term.
#[derive(Clone, Copy)]
pub enum Ending {
    /// `,` and a further term.
    Comma,
    /// `)`.
    Close,
    /// `.` and the name of an embedding.
    Field,
    /// The same, and `)`.
    FieldClose,
}

/// What can stand next.
#[derive(Clone, Copy)]
pub enum Place {
    /// An operand begins.
    Operand(Need),
    /// An operand has ended.
    Behind,
    /// The same, and it was a name, which can go on as a function or a node.
    BehindName,
    /// After `same`.
    Same,
    /// Before an orbit, in it, and after it.
    Orbit(Ending),
    Label(Ending),
    Open(Ending),
    /// Before a node's name, after the name or a label, and before a label.
    Node(Ending),
    BehindNode(Ending),
    Step(Ending),
    /// Before the name of an embedding.
    Field(Ending),
    /// Before `)` after that name.
    Close,
}

/// An open bracket. One of parentheses knows whether a comparison came before it.
#[derive(Clone, Copy, Default)]
pub enum Bracket {
    /// `(` of parentheses.
    Group(bool),
    /// `(` of a function.
    Call(bool),
    /// `if`, up to `then`.
    #[default]
    If,
    /// `then`, up to `else`.
    Then,
}
