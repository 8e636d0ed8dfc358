//! Expressions of rules as trees.

use crate::word::Mask;
use std::marker::Model;

/// Labels along which a dart term leads, the first of them first. It is made from a vector without
/// taking memory. Contracts see the list of labels.
#[derive(Drop)]
pub struct Path {
    labels: Vec<u8>,
}

impl Model for Path {
    ghost use Rattle.std.specs.Prelude.{ℕ, List};

    ghost Value = { List ℕ };

    ghost view = { λ path. path.labels.items };
}

impl Path {
    ghost use Rattle.std.specs.Prelude.{◌≡◌};

    /// The path along these labels, whose vector it takes over.
    pub fn new(labels: Vec<u8>) -> Path
        ensures { result ≡ labels.items }
    {
        Path { labels }
    }

    /// The labels.
    pub fn as_slice(&self) -> &[u8]
        ensures { result.now ≡ self.now }
    {
        self.labels.as_slice()
    }

    /// The vector of the labels, given back.
    pub fn into_vec(self) -> Vec<u8>
        ensures { result.items ≡ self }
    {
        self.labels
    }
}

/// A dart of the map before an application: the one that the node is matched with at the position
/// where the expression is read, and from there along the path.
#[derive(Drop)]
pub struct DartTerm {
    pub node: u8,
    pub path: Path,
}

/// An operator or function of one part.
#[derive(Clone, Copy, PartialEq, Eq)]
pub enum UnOp {
    Neg,
    Not,
    X,
    Y,
    Z,
    Red,
    Green,
    Blue,
}

/// An operator of two parts.
#[derive(Clone, Copy, PartialEq, Eq)]
pub enum BinOp {
    Add,
    Sub,
    Mul,
    /// The greatest whole number not above the quotient.
    Div,
    /// What is left by `Div`: 0, or of the divisor's sign.
    Rem,
    Eq,
    Ne,
    Lt,
    Le,
    Gt,
    Ge,
    And,
    Or,
}

/// An expression. A number that stands for a parameter or an embedding is its index in the rule or
/// in the schema. The number of `Int` isn't negative in an expression that was read.
#[derive(Drop)]
pub enum Expr {
    Int(i64),
    Bool(bool),
    Param(u8),
    /// The value of an embedding at a dart.
    Field(DartTerm, u8),
    /// Whether both terms name one dart.
    Same(DartTerm, DartTerm),
    /// How many darts the orbit over these labels has.
    Count(Mask, DartTerm),
    /// The sum of an embedding's values over the darts of the orbit.
    Sum(Mask, DartTerm, u8),
    /// The least of an embedding's values over the darts of the orbit.
    Least(Mask, DartTerm, u8),
    /// The greatest of an embedding's values over the darts of the orbit.
    Greatest(Mask, DartTerm, u8),
    Unary(UnOp, Box<Expr>),
    Binary(BinOp, Box<Expr>, Box<Expr>),
    If(Box<Expr>, Box<Expr>, Box<Expr>),
    MakeVec2(Box<Expr>, Box<Expr>),
    MakeVec3(Box<Expr>, Box<Expr>, Box<Expr>),
    MakeRgb(Box<Expr>, Box<Expr>, Box<Expr>),
}
