//! Rules and books as their texts give them, and the faults of a rule that isn't accepted.

use crate::expr::Expr;
use crate::items::Items;
use crate::name::Name;
use crate::schema::Schema;
use crate::value::Kind;
use crate::word::Word;

/// A parameter of a rule.
#[derive(Clone, Copy, PartialEq, Eq)]
pub struct Param {
    pub name: Name,
    pub kind: Kind,
}

/// The assignment of an expression to an embedding, by its index in the schema.
#[derive(Drop)]
pub struct Set {
    pub embed: u8,
    pub expr: Expr,
}

/// A node of a rule: preserved with both words, removed with the left one alone, added with the
/// right one alone.
#[derive(Drop)]
pub struct Node {
    pub name: Name,
    pub left: Option<Word>,
    pub right: Option<Word>,
    pub sets: Items<Set>,
}

/// An arc between two nodes of one side, or from a node to itself.
#[derive(Clone, Copy, Default, PartialEq, Eq)]
pub struct Link {
    pub from: u8,
    pub label: u8,
    pub to: u8,
}

/// A rule as its text gives it, accepted or not. A number of a node is its index in `nodes`, where
/// those with a left word come first. `hooks` are such numbers, in the order in which the left side
/// has them.
#[derive(Drop)]
pub struct RuleTable {
    pub name: Name,
    pub params: Items<Param>,
    pub nodes: Items<Node>,
    pub left_links: Items<Link>,
    pub right_links: Items<Link>,
    pub hooks: Items<u8>,
    pub pre: Option<Expr>,
}

/// A book of rules over one schema. The version is that of its text, 1 or 2: a rule of version 1
/// has one hook at most.
#[derive(Drop)]
pub struct Book {
    pub version: u8,
    pub schema: Schema,
    pub rules: Items<RuleTable>,
}

/// A side of a rule.
#[derive(Clone, Copy, Debug, PartialEq, Eq)]
pub enum Side {
    Left,
    Right,
}

/// The first fault of a rule that isn't accepted. Nodes and embeddings go by their index.
#[derive(Clone, Copy, Debug)]
pub enum RuleFault {
    /// A rule with left nodes has no hook, or a rule without has one.
    Hooks,
    /// The hook's left word has `_` or a label twice. It is the first such hook.
    HookWord { node: u8 },
    /// A word has another length than the first hook's, or than 0 where there is no hook.
    WordLength { node: u8 },
    /// Left links join the node to no hook.
    NotConnected { node: u8 },
    /// The node has the label twice on the side.
    ArcTwice { node: u8, label: u8, side: Side },
    /// A removed node lacks the label on the left, or an added node lacks it on the right.
    ArcMissing { node: u8, label: u8 },
    /// A preserved node has the label on one side alone.
    ArcSetDiffers { node: u8, label: u8 },
    /// The square of the labels at the node doesn't close on the right, and isn't excused.
    Square { node: u8, i: u8, j: u8 },
    /// Two nodes of one component have an assignment to the embedding.
    SetTwice { embed: u8, node: u8, other: u8 },
    /// No node of the component has an assignment, and none is preserved.
    NoValue { embed: u8, node: u8 },
    /// Without an assignment, the component joins nodes of two left components.
    Merge { embed: u8, node: u8, other: u8 },
    /// Without an assignment, the component joins positions at a place where its left component
    /// doesn't.
    MergeAlong { embed: u8, node: u8, place: u8 },
}
