//! The types that every crate of gmr speaks of, and the definitions that its contracts cite.
//!
//! The types are plain data. What a map, a text and an answer of the program are is defined in
//! `specs/`, in the words of the field, apart from any code that computes it.
#![tactic(auto)]

mod dim;
mod expr;
mod items;
mod limit;
mod memory;
mod name;
mod rule;
mod schema;
mod script;
mod sides;
mod step;
mod token;
mod value;
mod word;

pub use dim::Dim;
pub use expr::{BinOp, DartTerm, Expr, Path, UnOp};
pub use items::Items;
pub use limit::{
    LimitKind, MOST_DARTS, MOST_DIMENSION, MOST_EMBEDS, MOST_LABELS, MOST_LETTERS, MOST_LINES,
    MOST_LINKS, MOST_NAME_BYTES, MOST_NAMES, MOST_NODES, MOST_PARAMS, MOST_RULES, MOST_TOKENS,
};
pub use memory::OutOfMemory;
pub use name::Name;
pub use rule::{Book, Link, Node, Param, RuleFault, RuleTable, Set, Side};
pub use schema::{Embed, Schema};
pub use script::{LineRef, Script, StatRef};
pub use step::Step;
pub use token::{Token, TokenKind};
pub use value::{Kind, Value};
pub use word::{Letter, Mask, Word};
