//! The limits of maps, books and scripts, each said once: code and definitions cite these.

/// The greatest dimension of a map, and so its greatest label.
pub const MOST_DIMENSION: u8 = 7;

/// How many labels a map can have: 0 to the greatest dimension.
pub const MOST_LABELS: usize = 8;

/// How many embeddings a schema can have.
pub const MOST_EMBEDS: usize = 8;

/// How many darts a map can have.
pub const MOST_DARTS: u32 = 1_048_576;

/// The names of darts are below this number, so the next name of a map is at most this.
pub const MOST_NAMES: u32 = 16_777_216;

/// How many bytes a name of an embedding, a rule, a parameter or a node can have.
pub const MOST_NAME_BYTES: usize = 32;

/// How many rules a book can have.
pub const MOST_RULES: usize = 256;

/// How many nodes a rule can have.
pub const MOST_NODES: usize = 32;

/// How many links a side of a rule can have.
pub const MOST_LINKS: usize = 256;

/// How many parameters a rule can have.
pub const MOST_PARAMS: u8 = 8;

/// How many letters a word can have.
pub const MOST_LETTERS: usize = 8;

/// How many tokens an expression can have.
pub const MOST_TOKENS: usize = 256;

/// How many lines a script can have.
pub const MOST_LINES: usize = 100_000;

/// Which limit an input passes. Each has one word in the printed lines.
#[derive(Clone, Copy, Debug, PartialEq, Eq)]
pub enum LimitKind {
    /// A dimension is 1 to 7.
    Dimension,
    /// A label is at most the dimension.
    Label,
    /// A schema has at most 8 embeddings.
    Embeddings,
    /// A map has at most 1,048,576 darts.
    Darts,
    /// A dart's name is below 16,777,216.
    DartName,
    /// A number of a value or an expression fits 64 bits with a sign.
    Integer,
    /// A component of a colour is 0 to 255.
    Channel,
    /// A name has at most 32 bytes.
    Name,
    /// A book has at most 256 rules.
    Rules,
    /// A rule has at most 32 nodes.
    Nodes,
    /// A side of a rule has at most 256 links.
    Links,
    /// A rule has at most 8 parameters.
    Parameters,
    /// A word has at most 8 letters.
    Word,
    /// An expression has at most 256 tokens.
    Expression,
    /// A script has at most 100,000 lines.
    Lines,
}
