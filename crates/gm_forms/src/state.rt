//! Where in a book's rules reading is, and what of an item is read so far.
ghost use Rattle.std.specs.Prelude.{◌≡◌, ◌≤◌};
ghost use Rattle.gm_forms.specs.inner.Reading.{takes_hook};

use crate::tally::Tally;
use gm_model::{Dim, Side, Word};
use gm_text::Token;

/// What the rules need of a book's header.
#[derive(Clone, Copy)]
pub struct Heading {
    pub version: u8,
    pub dim: Dim,
}

impl Heading {
    ghost use Rattle.gm_model.specs.declared.limit.TheConstants.{MOST_DIMENSION};
    /// The greatest label.
    pub fn top(&self) -> u8
        ensures value { result ≡ self.now.dim }
        ensures greatest { self.now.dim ≤ MOST_DIMENSION }
    {
        self.dim.top()
    }
}

/// Where in a side of a rule reading is: how many rules have begun, how many links the side has so
/// far, and whether the rule has a hook so far.
#[derive(Clone, Copy)]
pub struct Spot {
    pub heading: Heading,
    pub rules: Tally,
    pub side: Side,
    pub links: Tally,
    pub hooked: bool,
}

impl Spot {
    /// Whether the version lets a further node of the rule be a hook.
    pub fn takes_hook(&self) -> bool
        ensures { result ≡ takes_hook self.now.heading.version self.now.hooked }
    {
        !self.hooked || self.heading.version != 1
    }
}

#[derive(Clone, Copy)]
pub enum State {
    /// After the header.
    Rules(Heading),
    /// Before the name of the rule with this ordinal, and after it.
    Name(Heading, Tally),
    Left(Heading, Tally),
    /// Before the name of a parameter, with how many of its rule stand before it.
    Param(Heading, Tally, u8),
    /// After the name of the parameter with this ordinal, before its kind, and after it.
    Colon(Heading, Tally, u8, Token),
    Kind(Heading, Tally, u8, Token),
    Comma(Heading, Tally, u8),
    /// After all parameters.
    Body(Heading, Tally),
    /// Where an item can begin, and after its first name.
    Item(Spot),
    Sign(Spot, Token),
    /// In a node's word after these letters, and after the word.
    Letter(Spot, Token, Word),
    Behind(Spot, Token, Word),
    /// After a whole assignment of a right node.
    Assigned(Spot),
    /// In an assignment before the name of its embedding, after it, and before its value.
    Set(Spot),
    Equal(Spot, Token),
    Value(Spot, Token),
    /// Before the expression of a precondition, and after it.
    Pre(Heading, Tally),
    RuleEnd(Heading, Tally),
    /// In a link before its label, after it, and before its second name.
    Label(Spot, Token),
    Dash(Spot, Token, u8),
    To(Spot, Token, u8),
}
