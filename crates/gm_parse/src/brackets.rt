//! The brackets of an expression that are open.
ghost use Rattle.std.specs.Prelude.{◌≡◌, ◌↔◌, [], ◌∷◌, ◌<◌, length, IsTrue, OnSome};
ghost use Rattle.gm_parse.specs.inner.Taking.{Takes};

use crate::place::Bracket;
use arrayvec::ArrayVec;
use std::marker::Model;

/// One more than an expression has tokens.
const MOST: usize = 257;

/// Open brackets. Contracts see their list, the innermost first.
#[derive(Drop)]
pub(crate) struct Brackets {
    held: ArrayVec<Bracket, MOST>,
}

impl Model for Brackets {
    ghost use Rattle.std.specs.Prelude.{List, length, reverse, ◌≤◌};
    ghost use Rattle.gm_parse.specs.declared.place.Bracket.{Bracket};

    ghost Value = { List Bracket };

    ghost view = { λ brackets. reverse brackets.held.items };

    ghost invariant = { λ brackets. length brackets.held.items ≤ 257 };
}

impl Brackets {
    pub(crate) fn new() -> Brackets
        ensures { result ≡ [] }
    {
        Brackets {
            held: ArrayVec::new(),
        }
    }

    pub(crate) fn is_empty(&self) -> bool
        ensures { IsTrue result ↔ (self.now ≡ []) }
    {
        self.held.as_slice().is_empty()
    }

    pub(crate) fn put(&mut self, bracket: Bracket)
        requires { length self.old < 257 }
        ensures { self.new ≡ bracket ∷ self.old }
    {
        self.held.push(bracket);
    }

    /// Takes the innermost one away.
    pub(crate) fn take(&mut self) -> Option<Bracket>
        ensures value { Takes self.old result self.new }
        ensures room { OnSome result (length self.new < 257) }
    {
        self.held.pop()
    }
}
