//! The names that a store was asked for, which only proofs read.
ghost use Rattle.std.specs.Prelude.{◌≡◌, ℕ, List, [], ◌∷◌, ◌++◌};
ghost use Rattle.std.specs.Borrow.{ftrue};

use std::marker::Model;

/// Names in order. It takes no bytes, and its functions do nothing when the program runs.
#[derive(Drop)]
pub(crate) struct Names {
    pub(crate) ghost items: { List (List ℕ) },
}

impl Model for Names {
    ghost also_owns = { λ _. ftrue };
}

/// A name that is asked for.
#[derive(Clone, Copy)]
pub(crate) struct Asked<'a> {
    pub(crate) name: &'a str,
}

impl Names {
    /// No name.
    pub(crate) fn new() -> Names
        ensures { result.items ≡ [] }
    {
        Names {}
    }

    /// These names, and one more at the end.
    pub(crate) fn and(&self, _asked: &Asked<'_>) -> Names
        ensures { result.items ≡ self.now.items ++ _asked.now.name.now ∷ [] }
    {
        Names {}
    }
}
