//! The list that public types hold.

use std::marker::Model;

/// A list in a public type: a vector that contracts see as its list. It is made from a vector
/// without taking memory, and lends its elements.
#[derive(Debug, Drop)]
pub struct Items<T> {
    vector: Vec<T>,
}

impl<T> Model for Items<T> {
    ghost use Rattle.std.specs.Prelude.{List};

    ghost Value = { List T };

    ghost view = { λ items. items.vector.items };
}

impl<T> Items<T> {
    ghost use Rattle.std.specs.Prelude.{◌≡◌};

    /// The elements of the vector, which it takes over.
    pub fn new(vector: Vec<T>) -> Items<T>
        ensures { result ≡ vector.items }
    {
        Items { vector }
    }

    /// The elements.
    pub fn as_slice(&self) -> &[T]
        ensures { result.now ≡ self.now }
    {
        self.vector.as_slice()
    }

    /// The vector of the elements, given back.
    pub fn into_vec(self) -> Vec<T>
        ensures { result.items ≡ self }
    {
        self.vector
    }
}
