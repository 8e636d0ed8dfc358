//! The dimension of a map.

ghost use Rattle.std.specs.Prelude.{◌≡◌, ◌<◌, ◌≤◌, SomeIff};

use crate::limit::MOST_DIMENSION;
use std::marker::Model;

/// The dimension of a map, 1 to 7: the labels of its involutions are 0 to the dimension.
/// Contracts see the number.
#[derive(Clone, Copy, PartialEq, Eq)]
pub struct Dim {
    top: u8,
}

impl Model for Dim {
    ghost use Rattle.gm_model.specs.declared.limit.TheConstants.{MOST_DIMENSION};
    ghost use Rattle.std.specs.Prelude.{ℕ, ◌<◌, ◌≤◌};

    ghost Value = { ℕ };

    ghost view = { λ d. d.top };

    ghost invariant = { λ d. (0 < d.top) × (d.top ≤ MOST_DIMENSION) };

    ghost inverse = { λ n. record { top = n } };
}

impl Dim {
    ghost use Rattle.gm_model.specs.declared.limit.TheConstants.{MOST_DIMENSION};
    /// The dimension `n`, where it is 1 to 7.
    pub fn new(n: u8) -> Option<Dim>
        ensures { SomeIff result ((0 < n) × (n ≤ MOST_DIMENSION)) n }
    {
        if n == 0 || n > MOST_DIMENSION {
            return None;
        }
        Some(Dim { top: n })
    }

    /// The dimension as a number, which is also the greatest label.
    pub fn top(self) -> u8
        ensures value { result ≡ self }
        ensures least { 0 < self }
        ensures greatest { self ≤ MOST_DIMENSION }
    {
        self.top
    }
}
