//! A count of rules or links that stops at its limit.

ghost use Rattle.std.specs.Prelude.{◌≡◌, ◌+◌, ◌<◌, ◌≤◌, SomeIff};

use std::marker::Model;

/// How many rules, or links of a side, there are so far. Contracts see the number, which is at
/// most 256.
#[derive(Clone, Copy)]
pub struct Tally {
    count: u16,
}

impl Model for Tally {
    ghost use Rattle.std.specs.Prelude.{ℕ, ◌≤◌};

    ghost Value = { ℕ };

    ghost view = { λ tally. tally.count };

    ghost invariant = { λ tally. tally.count ≤ 256 };

    ghost inverse = { λ n. record { count = n } };
}

impl Tally {
    pub fn none() -> Tally
        ensures { result ≡ 0 }
    {
        Tally { count: 0 }
    }

    pub fn one() -> Tally
        ensures { result ≡ 1 }
    {
        Tally { count: 1 }
    }

    /// One more, where that is at most 256.
    pub fn next(self) -> Option<Tally>
        ensures { SomeIff result (self + 1 ≤ 256) (self + 1) }
    {
        if self.count == 256 {
            return None;
        }
        Some(Tally {
            count: self.count + 1,
        })
    }
}
