//! A guess where a number ends, with which the processor goes on before it has found the end.
ghost use Rattle.std.specs.Prelude.{◌≡◌, ◌+◌, ◌<◌, ◌≤◌, ◌^◌, IfSome};

use std::marker::Model;

/// How many digits a number is guessed to have: as many as the one before it had. Nothing rests on
/// a guess, since it is compared with what was found.
#[derive(Clone, Copy)]
pub struct Guess {
    digits: usize,
}

impl Model for Guess {
    ghost use Rattle.std.specs.Prelude.{ℕ, ◌<◌, ◌≤◌};

    ghost Value = { ℕ };

    ghost view = { λ guess. guess.digits };

    ghost invariant = { λ guess. (0 < guess.digits) × (guess.digits ≤ 8) };

    ghost inverse = { λ n. record { digits = n } };
}

impl Guess {
    /// The guess at the beginning.
    pub fn new() -> Guess
        ensures { result ≡ 1 }
    {
        Guess { digits: 1 }
    }

    /// The end of a number of `count` digits, where it has one digit at least and eight at most. As
    /// many are guessed from then on.
    // Inlined, as `small_at` is.
    #[inline(always)]
    pub(crate) fn end(&mut self, start: usize, count: usize) -> Option<usize>
        requires { start + count < 2 ^ 64 }
        ensures some { IfSome result (λ _. 0 < count) }
        ensures few { IfSome result (λ _. count ≤ 8) }
        ensures end { IfSome result (λ end. end ≡ start + count) }
    {
        // Where the guess is right, as it mostly is, the processor goes on past the number before it
        // has found how long this is.
        if count == self.digits {
            return Some(start + self.digits);
        }
        if count == 0 || count > 8 {
            return None;
        }
        self.digits = count;
        Some(end_apart(start, count))
    }
}

/// The end of a number of `count` digits.
// Not inlined, since a compiler that saw both ends would make them one, and wait for the count.
#[cold]
#[inline(never)]
fn end_apart(start: usize, count: usize) -> usize
    requires { start + count < 2 ^ 64 }
    ensures { result ≡ start + count }
{
    start + count
}
