//! Sets of labels, and the words of nodes.

ghost use Rattle.std.specs.Prelude.{◌≡◌, ◌<◌, ◌≤◌, length, slice_get, SomeIff};
ghost use Rattle.gm_model.specs.Labels.{has};

use crate::limit::MOST_LETTERS;
use std::marker::Model;

/// A set of labels: bit `i` stands for label `i`.
#[derive(Clone, Copy, PartialEq, Eq)]
pub struct Mask {
    pub bits: u8,
}

impl Mask {
    ghost use Rattle.gm_model.specs.declared.limit.TheConstants.{MOST_DIMENSION};
    /// Whether the label is in the set.
    pub fn has(self, label: u8) -> bool
        requires { label ≤ MOST_DIMENSION }
        ensures { result ≡ has self label }
    {
        (self.bits >> label) & 1 == 1
    }
}

/// What stands at one place of a word.
#[derive(Clone, Copy, PartialEq, Eq)]
pub enum Letter {
    /// A label.
    At(u8),
    /// No label: the place is not used.
    Gone,
}

/// The word of a node: at most 8 letters, whose places are counted from 0. Contracts see their list.
#[derive(Clone, Copy, PartialEq, Eq)]
pub struct Word {
    letters: [Letter; MOST_LETTERS],
    used: u8,
}

impl Model for Word {
    ghost use Rattle.std.specs.Prelude.{List, take, length, ◌++◌};
    ghost use Rattle.gm_model.specs.declared.word.Letter.{Letter};

    ghost Value = { List Letter };

    ghost use Rattle.gm_model.specs.inner.Padded.{IsPadded, padded, padded-take, length-take-padded};
    ghost use Rattle.gm_model.specs.declared.word.Letter.TheVariants.{Gone};

    ghost view = { λ w. take w.used w.letters };

    ghost invariant = { λ w. IsPadded 8 Gone w.used w.letters };

    ghost inverse = { λ s. record { letters = padded 8 Gone s; used = length s } };

    ghost inverse_ok = { λ w h i. record {
      letters = padded-take 8 Gone w.used w.letters h i;
      used = length-take-padded 8 Gone w.used w.letters h i;
    } };
}

impl Word {
    ghost use Rattle.gm_model.specs.declared.limit.TheConstants.{MOST_LETTERS};
    /// The word of these letters, where there are at most 8.
    pub fn new(letters: &[Letter]) -> Option<Word>
        ensures { SomeIff result (length letters.now ≤ MOST_LETTERS) letters.now }
    {
        if letters.len() > MOST_LETTERS {
            return None;
        }
        let mut held = [Letter::Gone; MOST_LETTERS];
        held[..letters.len()].copy_from_slice(letters);
        Some(Word {
            letters: held,
            used: letters.len() as u8,
        })
    }

    /// The number of letters.
    pub fn len(&self) -> u8
        ensures value { result ≡ length self.now }
        ensures most { length self.now ≤ MOST_LETTERS }
    {
        self.used
    }

    /// The letter at a place of the word.
    pub fn letter(&self, place: u8) -> Letter
        requires { place < length self.now }
        ensures { slice_get self.now place ≡ Some result }
    {
        self.letters[place as usize]
    }
}
