//! A word that is read letter by letter.

ghost use Rattle.std.specs.Prelude.{◌≡◌, ◌+◌, ◌≤◌, [], ◌∷◌, ◌++◌, length, SomeIff};
ghost use Rattle.gm_model.specs.declared.limit.TheConstants.{MOST_LETTERS};

use gm_model::{Letter, Word};

pub fn no_letters() -> Word
    ensures { result ≡ [] }
{
    Word::new(&[]).unwrap()
}

/// The word with one letter more, where it then has at most 8.
pub fn with_letter(word: Word, letter: Letter) -> Option<Word>
    ensures { SomeIff result (length word + 1 ≤ MOST_LETTERS) (word ++ letter ∷ []) }
{
    let mut letters = [Letter::Gone; 9];
    let count = word.len();
    for place in 0..count {
        letters[place as usize] = word.letter(place);
    }
    letters[count as usize] = letter;
    Word::new(&letters[..count as usize + 1])
}
