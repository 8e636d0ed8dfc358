//! Labels, sets of labels and words of labels.

ghost use Rattle.std.specs.Prelude.{◌≡◌, ◌≤◌, IfOk, map};
ghost use Rattle.gm_dual.specs.Duals as duals;
ghost use Rattle.gm_model.specs.declared.limit.TheConstants.{MOST_DIMENSION};

use gm_model::{Letter, Mask, OutOfMemory, Word};
use std::alloc::Global;

/// The label that trades places with the label, where `top` is the greatest.
pub(crate) fn dual_label(top: u8, label: u8) -> u8
    ensures { result ≡ duals.dual_label top label }
{
    if label > top {
        return label;
    }
    top - label
}

/// The set of the labels that trade places with those of the set.
pub(crate) fn dual_mask(top: u8, mask: Mask) -> Mask
    requires { top ≤ MOST_DIMENSION }
    ensures { result ≡ duals.dual_mask top mask }
{
    let mut bits = 0;
    for step in 0..8 {
        let has = mask.has(dual_label(top, 7 - step));
        bits = 2 * bits + has as u8;
    }
    Mask { bits }
}

/// The word with each letter at its place.
pub(crate) fn dual_word(top: u8, word: &Word) -> Word
    ensures { result ≡ duals.dual_word top word.now }
{
    let mut letters = [Letter::Gone; 8];
    for place in 0..word.len() {
        letters[place as usize] = dual_letter(top, word.letter(place));
    }
    Word::new(&letters[..word.len() as usize]).unwrap()
}

fn dual_letter(top: u8, letter: Letter) -> Letter
    ensures { result ≡ duals.dual_letter top letter }
{
    match letter {
        Letter::At(label) => Letter::At(dual_label(top, label)),
        Letter::Gone => Letter::Gone,
    }
}

/// The labels that trade places with these, in their order.
pub(crate) fn dual_path(alloc: Global, top: u8, labels: &[u8]) -> Result<Vec<u8>, OutOfMemory>
    ensures { IfOk result (λ path. path.items ≡ map (duals.dual_label top) labels.now) }
{
    let mut path = Vec::new(alloc);
    for label in labels {
        path.push(dual_label(top, *label))?;
    }
    Ok(path)
}
