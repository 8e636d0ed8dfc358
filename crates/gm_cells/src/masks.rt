//! The mask that has all labels of a map but one.

ghost use Rattle.std.specs.Prelude.{◌≡◌, ℕ, ◌≤◌};
ghost use Rattle.gm_cells.specs.Cells.{labels_but};
ghost use Rattle.gm_model.specs.Labels.{has};
ghost use Rattle.gm_model.specs.declared.limit.TheConstants.{MOST_DIMENSION};

use gm_model::Mask;

/// The mask of the labels up to `top`, without one of them.
pub(crate) fn mask_without(top: u8, label: u8) -> Mask
    requires { top ≤ MOST_DIMENSION }
    ensures { (other : ℕ) → has result other ≡ labels_but top label other }
{
    let mut bits = 0;
    for other in 0..top + 1 {
        if other != label {
            bits |= 1 << other;
        }
    }
    Mask { bits }
}
