//! What each place beside an operator asks for.
ghost use Rattle.std.specs.Prelude.{◌≡◌};
ghost use Rattle.gm_tree.specs.inner.Building as building;
ghost use Rattle.gm_tree.specs.inner.Building.{frame_of};

use crate::waiting::Waiting;
use gm_parse::least_on_right;

/// The least level of the operand that is waited for.
pub(crate) fn least_in(waiting: &Waiting) -> u8
    ensures { result ≡ building.least_in (frame_of waiting.now) }
{
    match waiting {
        Waiting::Left(op, _) => least_on_right(*op),
        Waiting::Minus => 7,
        Waiting::Not => 3,
        _ => 0,
    }
}

pub(crate) fn is_bracket(waiting: &Waiting) -> bool
    ensures { result ≡ building.is_bracket (frame_of waiting.now) }
{
    !matches!(
        waiting,
        Waiting::Left(_, _) | Waiting::Minus | Waiting::Not | Waiting::Else(_, _)
    )
}
