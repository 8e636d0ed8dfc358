//! The stack of what waits for an operand.
ghost use Rattle.std.specs.Prelude.{◌≡◌, ◌∷◌, OnOk};
ghost use Rattle.std.specs.Option.{option_map};
ghost use Rattle.gm_tree.specs.inner.Building.{frame_of, frames_of};
ghost use Rattle.gm_parse.specs.inner.Taking.{Takes};
ghost use Rattle.gm_tree.specs.inner.Taking.{TakesAbove, TakesShut};

use crate::table::{is_bracket, least_in};
use crate::waiting::Waiting;
use gm_model::OutOfMemory;

pub(crate) fn put(stack: &mut Vec<Waiting>, waiting: Waiting) -> Result<(), OutOfMemory>
    ensures ok { OnOk result (frames_of stack.new.items ≡ frame_of waiting ∷ frames_of stack.old.items) }
{
    stack.push(waiting)?;
    Ok(())
}

/// Takes the innermost one away.
pub(crate) fn take(stack: &mut Vec<Waiting>) -> Option<Waiting>
    ensures { Takes (frames_of stack.old.items) (option_map frame_of result) (frames_of stack.new.items) }
{
    stack.pop()
}

/// Takes the innermost one away, where its operand binds more closely than the level.
pub(crate) fn take_above(stack: &mut Vec<Waiting>, level: u8) -> Option<Waiting>
    ensures { TakesAbove level (frames_of stack.old.items) (option_map frame_of result) (frames_of stack.new.items) }
{
    match stack.last() {
        Some(waiting) if least_in(waiting) > level => stack.pop(),
        _ => None,
    }
}

/// Takes the innermost one away, where it is no bracket.
pub(crate) fn take_shut(stack: &mut Vec<Waiting>) -> Option<Waiting>
    ensures { TakesShut (frames_of stack.old.items) (option_map frame_of result) (frames_of stack.new.items) }
{
    match stack.last() {
        Some(waiting) if !is_bracket(waiting) => stack.pop(),
        _ => None,
    }
}
