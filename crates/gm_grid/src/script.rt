//! The script of a grid.
ghost use Rattle.std.specs.Prelude.{◌≡◌, ◌≤◌, IfOk};
ghost use Rattle.gm_grid.specs.GridBook.{IsGridScript};

use gm_model::{LineRef, OutOfMemory, Script, StatRef};
use std::alloc::Global;

/// The script that applies the rule to each square of `m` rows, ascending.
pub(crate) fn make_script(alloc: Global, m: u32) -> Result<Script, OutOfMemory>
    requires { m ≤ 100 }
    ensures { IfOk result (IsGridScript m) }
{
    let squares = m * m;
    let mut script = Script::with_capacity(alloc, squares as usize)?;
    for square in 0..squares {
        // The rule at the first dart of the square.
        script.push(StatRef::Apply(LineRef {
            rule: 0,
            hooks: &[8 * square],
            params: &[],
        }))?;
    }
    Ok(script)
}
