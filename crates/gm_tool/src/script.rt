//! The script that a run reads.

ghost use Rattle.std.specs.Prelude.{ℕ, List, IfOk, IfErr, map};
ghost use Rattle.gm_model.specs.Rules.{rule_of};
ghost use Rattle.gm_lines.specs.Refusing.{TheScript};
ghost use Rattle.gm_tool.specs.RunAnswer.{IsBadScript};
ghost use Rattle.gm_tool.specs.inner.Stops.{IsReadBook, IsReadScript, IsBadFor};

use crate::refusal::Stop;
use gm_lines::script_line;
use gm_model::{Book, Script};
use gm_script::read_script;
use std::alloc::Global;

/// The script that a file's text stands for under a book that was read, or the line that refuses it.
pub fn read(alloc: Global, bytes: &[u8], book: &Book) -> Result<Script, Stop>
    requires { (text : List ℕ) × IsReadBook text book.now }
    ensures script { IfOk result (IsReadScript book.now.schema.dim (map rule_of book.now.rules) bytes.now) }
    ensures stop { IfErr result (IsBadFor TheScript (IsBadScript book.now.schema.dim (map rule_of book.now.rules) bytes.now)) }
{
    match read_script(alloc, bytes, book) {
        Ok(script) => Ok(script),
        Err(fault) => Err(Stop::because(script_line(alloc, fault))),
    }
}
