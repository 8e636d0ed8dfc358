//! A book's text read from left to right up to its first fault, and then its names.
ghost use Rattle.std.specs.Prelude.{map, IfOk, IfErr};
ghost use Rattle.std.specs.List.{AllByRecursion};
ghost use Rattle.gm_forms.specs.BookText.{BookText};
ghost use Rattle.gm_model.specs.Kinds.{IsTyped};
ghost use Rattle.gm_model.specs.Maps.{IsSchema};
ghost use Rattle.gm_model.specs.Rules.{rule_of};
ghost use Rattle.gm_model.specs.Structure.{IsInRange, IsWithinLimits};
ghost use Rattle.gm_book.specs.inner.Faults.{IsFaultOf};
ghost use Rattle.gm_book.specs.inner.Unsigned.{HasUnsignedExprs};

use crate::building::build;
use crate::fault::BookFault;
use gm_forms::{Heading, read_forms, read_version};
use gm_model::Book;
use gm_text::{Lexer, read_schema, skip_schema};
use std::alloc::Global;

/// The book that the text stands for. A fault is the first of the text: of its grammar and limits
/// by place, and then of its names and of its expressions' kinds by place. At one place what is
/// given twice counts first, then what stands for nothing, and then what hasn't the kind needed.
pub fn read_book(alloc: Global, bytes: &[u8]) -> Result<Book, BookFault>
    ensures book { IfOk result (λ book. BookText bytes.now book.version book.schema (map rule_of book.rules)) }
    ensures schema { IfOk result (λ book. IsSchema book.schema) }
    ensures in_range { IfOk result (λ book. AllByRecursion (λ rule. IsInRange book.schema (rule_of rule)) book.rules) }
    ensures limits { IfOk result (λ book. AllByRecursion (λ rule. IsWithinLimits (rule_of rule)) book.rules) }
    ensures typed { IfOk result (λ book. AllByRecursion (λ rule. IsTyped book.schema (rule_of rule)) book.rules) }
    ensures unsigned { IfOk result (λ book. AllByRecursion (λ rule. HasUnsignedExprs (rule_of rule)) book.rules) }
    ensures fault { IfErr result (IsFaultOf bytes.now) }
{
    let mut lexer = Lexer::new(bytes);
    let version = read_version(&mut lexer)?;
    let mut again = lexer.fork();
    let dim = skip_schema(&mut lexer)?;
    let forms = read_forms(alloc, &mut lexer, Heading { version, dim })?;
    let schema = read_schema(alloc, &mut again)?;
    build(alloc, bytes, version, schema, forms)
}
