//! The word `book` and the version, with which a book begins.
ghost use Rattle.std.specs.Prelude.{◌≡◌, IfOk, IfErr};
ghost use Rattle.gm_text.specs.inner.Nested.{Outside};
ghost use Rattle.gm_forms.specs.inner.Reading.{AtFormat, AtVersion};
ghost use Rattle.gm_text.specs.inner.SchemaAnswers.{marks_left};
ghost use Rattle.gm_forms.specs.inner.Standing.{IsNext, IsHeaded, BeginsBook, IsVersioned, IsHeadFault};

use crate::form_fault::FormFault;
use crate::words::reads;
use gm_text::{Lexer, Token, TokenKind};

/// The next token, which the lexer goes past, or `None` at the end of the text.
pub fn next_token(lexer: &mut Lexer<'_>) -> Result<Option<Token>, FormFault>
    ensures text { lexer.new.text ≡ lexer.old.text }
    ensures next { IsNext lexer.old result lexer.new }
{
    match lexer.next() {
        Ok(found) => Ok(found),
        Err(fault) => Err(FormFault::Text { place: fault.place }),
    }
}

fn read_format(lexer: &mut Lexer<'_>) -> Result<(), FormFault>
    ensures text { lexer.new.text ≡ lexer.old.text }
    ensures read { IfOk result (λ _. BeginsBook (marks_left lexer.old) (marks_left lexer.new)) }
    ensures fault { IfErr result (IsHeadFault (Outside AtFormat) (marks_left lexer.old)) }
{
    let Some(token) = next_token(lexer)? else {
        return Err(FormFault::Text {
            place: lexer.place(),
        });
    };
    if token.kind != TokenKind::Name || !reads(lexer, token, b"book") {
        return Err(FormFault::Text { place: token.start });
    }
    Ok(())
}

fn read_number(lexer: &mut Lexer<'_>) -> Result<u8, FormFault>
    ensures text { lexer.new.text ≡ lexer.old.text }
    ensures read { IfOk result (λ version. IsVersioned (marks_left lexer.old) version (marks_left lexer.new)) }
    ensures fault { IfErr result (IsHeadFault (Outside AtVersion) (marks_left lexer.old)) }
{
    let Some(token) = next_token(lexer)? else {
        return Err(FormFault::Text {
            place: lexer.place(),
        });
    };
    let place = token.start;
    if token.kind != TokenKind::Number {
        return Err(FormFault::Text { place });
    }
    let version = lexer.value(&token);
    if version != 1 && version != 2 {
        return Err(FormFault::Text { place });
    }
    Ok(version as u8)
}

/// The version of a book. The lexer goes past it, up to the schema.
pub fn read_version(lexer: &mut Lexer<'_>) -> Result<u8, FormFault>
    ensures text { lexer.new.text ≡ lexer.old.text }
    ensures read { IfOk result (λ version. IsHeaded (marks_left lexer.old) version (marks_left lexer.new)) }
    ensures fault { IfErr result (IsHeadFault (Outside AtFormat) (marks_left lexer.old)) }
{
    read_format(lexer)?;
    read_number(lexer)
}
