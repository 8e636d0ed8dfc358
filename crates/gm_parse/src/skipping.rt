//! An expression gone past: what the longest one is, and its first fault by the grammar.
ghost use Rattle.std.specs.Prelude.{◌≡◌, ◌≤◌, true, false, length, None, IfOk, IfErr, OnErr};
ghost use Rattle.gm_text.specs.inner.Lexing.{IsBehindToken};
ghost use Rattle.gm_text.specs.inner.SchemaAnswers.{marks_left};
ghost use Rattle.gm_parse.specs.declared.fault.SyntaxFault.TheVariants as syntax_faults;
ghost use Rattle.gm_parse.specs.inner.Answers.{Advances, IsExprSkipped, IsSyntaxFault, LeavesState, SkipsExpr, Stops};
ghost use Rattle.gm_parse.specs.inner.Reading.{first_spot, is_whole, spot_at};

use crate::fault::SyntaxFault;
use crate::state::State;
use crate::tokens::{key_at, limit_passed};
use gm_model::{Dim, Token};
use gm_text::Lexer;

/// Answers that an expression ends here, where one can: what stands at the place goes on with none.
fn end_before(state: &State, place: usize) -> Result<Option<Token>, SyntaxFault>
    ensures ok { IfOk result (λ more. (is_whole state.now ≡ true) × (more ≡ None)) }
    ensures err { IfErr result (λ fault. (is_whole state.now ≡ false) × (fault ≡ syntax_faults.Text place)) }
{
    if state.is_whole() {
        Ok(None)
    } else {
        Err(SyntaxFault::Text { place })
    }
}

/// Goes past the next token of an expression, after `count` of them, and answers it, or `None` where no
/// expression goes on with it. After a refusal the lexer is as before.
pub fn advance(
    lexer: &mut Lexer<'_>,
    dim: Dim,
    count: usize,
    state: &mut State,
) -> Result<Option<Token>, SyntaxFault>
    requires few { count ≤ 256 }
    requires room { length state.old.open_brackets ≤ count }
    ensures on { IfOk result (λ token. Advances dim (spot_at count state.old) lexer.old token state.new lexer.new) }
    ensures stops { IfErr result (Stops dim (spot_at count state.old) lexer.old) }
    ensures refused { OnErr result (lexer.new ≡ lexer.old) }
    ensures left { IfErr result (LeavesState lexer.old state.old state.new) }
{
    let mut ahead = lexer.fork();
    let token = match ahead.token() {
        Ok(token) => token,
        Err(place) => return end_before(state, place),
    };
    let key = key_at(&ahead, &token);
    let place = state.place();
    if !state.go_on(key) {
        return end_before(state, token.start);
    }
    if let Some(what) = limit_passed(&ahead, &token, key, dim, place, count + 1) {
        let place = token.start;
        return Err(SyntaxFault::Limit { what, place });
    }
    *lexer = ahead;
    Ok(Some(token))
}

fn skip_ahead(lexer: &mut Lexer<'_>, dim: Dim) -> Result<(), SyntaxFault>
    ensures runs { IfOk result (λ _. SkipsExpr dim lexer.old lexer.new) }
    ensures stops { IfErr result (Stops dim first_spot lexer.old) }
{
    let mut state = State::new();
    let mut count = 0;
    while let Some(_) = advance(lexer, dim, count, &mut state)? {
        count += 1;
    }
    Ok(())
}

/// Goes past the longest expression that stands next, in which labels go up to the dimension, and
/// stands directly after its last token. What stands after it isn't judged, no name is looked up, and no memory is taken. After a refusal,
/// whose fault is the first from left to right, the lexer is as before.
pub fn skip_expr(lexer: &mut Lexer<'_>, dim: Dim) -> Result<(), SyntaxFault>
    ensures expr { IfOk result (λ _. IsExprSkipped dim lexer.old lexer.new) }
    ensures behind { IfOk result (λ _. IsBehindToken lexer.old lexer.new) }
    ensures fault { IfErr result (IsSyntaxFault dim (marks_left lexer.old)) }
    ensures runs { IfOk result (λ _. SkipsExpr dim lexer.old lexer.new) }
    ensures stops { IfErr result (Stops dim first_spot lexer.old) }
    ensures text { lexer.new.text ≡ lexer.old.text }
    ensures refused { OnErr result (lexer.new ≡ lexer.old) }
{
    let mut ahead = lexer.fork();
    skip_ahead(&mut ahead, dim)?;
    *lexer = ahead;
    Ok(())
}
