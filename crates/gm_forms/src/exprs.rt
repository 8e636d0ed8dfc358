//! Moves up to an expression, and past it.
ghost use Rattle.std.specs.Prelude.{◌≡◌, ◌≤◌, ℕ, List, ◌∷◌, IfOk, IfErr};
ghost use Rattle.gm_model.specs.Symbols.{Mark};
ghost use Rattle.gm_model.specs.declared.rule.Side.TheVariants.{Right};
ghost use Rattle.gm_model.specs.declared.token.TokenKind.TheVariants.{Name};
ghost use Rattle.gm_text.specs.inner.SchemaAnswers.{IsToken, marks_left};
ghost use Rattle.gm_forms.specs.declared.state.State.TheVariants as states;
ghost use Rattle.gm_forms.specs.inner.Forms.{IsIn, IsSpanIn};
ghost use Rattle.gm_forms.specs.inner.Standing.{Leads, StaysIn, KeepsIn, IsOutside, GoesPast, read_on, stand_of, word_mark, sign_mark};
ghost use Rattle.gm_forms.specs.inner.Values.{IsGoneOver, IsValueFault};

use crate::draft::Draft;
use crate::form::{SetForm, Span};
use crate::form_fault::FormFault;
use crate::state::{Heading, Spot, State};
use crate::tally::Tally;
use crate::words::reads;
use gm_model::{Dim, LimitKind, MOST_NAME_BYTES, Side};
use gm_parse::skip_expr;
use gm_text::{Lexer, Token, is_reserved};

/// The spot on the right side.
pub fn on_right(spot: Spot) -> Spot
    ensures { result ≡ record spot { side = Right } }
{
    Spot {
        side: Side::Right,
        ..spot
    }
}

/// The name of an embedding that is assigned.
#[tactic(auto, unfolding(crate::specs::inner::Standing::stepped))]
pub fn at_set(lexer: &Lexer<'_>, token: Token, spot: Spot) -> Result<State, FormFault>
    requires token { IsToken lexer.now.text token }
    requires kind { token.kind ≡ Name }
    ensures leads { Leads lexer.now.text (states.Set spot) (word_mark lexer.now.text token) result }
    ensures within { StaysIn lexer.now.text (states.Set spot) result }
{
    let word = lexer.text(&token);
    let place = token.start;
    if is_reserved(word) {
        return Err(FormFault::Text { place });
    }
    if word.len() > MOST_NAME_BYTES {
        let what = LimitKind::Name;
        return Err(FormFault::Limit { what, place });
    }
    Ok(State::Equal(spot, token))
}

/// The sign after that name.
#[tactic(auto, unfolding(crate::specs::inner::Standing::stepped))]
pub fn at_equal(
    lexer: &Lexer<'_>,
    token: Token,
    spot: Spot,
    embed: Token,
) -> Result<State, FormFault>
    requires { IsToken lexer.now.text token }
    ensures leads { Leads lexer.now.text (states.Equal spot embed) (sign_mark lexer.now.text token) result }
    ensures within { StaysIn lexer.now.text (states.Equal spot embed) result }
{
    if !reads(lexer, token, b"=") {
        return Err(FormFault::Text { place: token.start });
    }
    Ok(State::Value(spot, embed))
}

/// Goes past an assignment's value.
pub fn past_set_value(
    draft: &mut Draft,
    lexer: &mut Lexer<'_>,
    spot: Spot,
    embed: Token,
) -> Result<State, FormFault>
    requires { IsIn lexer.old.text embed }
    ensures text { lexer.new.text ≡ lexer.old.text }
    ensures onward { IfOk result (λ _. lexer.old.place ≤ lexer.new.place) }
    ensures outside { IfOk result (λ next. IsOutside next) }
    ensures within { KeepsIn lexer.old.text draft.old (states.Value spot embed) result draft.new }
    ensures past { (nodes : List (List ℕ)) (last : ℕ) → GoesPast (read_on (stand_of lexer.old.text nodes draft.old (states.Value spot embed) last) (marks_left lexer.old)) (λ next. read_on (stand_of lexer.old.text nodes draft.new next last) (marks_left lexer.new)) result }
{
    let heading = spot.heading;
    let value = skip_value(lexer, heading.dim)?;
    let assigned = SetForm { embed, value };
    draft.assign(assigned)?;
    Ok(State::Assigned(spot))
}

/// Goes past the expression of a precondition.
pub fn past_pre_value(
    draft: &mut Draft,
    lexer: &mut Lexer<'_>,
    heading: Heading,
    rules: Tally,
) -> Result<State, FormFault>
    ensures text { lexer.new.text ≡ lexer.old.text }
    ensures onward { IfOk result (λ _. lexer.old.place ≤ lexer.new.place) }
    ensures outside { IfOk result (λ next. IsOutside next) }
    ensures within { KeepsIn lexer.old.text draft.old (states.Pre heading rules) result draft.new }
    ensures past { (nodes : List (List ℕ)) (last : ℕ) → GoesPast (read_on (stand_of lexer.old.text nodes draft.old (states.Pre heading rules) last) (marks_left lexer.old)) (λ next. read_on (stand_of lexer.old.text nodes draft.new next last) (marks_left lexer.new)) result }
{
    let value = skip_value(lexer, heading.dim)?;
    draft.require(value);
    Ok(State::RuleEnd(heading, rules))
}

/// Goes past the expression that stands next. The answer says where it stands.
pub fn skip_value(lexer: &mut Lexer<'_>, dim: Dim) -> Result<Span, FormFault>
    ensures text { lexer.new.text ≡ lexer.old.text }
    ensures inside { IfOk result (λ span. IsSpanIn lexer.old.text span) }
    ensures onward { IfOk result (λ _. lexer.old.place ≤ lexer.new.place) }
    ensures dim { IfOk result (λ span. span.dim ≡ dim) }
    ensures over { IfOk result (λ span. IsGoneOver lexer.old span lexer.new) }
    ensures fault { IfErr result (IsValueFault dim lexer.old) }
{
    let start = lexer.place();
    skip_expr(lexer, dim)?;
    Ok(Span {
        start,
        end: next_place(lexer),
        dim,
    })
}

/// The place of the token that stands next, or of what is none.
pub fn next_place(lexer: &Lexer<'_>) -> usize
    ensures { (mark : Mark) (others : List Mark) → marks_left lexer.now ≡ mark ∷ others → result ≡ mark.place }
{
    match lexer.fork().token() {
        Ok(token) => token.start,
        Err(place) => place,
    }
}
