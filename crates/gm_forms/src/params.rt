//! Moves among the parameters of a rule.
ghost use Rattle.std.specs.Prelude.{◌≡◌, List, ℕ};
ghost use Rattle.gm_model.specs.declared.token.TokenKind.TheVariants.{Name};
ghost use Rattle.gm_text.specs.inner.SchemaAnswers.{IsToken};
ghost use Rattle.gm_forms.specs.declared.state.State.TheVariants as states;
ghost use Rattle.gm_forms.specs.inner.Standing.{Leads, StaysIn, Moves, KeepsIn, word_mark, sign_mark};

use crate::draft::Draft;
use crate::form::ParamForm;
use crate::form_fault::FormFault;
use crate::state::{Heading, State};
use crate::tally::Tally;
use crate::words::{kind_named, reads};
use gm_model::{LimitKind, MOST_NAME_BYTES, MOST_PARAMS};
use gm_text::{Lexer, Token, is_reserved};

/// A sign after a rule's name.
#[tactic(auto, unfolding(crate::specs::inner::Standing::stepped))]
pub fn at_open(
    lexer: &Lexer<'_>,
    token: Token,
    heading: Heading,
    rules: Tally,
) -> Result<State, FormFault>
    requires { IsToken lexer.now.text token }
    ensures leads { Leads lexer.now.text (states.Left heading rules) (sign_mark lexer.now.text token) result }
    ensures within { StaysIn lexer.now.text (states.Left heading rules) result }
{
    if !reads(lexer, token, b"(") {
        return Err(FormFault::Text { place: token.start });
    }
    Ok(State::Param(heading, rules, 0))
}

/// A parameter's name, after `count` parameters.
#[tactic(auto, unfolding(crate::specs::inner::Standing::stepped))]
pub fn at_param(
    lexer: &Lexer<'_>,
    token: Token,
    heading: Heading,
    rules: Tally,
    count: u8,
) -> Result<State, FormFault>
    requires token { IsToken lexer.now.text token }
    requires kind { token.kind ≡ Name }
    ensures leads { Leads lexer.now.text (states.Param heading rules count) (word_mark lexer.now.text token) result }
    ensures within { StaysIn lexer.now.text (states.Param heading rules count) result }
{
    let word = lexer.text(&token);
    let place = token.start;
    if is_reserved(word) {
        return Err(FormFault::Text { place });
    }
    if word.len() > MOST_NAME_BYTES {
        let what = LimitKind::Name;
        return Err(FormFault::Limit { what, place });
    }
    if count >= MOST_PARAMS {
        let what = LimitKind::Parameters;
        return Err(FormFault::Limit { what, place });
    }
    Ok(State::Colon(heading, rules, count + 1, token))
}

/// The sign after a parameter's name.
#[tactic(auto, unfolding(crate::specs::inner::Standing::stepped))]
pub fn at_colon(
    lexer: &Lexer<'_>,
    token: Token,
    heading: Heading,
    rules: Tally,
    count: u8,
    name: Token,
) -> Result<State, FormFault>
    requires { IsToken lexer.now.text token }
    ensures leads { Leads lexer.now.text (states.Colon heading rules count name) (sign_mark lexer.now.text token) result }
    ensures within { StaysIn lexer.now.text (states.Colon heading rules count name) result }
{
    if !reads(lexer, token, b":") {
        return Err(FormFault::Text { place: token.start });
    }
    Ok(State::Kind(heading, rules, count, name))
}

/// A parameter's kind.
#[tactic(auto, unfolding(crate::specs::inner::Standing::stepped))]
pub fn at_kind(
    lexer: &Lexer<'_>,
    token: Token,
    heading: Heading,
    rules: Tally,
    count: u8,
    name: Token,
    draft: &mut Draft,
) -> Result<State, FormFault>
    requires token { IsToken lexer.now.text token }
    requires kind { token.kind ≡ Name }
    ensures moves { (nodes : List (List ℕ)) → Moves lexer.now.text nodes draft.old (states.Kind heading rules count name) (word_mark lexer.now.text token) result nodes draft.new }
    ensures within { KeepsIn lexer.now.text draft.old (states.Kind heading rules count name) result draft.new }
{
    let Some(kind) = kind_named(lexer.text(&token)) else {
        return Err(FormFault::Text { place: token.start });
    };
    draft.declare(ParamForm { name, kind })?;
    Ok(State::Comma(heading, rules, count))
}

/// The sign after a parameter.
#[tactic(auto, unfolding(crate::specs::inner::Standing::stepped))]
pub fn at_comma(
    lexer: &Lexer<'_>,
    token: Token,
    heading: Heading,
    rules: Tally,
    count: u8,
) -> Result<State, FormFault>
    requires { IsToken lexer.now.text token }
    ensures leads { Leads lexer.now.text (states.Comma heading rules count) (sign_mark lexer.now.text token) result }
    ensures within { StaysIn lexer.now.text (states.Comma heading rules count) result }
{
    if reads(lexer, token, b",") {
        return Ok(State::Param(heading, rules, count));
    }
    if !reads(lexer, token, b")") {
        return Err(FormFault::Text { place: token.start });
    }
    Ok(State::Body(heading, rules))
}
