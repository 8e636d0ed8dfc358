//! Moves in a word and in a link: at signs, numbers and `_`.
ghost use Rattle.std.specs.Prelude.{◌≡◌, List, ℕ, Option, true, bytes_eq, codes};
ghost use Rattle.gm_model.specs.declared.token.TokenKind.TheVariants.{Number};
ghost use Rattle.gm_forms.specs.BookText.{RuleForm};
ghost use Rattle.gm_model.specs.Symbols.{Gone};
ghost use Rattle.gm_model.specs.Tokens.{bytes_of};
ghost use Rattle.gm_forms.specs.declared.state.State.TheVariants as states;
ghost use Rattle.gm_forms.specs.inner.Forms.{IsIn};
ghost use Rattle.gm_text.specs.inner.SchemaAnswers.{IsToken};
ghost use Rattle.gm_forms.specs.inner.Standing.{Leads, StaysIn, IsOutside, Gives, stand_in, stepped, number_mark, sign_mark};

use crate::form_fault::FormFault;
use crate::letters::{no_letters, with_letter};
use crate::nodes::Nodes;
use crate::state::{Spot, State};
use crate::words::reads;
use gm_model::{Letter, LimitKind, MOST_NODES, Word};
use gm_text::{Lexer, Token};

/// A letter of a word.
#[tactic(auto, unfolding(crate::specs::inner::Standing::stepped))]
pub fn at_letter(
    lexer: &Lexer<'_>,
    token: Token,
    spot: Spot,
    name: Token,
    word: Word,
) -> Result<State, FormFault>
    requires token { IsToken lexer.now.text token }
    requires kind { token.kind ≡ Number }
    ensures leads { Leads lexer.now.text (states.Letter spot name word) (number_mark lexer.now.text token) result }
    ensures within { StaysIn lexer.now.text (states.Letter spot name word) result }
{
    let value = lexer.value(&token);
    let place = token.start;
    if value > u64::from(spot.heading.top()) {
        let what = LimitKind::Label;
        return Err(FormFault::Limit { what, place });
    }
    match with_letter(word, Letter::At(value as u8)) {
        Some(longer) => Ok(State::Letter(spot, name, longer)),
        None => Err(FormFault::Limit {
            what: LimitKind::Word,
            place,
        }),
    }
}

/// A `_` of a word.
#[tactic(auto, unfolding(crate::specs::inner::Standing::stepped))]
pub fn at_gone(spot: Spot, name: Token, word: Word, place: usize) -> Result<State, FormFault>
    ensures leads { (text : List ℕ) → Leads text (states.Letter spot name word) (record { symbol = Gone; place = place }) result }
    ensures within { (text : List ℕ) → StaysIn text (states.Letter spot name word) result }
{
    match with_letter(word, Letter::Gone) {
        Some(longer) => Ok(State::Letter(spot, name, longer)),
        None => Err(FormFault::Limit {
            what: LimitKind::Word,
            place,
        }),
    }
}

/// A sign in a word.
#[tactic(auto, unfolding(crate::specs::inner::Standing::stepped))]
pub fn at_word_end(
    lexer: &Lexer<'_>,
    token: Token,
    spot: Spot,
    name: Token,
    word: Word,
) -> Result<State, FormFault>
    requires { IsToken lexer.now.text token }
    ensures leads { Leads lexer.now.text (states.Letter spot name word) (sign_mark lexer.now.text token) result }
    ensures within { StaysIn lexer.now.text (states.Letter spot name word) result }
{
    if !reads(lexer, token, b">") {
        return Err(FormFault::Text { place: token.start });
    }
    Ok(State::Behind(spot, name, word))
}

/// A link's label.
#[tactic(auto, unfolding(crate::specs::inner::Standing::stepped))]
pub fn at_label(
    lexer: &Lexer<'_>,
    token: Token,
    spot: Spot,
    from: Token,
) -> Result<State, FormFault>
    requires token { IsToken lexer.now.text token }
    requires kind { token.kind ≡ Number }
    ensures leads { Leads lexer.now.text (states.Label spot from) (number_mark lexer.now.text token) result }
    ensures within { StaysIn lexer.now.text (states.Label spot from) result }
{
    let label = lexer.value(&token);
    if label > u64::from(spot.heading.top()) {
        return Err(FormFault::Limit {
            what: LimitKind::Label,
            place: token.start,
        });
    }
    Ok(State::Dash(spot, from, label as u8))
}

/// The sign after a link's label.
#[tactic(auto, unfolding(crate::specs::inner::Standing::stepped))]
pub fn at_dash(
    lexer: &Lexer<'_>,
    token: Token,
    spot: Spot,
    from: Token,
    label: u8,
) -> Result<State, FormFault>
    requires { IsToken lexer.now.text token }
    ensures leads { Leads lexer.now.text (states.Dash spot from label) (sign_mark lexer.now.text token) result }
    ensures within { StaysIn lexer.now.text (states.Dash spot from label) result }
{
    if !reads(lexer, token, b"-") {
        return Err(FormFault::Text { place: token.start });
    }
    Ok(State::To(spot, from, label))
}

/// A node's sign after its name, which stands at the place `last`.
#[tactic(auto, unfolding(crate::specs::inner::Standing::stepped))]
fn at_node<'a>(
    lexer: &Lexer<'a>,
    token: Token,
    spot: Spot,
    name: Token,
    last: usize,
    nodes: &mut Nodes<'a>,
) -> Result<State, FormFault>
    requires sign { bytes_eq (bytes_of lexer.now.text token) (codes "<") ≡ true }
    requires name { IsIn lexer.now.text name }
    ensures within { StaysIn lexer.now.text (states.Sign spot name) result }
    ensures leads { (rules : List RuleForm) (current : Option RuleForm)
        → Gives (λ next. stand_in lexer.now.text nodes.new rules current next token.start) result (stepped (stand_in lexer.now.text nodes.old rules current (states.Sign spot name) last) (sign_mark lexer.now.text token)) }
{
    nodes.add(lexer.text(&name))?;
    if nodes.len() > MOST_NODES {
        let what = LimitKind::Nodes;
        return Err(FormFault::Limit { what, place: last });
    }
    Ok(State::Letter(spot, name, no_letters()))
}

/// The sign after an item's first name, which stands at the place `last`.
#[tactic(auto, unfolding(crate::specs::inner::Standing::stepped))]
pub fn at_sign<'a>(
    lexer: &Lexer<'a>,
    token: Token,
    spot: Spot,
    name: Token,
    last: usize,
    nodes: &mut Nodes<'a>,
) -> Result<State, FormFault>
    requires token { IsToken lexer.now.text token }
    requires name { IsIn lexer.now.text name }
    ensures within { StaysIn lexer.now.text (states.Sign spot name) result }
    ensures leads { (rules : List RuleForm) (current : Option RuleForm)
        → Gives (λ next. stand_in lexer.now.text nodes.new rules current next token.start) result (stepped (stand_in lexer.now.text nodes.old rules current (states.Sign spot name) last) (sign_mark lexer.now.text token)) }
{
    if reads(lexer, token, b"<") {
        return at_node(lexer, token, spot, name, last, nodes);
    }
    if reads(lexer, token, b"-") {
        return match spot.links.next() {
            Some(links) => Ok(State::Label(Spot { links, ..spot }, name)),
            None => Err(FormFault::Limit {
                what: LimitKind::Links,
                place: last,
            }),
        };
    }
    Err(FormFault::Text { place: token.start })
}

/// Where a number stands.
#[tactic(auto, unfolding(crate::specs::inner::Standing::stepped))]
pub fn at_number(lexer: &Lexer<'_>, token: Token, state: State) -> Result<State, FormFault>
    requires token { IsToken lexer.now.text token }
    requires kind { token.kind ≡ Number }
    requires outside { IsOutside state }
    ensures leads { Leads lexer.now.text state (number_mark lexer.now.text token) result }
    ensures within { StaysIn lexer.now.text state result }
{
    match state {
        State::Letter(spot, name, word) => at_letter(lexer, token, spot, name, word),
        State::Label(spot, from) => at_label(lexer, token, spot, from),
        _ => Err(FormFault::Text { place: token.start }),
    }
}

/// Where a `_` stands.
#[tactic(auto, unfolding(crate::specs::inner::Standing::stepped))]
pub fn gone(state: State, place: usize) -> Result<State, FormFault>
    requires { IsOutside state }
    ensures leads { (text : List ℕ) → Leads text state (record { symbol = Gone; place = place }) result }
    ensures within { (text : List ℕ) → StaysIn text state result }
{
    match state {
        State::Letter(spot, name, word) => at_gone(spot, name, word, place),
        _ => Err(FormFault::Text { place }),
    }
}
