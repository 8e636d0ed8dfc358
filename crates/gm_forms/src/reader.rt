//! Moves at a word in the rules of a book.
ghost use Rattle.std.specs.Prelude.{◌≡◌, ◌≤◌, List, ℕ, [], None, length, IfOk};
ghost use Rattle.std.specs.List.{AllByRecursion};
ghost use Rattle.gm_model.specs.declared.rule.Side.TheVariants.{Left, Right};
ghost use Rattle.gm_model.specs.declared.token.TokenKind.TheVariants.{Name};
ghost use Rattle.gm_forms.specs.declared.state.State.TheVariants as states;
ghost use Rattle.gm_forms.specs.inner.Forms.{IsIn, IsRuleIn};
ghost use Rattle.gm_text.specs.inner.SchemaAnswers.{IsToken, marks_left};
ghost use Rattle.gm_forms.specs.inner.Standing.{IsStateIn, IsDraftIn, IsOutside, Leads, StaysIn, Moves, KeepsIn, MovesFrom, EndsFrom, GoesPast, read_on, stand_of, mark_of, word_mark, sign_mark};

use crate::draft::Draft;
use crate::exprs::{at_equal, at_set, on_right, past_pre_value, past_set_value};
use crate::form::Item;
use crate::form_fault::FormFault;
use crate::nodes::Nodes;
use crate::params::{at_colon, at_comma, at_kind, at_open, at_param};
use crate::signs::{at_dash, at_number, at_sign, at_word_end, gone};
use crate::state::{Heading, Spot, State};
use crate::tally::Tally;
use crate::words::reads;
use gm_model::{LimitKind, MOST_NAME_BYTES, Side, Word};
use gm_text::{Lexer, Token, TokenKind, is_reserved};
use std::alloc::Global;

/// What of a book is read so far, but for the item that is read.
#[derive(Drop)]
pub struct Reader<'a> {
    pub draft: Draft,
    pub nodes: Nodes<'a>,
}

/// After the header, where the first rule can begin.
#[tactic(auto, unfolding(crate::specs::inner::Standing::stepped))]
pub fn at_rules(lexer: &Lexer<'_>, token: Token, heading: Heading) -> Result<State, FormFault>
    requires { IsToken lexer.now.text token }
    ensures leads { Leads lexer.now.text (states.Rules heading) (word_mark lexer.now.text token) result }
    ensures within { StaysIn lexer.now.text (states.Rules heading) result }
{
    if !reads(lexer, token, b"rule") {
        return Err(FormFault::Text { place: token.start });
    }
    Ok(State::Name(heading, Tally::one()))
}

#[tactic(auto, unfolding(crate::specs::inner::Standing::stepped))]
fn at_left_item(lexer: &Lexer<'_>, token: Token, spot: Spot) -> Result<State, FormFault>
    requires token { IsToken lexer.now.text token }
    requires kind { token.kind ≡ Name }
    requires side { spot.side ≡ Left }
    ensures leads { Leads lexer.now.text (states.Item spot) (word_mark lexer.now.text token) result }
    ensures within { StaysIn lexer.now.text (states.Item spot) result }
{
    let word = lexer.text(&token);
    let place = token.start;
    if reads(lexer, token, b"right") {
        return Ok(State::Item(Spot {
            side: Side::Right,
            links: Tally::none(),
            ..spot
        }));
    }
    if is_reserved(word) {
        return Err(FormFault::Text { place });
    }
    if word.len() > MOST_NAME_BYTES {
        let what = LimitKind::Name;
        return Err(FormFault::Limit { what, place });
    }
    Ok(State::Sign(spot, token))
}

impl<'a> Reader<'a> {
    pub fn new(alloc: Global) -> Reader<'a>
        ensures rules { result.draft.rules.items ≡ [] }
        ensures current { result.draft.current ≡ None }
    {
        Reader {
            draft: Draft::new(alloc),
            nodes: Nodes::new(alloc),
        }
    }

    #[tactic(auto, unfolding(crate::specs::inner::Standing::stepped))]
    pub fn at_name(
        &mut self,
        alloc: Global,
        lexer: &Lexer<'a>,
        token: Token,
        heading: Heading,
        rules: Tally,
    ) -> Result<State, FormFault>
        requires token { IsToken lexer.now.text token }
        requires kind { token.kind ≡ Name }
        ensures moves { Moves lexer.now.text self.old.nodes self.old.draft (states.Name heading rules) (word_mark lexer.now.text token) result self.new.nodes self.new.draft }
        ensures within { KeepsIn lexer.now.text self.old.draft (states.Name heading rules) result self.new.draft }
    {
        let word = lexer.text(&token);
        let place = token.start;
        if is_reserved(word) {
            return Err(FormFault::Text { place });
        }
        if word.len() > MOST_NAME_BYTES {
            let what = LimitKind::Name;
            return Err(FormFault::Limit { what, place });
        }
        self.draft.open(alloc, token);
        Ok(State::Left(heading, rules))
    }

    /// After a rule's name, or after its parameters.
    #[tactic(auto, unfolding(crate::specs::inner::Standing::stepped))]
    pub fn at_left(
        &mut self,
        lexer: &Lexer<'a>,
        token: Token,
        heading: Heading,
        rules: Tally,
    ) -> Result<State, FormFault>
        requires { IsToken lexer.now.text token }
        ensures moves { Moves lexer.now.text self.old.nodes self.old.draft (states.Left heading rules) (word_mark lexer.now.text token) result self.new.nodes self.new.draft }
        ensures within { KeepsIn lexer.now.text self.old.draft (states.Left heading rules) result self.new.draft }
        ensures body_moves { Moves lexer.now.text self.old.nodes self.old.draft (states.Body heading rules) (word_mark lexer.now.text token) result self.new.nodes self.new.draft }
        ensures body_within { KeepsIn lexer.now.text self.old.draft (states.Body heading rules) result self.new.draft }
    {
        if !reads(lexer, token, b"left") {
            return Err(FormFault::Text { place: token.start });
        }
        self.nodes.clear();
        Ok(State::Item(Spot {
            heading,
            rules,
            side: Side::Left,
            links: Tally::none(),
            hooked: false,
        }))
    }

    #[tactic(auto, unfolding(crate::specs::inner::Standing::stepped))]
    fn at_right_item(
        &mut self,
        lexer: &Lexer<'a>,
        token: Token,
        spot: Spot,
    ) -> Result<State, FormFault>
        requires token { IsToken lexer.now.text token }
        requires kind { token.kind ≡ Name }
        requires side { spot.side ≡ Right }
        ensures moves { Moves lexer.now.text self.old.nodes self.old.draft (states.Item spot) (word_mark lexer.now.text token) result self.new.nodes self.new.draft }
        ensures within { KeepsIn lexer.now.text self.old.draft (states.Item spot) result self.new.draft }
    {
        let word = lexer.text(&token);
        let place = token.start;
        if reads(lexer, token, b"rule") {
            let Some(rules) = spot.rules.next() else {
                let what = LimitKind::Rules;
                return Err(FormFault::Limit { what, place });
            };
            self.draft.close()?;
            return Ok(State::Name(spot.heading, rules));
        }
        if reads(lexer, token, b"pre") {
            return Ok(State::Pre(spot.heading, spot.rules));
        }
        if is_reserved(word) {
            return Err(FormFault::Text { place });
        }
        if word.len() > MOST_NAME_BYTES {
            let what = LimitKind::Name;
            return Err(FormFault::Limit { what, place });
        }
        Ok(State::Sign(spot, token))
    }

    fn at_item(&mut self, lexer: &Lexer<'a>, token: Token, spot: Spot) -> Result<State, FormFault>
        requires token { IsToken lexer.now.text token }
        requires kind { token.kind ≡ Name }
        ensures moves { Moves lexer.now.text self.old.nodes self.old.draft (states.Item spot) (word_mark lexer.now.text token) result self.new.nodes self.new.draft }
        ensures within { KeepsIn lexer.now.text self.old.draft (states.Item spot) result self.new.draft }
    {
        match spot.side {
            Side::Left => at_left_item(lexer, token, spot),
            Side::Right => self.at_right_item(lexer, token, spot),
        }
    }

    fn at_left_behind(
        &mut self,
        alloc: Global,
        lexer: &Lexer<'a>,
        token: Token,
        spot: Spot,
        name: Token,
        word: Word,
    ) -> Result<State, FormFault>
        requires token { IsToken lexer.now.text token }
        requires kind { token.kind ≡ Name }
        requires side { spot.side ≡ Left }
        ensures moves { Moves lexer.now.text self.old.nodes self.old.draft (states.Behind spot name word) (word_mark lexer.now.text token) result self.new.nodes self.new.draft }
        ensures within { KeepsIn lexer.now.text self.old.draft (states.Behind spot name word) result self.new.draft }
    {
        let hook = spot.takes_hook() && reads(lexer, token, b"hook");
        self.draft.put_node(alloc, Side::Left, name, word, hook)?;
        if hook {
            let hooked = true;
            return Ok(State::Item(Spot { hooked, ..spot }));
        }
        at_left_item(lexer, token, spot)
    }

    #[tactic(auto, unfolding(crate::specs::inner::Standing::stepped))]
    fn at_right_behind(
        &mut self,
        alloc: Global,
        lexer: &Lexer<'a>,
        token: Token,
        spot: Spot,
        name: Token,
        word: Word,
    ) -> Result<State, FormFault>
        requires token { IsToken lexer.now.text token }
        requires kind { token.kind ≡ Name }
        requires side { spot.side ≡ Right }
        ensures moves { Moves lexer.now.text self.old.nodes self.old.draft (states.Behind spot name word) (word_mark lexer.now.text token) result self.new.nodes self.new.draft }
        ensures within { KeepsIn lexer.now.text self.old.draft (states.Behind spot name word) result self.new.draft }
    {
        let hook = false;
        self.draft.put_node(alloc, Side::Right, name, word, hook)?;
        if reads(lexer, token, b"with") {
            return Ok(State::Set(spot));
        }
        self.at_right_item(lexer, token, spot)
    }

    /// After a whole assignment.
    #[tactic(auto, unfolding(crate::specs::inner::Standing::stepped))]
    fn at_assigned(
        &mut self,
        lexer: &Lexer<'a>,
        token: Token,
        spot: Spot,
    ) -> Result<State, FormFault>
        requires token { IsToken lexer.now.text token }
        requires kind { token.kind ≡ Name }
        ensures moves { Moves lexer.now.text self.old.nodes self.old.draft (states.Assigned spot) (word_mark lexer.now.text token) result self.new.nodes self.new.draft }
        ensures within { KeepsIn lexer.now.text self.old.draft (states.Assigned spot) result self.new.draft }
    {
        if reads(lexer, token, b"with") {
            return Ok(State::Set(on_right(spot)));
        }
        self.at_right_item(lexer, token, on_right(spot))
    }

    /// After a rule's precondition.
    #[tactic(auto, unfolding(crate::specs::inner::Standing::stepped))]
    fn at_rule_end(
        &mut self,
        lexer: &Lexer<'a>,
        token: Token,
        heading: Heading,
        rules: Tally,
    ) -> Result<State, FormFault>
        requires { IsToken lexer.now.text token }
        ensures moves { Moves lexer.now.text self.old.nodes self.old.draft (states.RuleEnd heading rules) (word_mark lexer.now.text token) result self.new.nodes self.new.draft }
        ensures within { KeepsIn lexer.now.text self.old.draft (states.RuleEnd heading rules) result self.new.draft }
    {
        let place = token.start;
        if !reads(lexer, token, b"rule") {
            return Err(FormFault::Text { place });
        }
        let Some(rules) = rules.next() else {
            let what = LimitKind::Rules;
            return Err(FormFault::Limit { what, place });
        };
        self.draft.close()?;
        Ok(State::Name(heading, rules))
    }

    /// Goes past the expression, where one stands next.
    pub fn past_value(&mut self, lexer: &mut Lexer<'a>, state: State) -> Result<State, FormFault>
        requires { IsStateIn lexer.old.text state }
        ensures text { lexer.new.text ≡ lexer.old.text }
        ensures onward { IfOk result (λ _. lexer.old.place ≤ lexer.new.place) }
        ensures outside { IfOk result (λ next. IsOutside next) }
        ensures within { KeepsIn lexer.old.text self.old.draft state result self.new.draft }
        ensures past { (last : ℕ) → GoesPast (read_on (stand_of lexer.old.text self.old.nodes self.old.draft state last) (marks_left lexer.old)) (λ next. read_on (stand_of lexer.old.text self.new.nodes self.new.draft next last) (marks_left lexer.new)) result }
    {
        match state {
            State::Value(spot, embed) => past_set_value(&mut self.draft, lexer, spot, embed),
            State::Pre(heading, rules) => past_pre_value(&mut self.draft, lexer, heading, rules),
            _ => Ok(state),
        }
    }

    #[tactic(auto, unfolding(crate::specs::inner::Standing::stepped))]
    fn at_to(
        &mut self,
        lexer: &Lexer<'a>,
        token: Token,
        spot: Spot,
        from: Token,
        label: u8,
    ) -> Result<State, FormFault>
        requires token { IsToken lexer.now.text token }
        requires kind { token.kind ≡ Name }
        ensures moves { Moves lexer.now.text self.old.nodes self.old.draft (states.To spot from label) (word_mark lexer.now.text token) result self.new.nodes self.new.draft }
        ensures within { KeepsIn lexer.now.text self.old.draft (states.To spot from label) result self.new.draft }
    {
        let word = lexer.text(&token);
        let place = token.start;
        if is_reserved(word) {
            return Err(FormFault::Text { place });
        }
        if word.len() > MOST_NAME_BYTES {
            let what = LimitKind::Name;
            return Err(FormFault::Limit { what, place });
        }
        let to = token;
        self.draft.put(spot.side, Item::Link { from, label, to })?;
        Ok(State::Item(spot))
    }

    /// Where a word stands.
    #[tactic(auto, unfolding(crate::specs::inner::Standing::stepped))]
    pub fn word(
        &mut self,
        alloc: Global,
        lexer: &Lexer<'a>,
        token: Token,
        state: State,
    ) -> Result<State, FormFault>
        requires token { IsToken lexer.now.text token }
        requires kind { token.kind ≡ Name }
        requires outside { IsOutside state }
        ensures moves { Moves lexer.now.text self.old.nodes self.old.draft state (word_mark lexer.now.text token) result self.new.nodes self.new.draft }
        ensures within { KeepsIn lexer.now.text self.old.draft state result self.new.draft }
    {
        match state {
            State::Rules(heading) => at_rules(lexer, token, heading),
            State::Name(heading, rules) => self.at_name(alloc, lexer, token, heading, rules),
            State::Left(heading, rules) => self.at_left(lexer, token, heading, rules),
            State::Param(heading, rules, count) => at_param(lexer, token, heading, rules, count),
            State::Kind(heading, rules, count, name) => {
                at_kind(lexer, token, heading, rules, count, name, &mut self.draft)
            }
            State::Body(heading, rules) => self.at_left(lexer, token, heading, rules),
            State::Item(spot) => self.at_item(lexer, token, spot),
            State::Behind(spot, name, word) => self.at_behind(
                alloc, lexer, token, spot, name, word,
            ),
            State::Assigned(spot) => self.at_assigned(lexer, token, spot),
            State::Set(spot) => at_set(lexer, token, spot),
            State::RuleEnd(heading, rules) => self.at_rule_end(lexer, token, heading, rules),
            State::To(spot, from, label) => self.at_to(lexer, token, spot, from, label),
            _ => Err(FormFault::Text { place: token.start }),
        }
    }

    fn at_behind(
        &mut self,
        alloc: Global,
        lexer: &Lexer<'a>,
        token: Token,
        spot: Spot,
        name: Token,
        word: Word,
    ) -> Result<State, FormFault>
        requires token { IsToken lexer.now.text token }
        requires kind { token.kind ≡ Name }
        ensures moves { Moves lexer.now.text self.old.nodes self.old.draft (states.Behind spot name word) (word_mark lexer.now.text token) result self.new.nodes self.new.draft }
        ensures within { KeepsIn lexer.now.text self.old.draft (states.Behind spot name word) result self.new.draft }
    {
        match spot.side {
            Side::Left => self.at_left_behind(alloc, lexer, token, spot, name, word),
            Side::Right => self.at_right_behind(alloc, lexer, token, spot, name, word),
        }
    }

    /// Where a sign stands. The token before it stands at the place `last`.
    #[tactic(auto, unfolding(crate::specs::inner::Standing::stepped))]
    fn sign(
        &mut self,
        lexer: &Lexer<'a>,
        token: Token,
        state: State,
        last: usize,
    ) -> Result<State, FormFault>
        requires token { IsToken lexer.now.text token }
        requires state { IsStateIn lexer.now.text state }
        requires outside { IsOutside state }
        ensures moves { MovesFrom last lexer.now.text self.old.nodes self.old.draft state (sign_mark lexer.now.text token) result self.new.nodes self.new.draft }
        ensures within { KeepsIn lexer.now.text self.old.draft state result self.new.draft }
    {
        match state {
            State::Left(heading, rules) => at_open(lexer, token, heading, rules),
            State::Colon(heading, rules, count, name) => {
                at_colon(lexer, token, heading, rules, count, name)
            }
            State::Comma(heading, rules, count) => at_comma(lexer, token, heading, rules, count),
            State::Equal(spot, embed) => at_equal(lexer, token, spot, embed),
            State::Sign(spot, name) => at_sign(lexer, token, spot, name, last, &mut self.nodes),
            State::Letter(spot, name, word) => at_word_end(lexer, token, spot, name, word),
            State::Dash(spot, from, label) => at_dash(lexer, token, spot, from, label),
            _ => Err(FormFault::Text { place: token.start }),
        }
    }

    /// The state after a token. The token before it stands at the place `last`.
    pub fn step(
        &mut self,
        alloc: Global,
        lexer: &Lexer<'a>,
        token: Token,
        state: State,
        last: usize,
    ) -> Result<State, FormFault>
        requires token { IsToken lexer.now.text token }
        requires state { IsStateIn lexer.now.text state }
        requires outside { IsOutside state }
        ensures moves { MovesFrom last lexer.now.text self.old.nodes self.old.draft state (mark_of lexer.now.text token) result self.new.nodes self.new.draft }
        ensures within { KeepsIn lexer.now.text self.old.draft state result self.new.draft }
    {
        match token.kind {
            TokenKind::Name => self.word(alloc, lexer, token, state),
            TokenKind::Number => at_number(lexer, token, state),
            TokenKind::Gone => gone(state, token.start),
            TokenKind::Sign => self.sign(lexer, token, state, last),
        }
    }

    /// The book's end, where it can end.
    #[tactic(auto, unfolding(crate::specs::inner::Standing::stepped))]
    pub fn end(&mut self, alloc: Global, state: State, place: usize) -> Result<(), FormFault>
        requires { IsOutside state }
        ensures within { (text : List ℕ) → IsDraftIn text self.old.draft → IsStateIn text state → IfOk result (λ _. AllByRecursion (IsRuleIn text) self.new.draft.rules.items) }
        ensures ends { (text : List ℕ) → EndsFrom text self.old.nodes self.old.draft state place result self.new.draft }
    {
        match state {
            State::Rules(_) => Ok(()),
            State::Item(spot) => self.end_item(spot, place),
            State::Behind(spot, name, word) => self.end_behind(alloc, spot, name, word, place),
            State::Assigned(spot) => self.end_item(on_right(spot), place),
            State::RuleEnd(..) => {
                self.draft.close()?;
                Ok(())
            }
            _ => Err(FormFault::Text { place }),
        }
    }

    #[tactic(auto, unfolding(crate::specs::inner::Standing::stepped))]
    fn end_item(&mut self, spot: Spot, place: usize) -> Result<(), FormFault>
        ensures within { (text : List ℕ) → IsDraftIn text self.old.draft → IfOk result (λ _. AllByRecursion (IsRuleIn text) self.new.draft.rules.items) }
        ensures ends { (text : List ℕ) → EndsFrom text self.old.nodes self.old.draft (states.Item spot) place result self.new.draft }
    {
        match spot.side {
            Side::Left => Err(FormFault::Text { place }),
            Side::Right => {
                self.draft.close()?;
                Ok(())
            }
        }
    }

    fn end_behind(
        &mut self,
        alloc: Global,
        spot: Spot,
        name: Token,
        word: Word,
        place: usize,
    ) -> Result<(), FormFault>
        ensures within { (text : List ℕ) → IsDraftIn text self.old.draft → IsIn text name → IfOk result (λ _. AllByRecursion (IsRuleIn text) self.new.draft.rules.items) }
        ensures ends { (text : List ℕ) → EndsFrom text self.old.nodes self.old.draft (states.Behind spot name word) place result self.new.draft }
    {
        let hook = false;
        self.draft.put_node(alloc, spot.side, name, word, hook)?;
        self.end_item(spot, place)
    }
}
