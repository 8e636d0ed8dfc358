//! One token of an expression taken into its tree.
ghost use Rattle.std.specs.Prelude.{◌≡◌, ◌≤◌, IfOk};
ghost use Rattle.std.specs.Option.{option_map};
ghost use Rattle.gm_text.specs.inner.SchemaAnswers.{IsToken, mark_at, symbol_at};
ghost use Rattle.gm_tree.specs.inner.Building as building;
ghost use Rattle.gm_tree.specs.inner.Building.{frames_of, name_fault, part_of, take_in, work_of};
ghost use Rattle.gm_tree.specs.inner.FirstNames.{first_names};
ghost use Rattle.gm_parse.specs.inner.Reading.{key_of};

use crate::builder::Builder;
use crate::names::{embed_named, look_up, node_named};
use crate::operands::{
    end_collected, end_field, end_term, go_along_behind, label_at, lead_of, number_at, term_at,
};
use crate::partial::{Head, Lead, Partial};
use crate::stack::put;
use crate::waiting::Waiting;
use gm_model::{DartTerm, Expr, Mask, OutOfMemory, Token};
use gm_parse::{Env, Key};
use gm_text::Lexer;
use std::alloc::Global;

/// What an operand begins with, where that is no bracket and no operator.
fn begin_operand(env: &Env<'_>, lexer: &Lexer<'_>, token: &Token, key: Key) -> Partial
    requires token { IsToken lexer.now.text token.now }
    requires key { key ≡ key_of (symbol_at lexer.now.text token.now) }
    ensures { part_of result ≡ building.begin_part (first_names env.now.schema.now env.now.params.now env.now.nodes.now) key (mark_at lexer.now.text token.now) }
{
    match key {
        Key::Number => Partial::Value(Expr::Int(number_at(lexer, token))),
        Key::Truth(value) => Partial::Value(Expr::Bool(value)),
        Key::Name => Partial::Name(look_up(env, lexer.text(token), token.start)),
        Key::Same => Partial::BeforeTerm(Lead::First),
        Key::Count => Partial::InOrbit(Head::Count, Mask { bits: 0 }),
        Key::Collect(collector) => Partial::InOrbit(Head::Collect(collector), Mask { bits: 0 }),
        _ => Partial::Nothing,
    }
}

/// What waits for an operand that begins with it.
fn waiting_behind(key: Key) -> Option<Waiting>
    ensures { option_map building.frame_of result ≡ building.begin_frame key }
{
    match key {
        Key::Open => Some(Waiting::Group),
        Key::Operator(_) => Some(Waiting::Minus),
        Key::Not => Some(Waiting::Not),
        Key::If => Some(Waiting::If),
        _ => None,
    }
}

impl Builder {
    fn begin(
        &mut self,
        env: &Env<'_>,
        lexer: &Lexer<'_>,
        token: &Token,
        key: Key,
    ) -> Result<Partial, OutOfMemory>
        requires token { IsToken lexer.now.text token.now }
        requires key { key ≡ key_of (symbol_at lexer.now.text token.now) }
        ensures { IfOk result (λ partial. work_of self.new partial ≡ building.begin (first_names env.now.schema.now env.now.params.now env.now.nodes.now) (frames_of self.old.waiting.items) (option_map name_fault self.old.least) key (mark_at lexer.now.text token.now)) }
    {
        match waiting_behind(key) {
            Some(waiting) => {
                put(&mut self.waiting, waiting)?;
                Ok(Partial::Nothing)
            }
            None => Ok(begin_operand(env, lexer, token, key)),
        }
    }

    fn go_in_orbit(
        &mut self,
        lexer: &Lexer<'_>,
        token: &Token,
        key: Key,
        head: Head,
        mask: Mask,
    ) -> Partial
        requires token { IsToken lexer.now.text token.now }
        requires key { key ≡ key_of (symbol_at lexer.now.text token.now) }
        ensures { work_of self.new result ≡ building.in_orbit (frames_of self.old.waiting.items) (option_map name_fault self.old.least) head mask key (mark_at lexer.now.text token.now) }
    {
        match key {
            Key::Number => self.label(head, mask, label_at(lexer, token), token.start),
            Key::Open => Partial::BeforeTerm(lead_of(head, mask)),
            _ => Partial::InOrbit(head, mask),
        }
    }

    /// A term begins with the node.
    fn begin_term(
        &mut self,
        alloc: Global,
        env: &Env<'_>,
        name: &[u8],
        place: usize,
        lead: Lead,
    ) -> Partial
        ensures { work_of self.new result ≡ building.term_in (first_names env.now.schema.now env.now.params.now env.now.nodes.now) (frames_of self.old.waiting.items) (option_map name_fault self.old.least) lead name.now place }
    {
        let node = node_named(env, name);
        self.expect(node.is_some(), place);
        Partial::BehindTerm(lead, term_at(alloc, node))
    }

    fn go_before_term(
        &mut self,
        alloc: Global,
        env: &Env<'_>,
        lexer: &Lexer<'_>,
        token: &Token,
        key: Key,
        lead: Lead,
    ) -> Partial
        requires token { IsToken lexer.now.text token.now }
        requires key { key ≡ key_of (symbol_at lexer.now.text token.now) }
        ensures { work_of self.new result ≡ building.before_term (first_names env.now.schema.now env.now.params.now env.now.nodes.now) (frames_of self.old.waiting.items) (option_map name_fault self.old.least) lead key (mark_at lexer.now.text token.now) }
    {
        match key {
            Key::Name => self.begin_term(alloc, env, lexer.text(token), token.start, lead),
            _ => Partial::BeforeTerm(lead),
        }
    }

    /// The embedding of a field after the term.
    fn field(
        &mut self,
        env: &Env<'_>,
        name: &[u8],
        place: usize,
        lead: Lead,
        term: DartTerm,
    ) -> Partial
        ensures { work_of self.new result ≡ building.field_in (first_names env.now.schema.now env.now.params.now env.now.nodes.now) (frames_of self.old.waiting.items) (option_map name_fault self.old.least) lead term name.now place }
    {
        let embed = embed_named(env, name);
        self.expect(embed.is_some(), place);
        end_field(lead, term, embed.unwrap_or(0))
    }

    fn go_behind_term(
        &mut self,
        env: &Env<'_>,
        lexer: &Lexer<'_>,
        token: &Token,
        key: Key,
        lead: Lead,
        term: DartTerm,
    ) -> Result<Partial, OutOfMemory>
        requires token { IsToken lexer.now.text token.now }
        requires key { key ≡ key_of (symbol_at lexer.now.text token.now) }
        ensures { IfOk result (λ partial. work_of self.new partial ≡ building.behind_term (first_names env.now.schema.now env.now.params.now env.now.nodes.now) (frames_of self.old.waiting.items) (option_map name_fault self.old.least) lead term key (mark_at lexer.now.text token.now)) }
    {
        match key {
            Key::Number => go_along_behind(lead, term, label_at(lexer, token)),
            Key::Comma => Ok(Partial::BeforeTerm(Lead::Second(term))),
            Key::Close => Ok(end_term(lead, term)),
            Key::Name => Ok(self.field(env, lexer.text(token), token.start, lead, term)),
            _ => Ok(Partial::BehindTerm(lead, term)),
        }
    }

    /// Takes the token in, after what is read of the operand so far.
    pub(crate) fn take_in(
        &mut self,
        alloc: Global,
        env: &Env<'_>,
        lexer: &Lexer<'_>,
        token: &Token,
        key: Key,
        partial: Partial,
    ) -> Result<Partial, OutOfMemory>
        requires token { IsToken lexer.now.text token.now }
        requires key { key ≡ key_of (symbol_at lexer.now.text token.now) }
        ensures { IfOk result (λ next. work_of self.new next ≡ take_in (first_names env.now.schema.now env.now.params.now env.now.nodes.now) (frames_of self.old.waiting.items) (option_map name_fault self.old.least) (part_of partial) key (mark_at lexer.now.text token.now)) }
    {
        match partial {
            Partial::Nothing => self.begin(env, lexer, token, key),
            Partial::Value(value) => self.go_behind(alloc, value, key),
            Partial::Name(named) => self.go_behind_name(alloc, named, key),
            Partial::InOrbit(head, mask) => Ok(self.go_in_orbit(lexer, token, key, head, mask)),
            Partial::BeforeTerm(lead) => {
                Ok(self.go_before_term(alloc, env, lexer, token, key, lead))
            }
            Partial::BehindTerm(lead, term) => {
                self.go_behind_term(env, lexer, token, key, lead, term)
            }
            Partial::BehindField(collector, mask, term, embed) => {
                Ok(end_collected(key, collector, mask, term, embed))
            }
        }
    }
}
