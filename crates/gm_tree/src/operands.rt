//! The operands of an expression: numbers, names, dart terms and what is read at them.
ghost use Rattle.std.specs.Prelude.{◌≡◌, ◌≤◌, ◌++◌, ◌∷◌, [], min, pos, IfOk};
ghost use Rattle.std.specs.Option.{option_map};
ghost use Rattle.gm_model.specs.declared.token.TokenKind.TheVariants.{Number};
ghost use Rattle.gm_model.specs.Trees.{tree_of};
ghost use Rattle.gm_parse.specs.Meaning as meaning;
ghost use Rattle.gm_model.specs.Symbols.{value_of};
ghost use Rattle.gm_model.specs.Tokens.{bytes_of};
ghost use Rattle.gm_text.specs.inner.SchemaAnswers.{IsToken};
ghost use Rattle.gm_tree.specs.inner.Building.{behind_name, frames_of, labelled, name_fault, work_of};
ghost use Rattle.gm_tree.specs.inner.Building as building;
ghost use Rattle.gm_parse.specs.Spelling.{greatest};

use crate::builder::Builder;
use crate::partial::{Callee, Head, Lead, Named, Partial};
use crate::stack::put;
use crate::waiting::Waiting;
use gm_model::{DartTerm, Expr, Mask, OutOfMemory, Path, Token};
use gm_parse::{Collector, Key};
use gm_text::{Lexer, with_label};
use std::alloc::Global;

const GREATEST: u64 = 9_223_372_036_854_775_807;

/// The number of the token; the greatest one stands for a number that is greater.
pub(crate) fn number_at(lexer: &Lexer<'_>, token: &Token) -> i64
    requires token { IsToken lexer.now.text token.now }
    requires kind { token.now.kind ≡ Number }
    ensures { result ≡ pos (min (value_of (bytes_of lexer.now.text token.now)) greatest) }
{
    lexer.value(token).min(GREATEST) as i64
}

/// The label of the token; the greatest one stands for a number that is greater.
pub(crate) fn label_at(lexer: &Lexer<'_>, token: &Token) -> u8
    requires token { IsToken lexer.now.text token.now }
    requires kind { token.now.kind ≡ Number }
    ensures { result ≡ min (value_of (bytes_of lexer.now.text token.now)) 7 }
{
    lexer.value(token).min(7) as u8
}

pub(crate) fn term_at(alloc: Global, node: Option<u8>) -> DartTerm
    ensures { result ≡ building.term_at node }
{
    DartTerm {
        node: node.unwrap_or(0),
        path: Path::new(Vec::new(alloc)),
    }
}

/// What stands in the parentheses after an orbit.
pub(crate) fn lead_of(head: Head, mask: Mask) -> Lead
    ensures { result ≡ building.lead_of head mask }
{
    match head {
        Head::Count => Lead::Counted(mask),
        Head::Collect(collector) => Lead::Collected(collector, mask),
    }
}

/// The term with a further label.
fn go_along(term: DartTerm, label: u8) -> Result<DartTerm, OutOfMemory>
    ensures { IfOk result (λ longer. longer ≡ record term { path = term.path ++ label ∷ [] }) }
{
    let DartTerm { node, path } = term;
    let mut labels = path.into_vec();
    labels.push(label)?;
    Ok(DartTerm {
        node,
        path: Path::new(labels),
    })
}

/// What is read after the term with a further label.
pub(crate) fn go_along_behind(lead: Lead, term: DartTerm, label: u8) -> Result<Partial, OutOfMemory>
    ensures { IfOk result (λ partial. building.part_of partial ≡ building.BehindTerm lead (record term { path = term.path ++ label ∷ [] })) }
{
    match go_along(term, label) {
        Ok(term) => Ok(Partial::BehindTerm(lead, term)),
        Err(error) => {
            drop(lead);
            Err(error)
        }
    }
}

/// What a term and `)` end.
pub(crate) fn end_term(lead: Lead, term: DartTerm) -> Partial
    ensures { building.part_of result ≡ building.term_value lead term }
{
    match lead {
        Lead::Second(first) => Partial::Value(Expr::Same(first, term)),
        Lead::Counted(mask) => Partial::Value(Expr::Count(mask, term)),
        _ => Partial::Nothing,
    }
}

/// What the name of an embedding after a term ends.
pub(crate) fn end_field(lead: Lead, term: DartTerm, embed: u8) -> Partial
    ensures { building.part_of result ≡ building.field_part lead term embed }
{
    match lead {
        Lead::Plain => Partial::Value(Expr::Field(term, embed)),
        Lead::Collected(collector, mask) => Partial::BehindField(collector, mask, term, embed),
        _ => Partial::Nothing,
    }
}

/// What `)` ends in the parentheses of a function of an orbit.
pub(crate) fn end_collected(
    key: Key,
    collector: Collector,
    mask: Mask,
    term: DartTerm,
    embed: u8,
) -> Partial
    ensures { building.part_of result ≡ building.field_end key collector mask term embed }
{
    match key {
        Key::Close => Partial::Value(collect(collector, mask, term, embed)),
        _ => Partial::BehindField(collector, mask, term, embed),
    }
}

fn collect(collector: Collector, mask: Mask, term: DartTerm, embed: u8) -> Expr
    ensures { tree_of result ≡ meaning.collect collector mask term embed }
{
    match collector {
        Collector::Sum => Expr::Sum(mask, term, embed),
        Collector::Least => Expr::Least(mask, term, embed),
        Collector::Greatest => Expr::Greatest(mask, term, embed),
    }
}

impl Builder {
    ghost use Rattle.gm_model.specs.declared.limit.TheConstants.{MOST_DIMENSION};
    /// Goes on after a name.
    pub(crate) fn go_behind_name(
        &mut self,
        alloc: Global,
        named: Named,
        key: Key,
    ) -> Result<Partial, OutOfMemory>
        ensures { IfOk result (λ partial. work_of self.new partial ≡ behind_name (frames_of self.old.waiting.items) (option_map name_fault self.old.least) named key) }
    {
        match key {
            Key::Open => {
                let Named {
                    function,
                    place,
                    ..
                } = named;
                put(
                    &mut self.waiting,
                    Waiting::First(Callee { function, place }),
                )?;
                Ok(Partial::Nothing)
            }
            Key::At | Key::Dot => {
                self.expect(named.node.is_some(), named.place);
                Ok(Partial::BehindTerm(Lead::Plain, term_at(alloc, named.node)))
            }
            _ => {
                self.expect(named.param.is_some(), named.place);
                self.go_behind(alloc, Expr::Param(named.param.unwrap_or(0)), key)
            }
        }
    }

    pub(crate) fn label(&mut self, head: Head, mask: Mask, label: u8, place: usize) -> Partial
        requires { label ≤ MOST_DIMENSION }
        ensures { work_of self.new result ≡ labelled (frames_of self.old.waiting.items) (option_map name_fault self.old.least) head mask label place }
    {
        self.expect_once(mask.has(label), place);
        Partial::InOrbit(head, with_label(mask, label))
    }
}
