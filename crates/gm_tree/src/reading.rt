//! An expression read as a tree.
ghost use Rattle.std.specs.Prelude.{◌≡◌, ◌≤◌, length, None, IfOk, IfErr, OnErr};
ghost use Rattle.gm_model.specs.Trees.{tree_of};
ghost use Rattle.gm_text.specs.inner.Lexing.{IsBehindToken};
ghost use Rattle.gm_text.specs.inner.SchemaAnswers.{marks_left};
ghost use Rattle.gm_parse.specs.declared.fault.SyntaxFault.{SyntaxFault};
ghost use Rattle.gm_parse.specs.inner.Reading.{spot_at};
ghost use Rattle.gm_parse.specs.inner.Answers.{Advances, HasExpr, Stops, IsExprRead, IsExprFault, IsInRangeOf};
ghost use Rattle.gm_tree.specs.inner.Building.{fault_behind, frames_of, name_fault, operand_tree, part_of, tree_behind, work_of};
ghost use Rattle.gm_tree.specs.inner.Built.{IsBuiltOver, IsLeastOrLost};
ghost use Rattle.std.specs.Option.{option_map};
ghost use Rattle.gm_parse.specs.Meaning.{IsUnsigned};
ghost use Rattle.gm_tree.specs.inner.FirstNames.{first_names};
ghost use Rattle.gm_model.specs.declared.limit.TheConstants.{MOST_DIMENSION};

use crate::builder::Builder;
use crate::partial::Partial;
use gm_model::{Dim, Expr, OutOfMemory, Token};
use gm_parse::{Env, ExprFault, State, advance, key_at};
use gm_text::Lexer;
use std::alloc::Global;

/// What is built over the tokens of an expression, and what is read of its last operand.
struct Built {
    builder: Builder,
    partial: Partial,
}

/// Goes past the next token of an expression, after `count` of them, where it has no fault. Answers `None`
/// where it ends.
fn go_on(lexer: &mut Lexer<'_>, dim: Dim, count: usize, state: &mut State) -> Option<Token>
    requires few { count ≤ 256 }
    requires room { length state.old.open_brackets ≤ count }
    requires faultless { (fault : SyntaxFault) → Stops dim (spot_at count state.old) lexer.old fault → ⊥ }
    ensures { Advances dim (spot_at count state.old) lexer.old result state.new lexer.new }
{
    match advance(lexer, dim, count, state) {
        Ok(found) => found,
        Err(_) => None,
    }
}

fn build(alloc: Global, lexer: &mut Lexer<'_>, env: &Env<'_>) -> Result<Built, OutOfMemory>
    requires { HasExpr env.now.schema.now.dim lexer.old }
    ensures top { IfOk result (λ _. env.now.schema.now.dim ≤ MOST_DIMENSION) }
    ensures over { IfOk result (λ built. IsBuiltOver env.now.schema.now.dim (first_names env.now.schema.now env.now.params.now env.now.nodes.now) lexer.old lexer.new (work_of built.builder built.partial)) }
{
    let dim = env.schema.dim;
    // What is built takes a label for one of the eight that there are.
    let _top = dim.top();
    let mut state = State::new();
    let mut count = 0;
    let mut builder = Builder::new(alloc);
    let mut partial = Partial::Nothing;
    while let Some(token) = go_on(lexer, dim, count, &mut state) {
        let key = key_at(lexer, &token);
        partial = builder.take_in(alloc, env, lexer, &token, key, partial)?;
        count += 1;
    }
    Ok(Built { builder, partial })
}

impl Builder {
    /// The operand that was read last, as a whole.
    fn operand(&mut self, partial: Partial) -> Expr
        ensures tree { tree_of result ≡ operand_tree (part_of partial) }
        ensures least { option_map name_fault self.new.least ≡ fault_behind (option_map name_fault self.old.least) (part_of partial) }
        ensures waiting { self.new.waiting ≡ self.old.waiting }
    {
        match partial {
            Partial::Value(value) => value,
            Partial::Name(named) => {
                self.expect(named.param.is_some(), named.place);
                Expr::Param(named.param.unwrap_or(0))
            }
            _ => Expr::Bool(false),
        }
    }
}

/// The tree of what was built, or the least fault of its names.
fn finish(alloc: Global, built: Built) -> Result<Expr, ExprFault>
    ensures tree { IfOk result (λ expr. tree_of expr ≡ tree_behind (frames_of built.builder.waiting.items) (part_of built.partial)) }
    ensures known { IfOk result (λ _. fault_behind (option_map name_fault built.builder.least) (part_of built.partial) ≡ None) }
    ensures fault { IfErr result (IsLeastOrLost (fault_behind (option_map name_fault built.builder.least) (part_of built.partial))) }
{
    let Built {
        mut builder,
        partial,
    } = built;
    let operand = builder.operand(partial);
    let expr = builder.settle(alloc, operand)?;
    let least = builder.least;
    drop(builder);
    match least {
        None => Ok(expr),
        Some(fault) => {
            drop(expr);
            Err(fault)
        }
    }
}

/// The expression that stands next, its names looked up, which the lexer goes past, to directly
/// after its last token. `skip_expr` must answer `Ok` from here with the dimension of the schema. After a refusal the lexer is as before;
/// the fault is the one at the least place, where a label that is mentioned again counts before an
/// unknown name.
pub fn read_expr(alloc: Global, lexer: &mut Lexer<'_>, env: &Env<'_>) -> Result<Expr, ExprFault>
    requires { HasExpr env.now.schema.now.dim lexer.old }
    ensures expr { IfOk result (λ expr. IsExprRead env.now.schema.now.dim (first_names env.now.schema.now env.now.params.now env.now.nodes.now) lexer.old lexer.new (tree_of expr)) }
    ensures behind { IfOk result (λ _. IsBehindToken lexer.old lexer.new) }
    ensures unsigned { IfOk result (λ expr. IsUnsigned (tree_of expr)) }
    ensures in_range { IfOk result (λ expr. IsInRangeOf env.now.schema.now env.now.params.now env.now.nodes.now (tree_of expr)) }
    ensures fault { IfErr result (IsExprFault env.now.schema.now.dim (first_names env.now.schema.now env.now.params.now env.now.nodes.now) (marks_left lexer.old)) }
    ensures text { lexer.new.text ≡ lexer.old.text }
    ensures refused { OnErr result (lexer.new ≡ lexer.old) }
{
    let mut ahead = lexer.fork();
    let built = build(alloc, &mut ahead, env)?;
    let expr = finish(alloc, built)?;
    *lexer = ahead;
    Ok(expr)
}
