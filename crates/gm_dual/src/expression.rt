//! The dual of an expression.

ghost use Rattle.std.specs.Prelude.{◌≡◌, ◌≤◌, IfOk};
ghost use Rattle.gm_model.specs.Trees.{tree_of};
ghost use Rattle.gm_dual.specs.Duals as duals;
ghost use Rattle.gm_model.specs.declared.limit.TheConstants.{MOST_DIMENSION};

use crate::labels::{dual_mask, dual_path};
use gm_model::{DartTerm, Expr, OutOfMemory, Path};
use std::alloc::Global;

/// The expression with the dual of each path and of each set of labels in it.
#[cycle(dual)]
pub(crate) fn dual_expr(alloc: Global, top: u8, expr: &Expr) -> Result<Expr, OutOfMemory>
    requires { top ≤ MOST_DIMENSION }
    ensures { IfOk result (λ dual. tree_of dual ≡ duals.dual_tree top (tree_of expr.now)) }
{
    match expr {
        Expr::Int(number) => Ok(Expr::Int(*number)),
        Expr::Bool(truth) => Ok(Expr::Bool(*truth)),
        Expr::Param(at) => Ok(Expr::Param(*at)),
        Expr::Field(term, embed) => Ok(Expr::Field(dual_term(alloc, top, term)?, *embed)),
        Expr::Same(term, other) => Ok(Expr::Same(
            dual_term(alloc, top, term)?,
            dual_term(alloc, top, other)?,
        )),
        Expr::Count(mask, term) => Ok(Expr::Count(
            dual_mask(top, *mask),
            dual_term(alloc, top, term)?,
        )),
        Expr::Sum(mask, term, embed) => Ok(Expr::Sum(
            dual_mask(top, *mask),
            dual_term(alloc, top, term)?,
            *embed,
        )),
        Expr::Least(mask, term, embed) => Ok(Expr::Least(
            dual_mask(top, *mask),
            dual_term(alloc, top, term)?,
            *embed,
        )),
        Expr::Greatest(mask, term, embed) => Ok(Expr::Greatest(
            dual_mask(top, *mask),
            dual_term(alloc, top, term)?,
            *embed,
        )),
        Expr::Unary(op, part) => Ok(Expr::Unary(*op, dual_part(alloc, top, part)?)),
        Expr::Binary(op, left, right) => Ok(Expr::Binary(
            *op,
            dual_part(alloc, top, left)?,
            dual_part(alloc, top, right)?,
        )),
        Expr::If(condition, then, other) => Ok(Expr::If(
            dual_part(alloc, top, condition)?,
            dual_part(alloc, top, then)?,
            dual_part(alloc, top, other)?,
        )),
        Expr::MakeVec2(x, y) => Ok(Expr::MakeVec2(
            dual_part(alloc, top, x)?,
            dual_part(alloc, top, y)?,
        )),
        Expr::MakeVec3(x, y, z) => Ok(Expr::MakeVec3(
            dual_part(alloc, top, x)?,
            dual_part(alloc, top, y)?,
            dual_part(alloc, top, z)?,
        )),
        Expr::MakeRgb(red, green, blue) => Ok(Expr::MakeRgb(
            dual_part(alloc, top, red)?,
            dual_part(alloc, top, green)?,
            dual_part(alloc, top, blue)?,
        )),
    }
}

#[cycle(dual)]
fn dual_part(alloc: Global, top: u8, part: &Expr) -> Result<Box<Expr>, OutOfMemory>
    requires { top ≤ MOST_DIMENSION }
    ensures { IfOk result (λ dual. tree_of dual.value ≡ duals.dual_tree top (tree_of part.now)) }
{
    let dual = dual_expr(alloc, top, part)?;
    Ok(Box::new(alloc, dual)?)
}

fn dual_term(alloc: Global, top: u8, term: &DartTerm) -> Result<DartTerm, OutOfMemory>
    ensures { IfOk result (λ dual. dual ≡ duals.dual_term top term.now) }
{
    let labels = dual_path(alloc, top, term.path.as_slice())?;
    Ok(DartTerm {
        node: term.node,
        path: Path::new(labels),
    })
}
