//! An expression joined of whole parts, each in a box of its own.
//!
//! Boxes are made here alone, since arms of a match that can fail several times are dear to prove.
//! Where memory runs out, what is left is dropped by a call, as in the functions of arguments.
ghost use Rattle.std.specs.Prelude.{◌≡◌, IfOk};
ghost use Rattle.gm_model.specs.Trees.{tree_of, Unary, Binary, If, MakeVec2, MakeVec3, MakeRgb};

use gm_model::{BinOp, Expr, OutOfMemory, UnOp};
use std::alloc::Global;

fn boxed(alloc: Global, part: Expr) -> Result<Box<Expr>, OutOfMemory>
    ensures { IfOk result (λ b. tree_of b.value ≡ tree_of part) }
{
    Ok(Box::new(alloc, part)?)
}

/// The box with a second one after it.
fn two_with(alloc: Global, first: Box<Expr>, b: Expr) -> Result<(Box<Expr>, Box<Expr>), OutOfMemory>
    ensures first { IfOk result (λ both. tree_of both.0.value ≡ tree_of first.value) }
    ensures second { IfOk result (λ both. tree_of both.1.value ≡ tree_of b) }
{
    match boxed(alloc, b) {
        Ok(second) => Ok((first, second)),
        Err(error) => {
            drop(first);
            Err(error)
        }
    }
}

fn two(alloc: Global, a: Expr, b: Expr) -> Result<(Box<Expr>, Box<Expr>), OutOfMemory>
    ensures first { IfOk result (λ both. tree_of both.0.value ≡ tree_of a) }
    ensures second { IfOk result (λ both. tree_of both.1.value ≡ tree_of b) }
{
    match boxed(alloc, a) {
        Ok(first) => two_with(alloc, first, b),
        Err(error) => {
            drop(b);
            Err(error)
        }
    }
}

/// The box with two further ones after it.
fn three_with(
    alloc: Global,
    first: Box<Expr>,
    b: Expr,
    c: Expr,
) -> Result<(Box<Expr>, Box<Expr>, Box<Expr>), OutOfMemory>
    ensures first { IfOk result (λ all. tree_of all.0.value ≡ tree_of first.value) }
    ensures second { IfOk result (λ all. tree_of all.1.value ≡ tree_of b) }
    ensures third { IfOk result (λ all. tree_of all.2.value ≡ tree_of c) }
{
    match two(alloc, b, c) {
        Ok((second, third)) => Ok((first, second, third)),
        Err(error) => {
            drop(first);
            Err(error)
        }
    }
}

fn three(
    alloc: Global,
    a: Expr,
    b: Expr,
    c: Expr,
) -> Result<(Box<Expr>, Box<Expr>, Box<Expr>), OutOfMemory>
    ensures first { IfOk result (λ all. tree_of all.0.value ≡ tree_of a) }
    ensures second { IfOk result (λ all. tree_of all.1.value ≡ tree_of b) }
    ensures third { IfOk result (λ all. tree_of all.2.value ≡ tree_of c) }
{
    match boxed(alloc, a) {
        Ok(first) => three_with(alloc, first, b, c),
        Err(error) => {
            drop((b, c));
            Err(error)
        }
    }
}

pub(crate) fn unary(alloc: Global, op: UnOp, part: Expr) -> Result<Expr, OutOfMemory>
    ensures { IfOk result (λ e. tree_of e ≡ Unary op (tree_of part)) }
{
    Ok(Expr::Unary(op, boxed(alloc, part)?))
}

pub(crate) fn binary(alloc: Global, op: BinOp, a: Expr, b: Expr) -> Result<Expr, OutOfMemory>
    ensures { IfOk result (λ e. tree_of e ≡ Binary op (tree_of a) (tree_of b)) }
{
    let (left, right) = two(alloc, a, b)?;
    Ok(Expr::Binary(op, left, right))
}

pub(crate) fn vec2(alloc: Global, a: Expr, b: Expr) -> Result<Expr, OutOfMemory>
    ensures { IfOk result (λ e. tree_of e ≡ MakeVec2 (tree_of a) (tree_of b)) }
{
    let (first, second) = two(alloc, a, b)?;
    Ok(Expr::MakeVec2(first, second))
}

pub(crate) fn vec3(alloc: Global, a: Expr, b: Expr, c: Expr) -> Result<Expr, OutOfMemory>
    ensures { IfOk result (λ e. tree_of e ≡ MakeVec3 (tree_of a) (tree_of b) (tree_of c)) }
{
    let (first, second, third) = three(alloc, a, b, c)?;
    Ok(Expr::MakeVec3(first, second, third))
}

pub(crate) fn rgb(alloc: Global, a: Expr, b: Expr, c: Expr) -> Result<Expr, OutOfMemory>
    ensures { IfOk result (λ e. tree_of e ≡ MakeRgb (tree_of a) (tree_of b) (tree_of c)) }
{
    let (first, second, third) = three(alloc, a, b, c)?;
    Ok(Expr::MakeRgb(first, second, third))
}

pub(crate) fn choice(
    alloc: Global,
    condition: Expr,
    one: Expr,
    other: Expr,
) -> Result<Expr, OutOfMemory>
    ensures { IfOk result (λ e. tree_of e ≡ If (tree_of condition) (tree_of one) (tree_of other)) }
{
    let (condition, one, other) = three(alloc, condition, one, other)?;
    Ok(Expr::If(condition, one, other))
}
