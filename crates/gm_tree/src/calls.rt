//! Functions of their arguments.
//!
//! What is let go is dropped by a call: left to the end of its scope, each place where that ends
//! would be proved over all variants of its type.
ghost use Rattle.std.specs.Prelude.{◌≡◌, ◌∷◌, [], IfOk, is_some};
ghost use Rattle.gm_model.specs.Trees.{tree_of};
ghost use Rattle.gm_tree.specs.inner.Building as building;
ghost use Rattle.gm_tree.specs.inner.Building.{closed, enclosed, frame_of, next_frame};
ghost use Rattle.gm_parse.specs.declared.key.Key.TheVariants.{Comma, Then, Else};
ghost use Rattle.gm_parse.specs.Meaning.{arity as arity_of, call_of, with_arity};

use crate::joining::{binary, choice, rgb, unary, vec2, vec3};
use crate::partial::Callee;
use crate::waiting::Waiting;
use gm_model::{Expr, OutOfMemory, UnOp};
use gm_parse::{Function, Key};
use std::alloc::Global;

fn arity(function: Function) -> usize
    ensures { result ≡ arity_of function }
{
    match function {
        Function::Vec2 => 2,
        Function::Vec3 | Function::Rgb => 3,
        Function::Part(_) => 1,
    }
}

/// Whether it is a function with `count` arguments.
pub(crate) fn takes(function: Option<Function>, count: usize) -> bool
    ensures { result ≡ is_some (with_arity function count) }
{
    match function {
        Some(function) => arity(function) == count,
        None => false,
    }
}

pub(crate) fn call_with_one(
    alloc: Global,
    function: Option<Function>,
    a: Expr,
) -> Result<Expr, OutOfMemory>
    ensures { IfOk result (λ e. tree_of e ≡ call_of function (tree_of a ∷ [])) }
{
    match function {
        Some(Function::Part(op)) => unary(alloc, op, a),
        _ => {
            drop(a);
            Ok(Expr::Bool(false))
        }
    }
}

pub(crate) fn call_with_two(
    alloc: Global,
    function: Option<Function>,
    a: Expr,
    b: Expr,
) -> Result<Expr, OutOfMemory>
    ensures { IfOk result (λ e. tree_of e ≡ call_of function (tree_of a ∷ tree_of b ∷ [])) }
{
    match function {
        Some(Function::Vec2) => vec2(alloc, a, b),
        _ => {
            drop((a, b));
            Ok(Expr::Bool(false))
        }
    }
}

pub(crate) fn call_with_three(
    alloc: Global,
    function: Option<Function>,
    a: Expr,
    b: Expr,
    c: Expr,
) -> Result<Expr, OutOfMemory>
    ensures { IfOk result (λ e. tree_of e ≡ call_of function (tree_of a ∷ tree_of b ∷ tree_of c ∷ [])) }
{
    match function {
        Some(Function::Vec3) => vec3(alloc, a, b, c),
        Some(Function::Rgb) => rgb(alloc, a, b, c),
        _ => {
            drop((a, b, c));
            Ok(Expr::Bool(false))
        }
    }
}

/// The place of the function, where it doesn't take `count` arguments.
fn misfit_of(callee: Callee, count: usize) -> Option<usize>
    ensures { result ≡ building.misfit_of callee count }
{
    if takes(callee.function, count) {
        None
    } else {
        Some(callee.place)
    }
}

/// The place of the function that doesn't take its arguments, of which the last one is to come.
pub(crate) fn misfit(waiting: &Waiting) -> Option<usize>
    ensures { result ≡ building.misfit (frame_of waiting.now) }
{
    match waiting {
        Waiting::First(callee) => misfit_of(*callee, 1),
        Waiting::Second(callee, _) => misfit_of(*callee, 2),
        Waiting::Third(callee, _, _) => misfit_of(*callee, 3),
        Waiting::Beyond(callee) => Some(callee.place),
        _ => None,
    }
}

/// A bracket with the last operand in it.
pub(crate) fn enclose(alloc: Global, waiting: Waiting, operand: Expr) -> Result<Expr, OutOfMemory>
    ensures { IfOk result (λ e. tree_of e ≡ enclosed (frame_of waiting) (tree_of operand)) }
{
    match waiting {
        Waiting::First(callee) => {
            drop(waiting);
            call_with_one(alloc, callee.function, operand)
        }
        Waiting::Second(callee, a) => call_with_two(alloc, callee.function, a, operand),
        Waiting::Third(callee, a, b) => call_with_three(alloc, callee.function, a, b, operand),
        Waiting::Beyond(_) => {
            drop((waiting, operand));
            Ok(Expr::Bool(false))
        }
        _ => {
            drop(waiting);
            Ok(operand)
        }
    }
}

/// A function whose next argument begins after the operand.
fn go_on_with_argument(waiting: Waiting, operand: Expr) -> Waiting
    ensures { frame_of result ≡ next_frame Comma (frame_of waiting) (tree_of operand) }
{
    match waiting {
        Waiting::First(callee) => {
            drop(waiting);
            Waiting::Second(callee, operand)
        }
        Waiting::Second(callee, a) => Waiting::Third(callee, a, operand),
        Waiting::Third(callee, _, _) => {
            drop((waiting, operand));
            Waiting::Beyond(callee)
        }
        _ => {
            drop(operand);
            waiting
        }
    }
}

/// A condition whose first part begins after the operand.
fn go_on_with_then(waiting: Waiting, operand: Expr) -> Waiting
    ensures { frame_of result ≡ next_frame Then (frame_of waiting) (tree_of operand) }
{
    match waiting {
        Waiting::If => {
            drop(waiting);
            Waiting::Then(operand)
        }
        _ => {
            drop(operand);
            waiting
        }
    }
}

/// A condition whose other part begins after the operand.
fn go_on_with_else(waiting: Waiting, operand: Expr) -> Waiting
    ensures { frame_of result ≡ next_frame Else (frame_of waiting) (tree_of operand) }
{
    match waiting {
        Waiting::Then(condition) => Waiting::Else(condition, operand),
        _ => {
            drop(operand);
            waiting
        }
    }
}

/// A bracket whose next part begins after the operand.
pub(crate) fn go_on(key: Key, waiting: Waiting, operand: Expr) -> Waiting
    ensures { frame_of result ≡ next_frame key (frame_of waiting) (tree_of operand) }
{
    match key {
        Key::Comma => go_on_with_argument(waiting, operand),
        Key::Then => go_on_with_then(waiting, operand),
        Key::Else => go_on_with_else(waiting, operand),
        _ => {
            drop(operand);
            waiting
        }
    }
}

/// What waited with its operand; a bracket leaves no trace.
pub(crate) fn close(alloc: Global, waiting: Waiting, operand: Expr) -> Result<Expr, OutOfMemory>
    ensures { IfOk result (λ e. tree_of e ≡ closed (frame_of waiting) (tree_of operand)) }
{
    match waiting {
        Waiting::Left(op, left) => binary(alloc, op, left, operand),
        Waiting::Minus => unary(alloc, UnOp::Neg, operand),
        Waiting::Not => unary(alloc, UnOp::Not, operand),
        Waiting::Else(condition, one) => choice(alloc, condition, one, operand),
        bracket => {
            drop(bracket);
            Ok(operand)
        }
    }
}
