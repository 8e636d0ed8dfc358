//! How tightly operators bind, what each place asks for, and the signs that are written.
ghost use Rattle.std.specs.Prelude.{◌≡◌};
ghost use Rattle.gm_model.specs.Trees.{tree_of};
ghost use Rattle.gm_expr.specs.ExprText.{head_of, level, sign_of, tail_of};
ghost use Rattle.gm_text.specs.ValueText.{truth_text};
ghost use Rattle.gm_parse.specs.Levels.{least_of_part, least_on_left, unary_level};

use gm_model::{BinOp, Expr, UnOp};
use gm_parse::binary_level;

/// The level of what is no operator: a leaf, or a function with its arguments.
const ATOM: u8 = 8;

/// How tightly the form of an expression binds.
pub(crate) fn level_of(expr: &Expr) -> u8
    ensures { result ≡ level (tree_of expr.now) }
{
    match expr {
        Expr::If(_, _, _) => 0,
        Expr::Binary(op, _, _) => binary_level(*op),
        Expr::Unary(op, _) => level_of_unary(*op),
        _ => ATOM,
    }
}

fn level_of_unary(op: UnOp) -> u8
    ensures { result ≡ unary_level op }
{
    match op {
        UnOp::Not => 3,
        UnOp::Neg => 7,
        _ => ATOM,
    }
}

/// The least level of the operator's part that goes without parentheses of its own.
pub(crate) fn least_within(op: UnOp) -> u8
    ensures { result ≡ least_of_part op }
{
    match op {
        UnOp::Not => 3,
        UnOp::Neg => 7,
        _ => 0,
    }
}

/// The least level on the operator's left that goes without parentheses.
pub(crate) fn least_left(op: BinOp) -> u8
    ensures { result ≡ least_on_left op }
{
    match op {
        BinOp::Or => 1,
        BinOp::And => 2,
        BinOp::Mul | BinOp::Div | BinOp::Rem => 6,
        _ => 5,
    }
}

/// The sign of the operator, with its blanks.
pub(crate) fn sign(op: BinOp) -> &'static [u8]
    ensures { result.now ≡ sign_of op }
{
    match op {
        BinOp::Add => b" + ",
        BinOp::Sub => b" - ",
        BinOp::Mul => b" * ",
        BinOp::Div => b" / ",
        BinOp::Rem => b" % ",
        BinOp::Eq => b" == ",
        BinOp::Ne => b" != ",
        BinOp::Lt => b" < ",
        BinOp::Le => b" <= ",
        BinOp::Gt => b" > ",
        BinOp::Ge => b" >= ",
        BinOp::And => b" and ",
        BinOp::Or => b" or ",
    }
}

/// What stands before the operator's part.
pub(crate) fn head(op: UnOp) -> &'static [u8]
    ensures { result.now ≡ head_of op }
{
    match op {
        UnOp::Neg => b"-",
        UnOp::Not => b"not ",
        UnOp::X => b"x(",
        UnOp::Y => b"y(",
        UnOp::Z => b"z(",
        UnOp::Red => b"red(",
        UnOp::Green => b"green(",
        UnOp::Blue => b"blue(",
    }
}

/// What stands after the operator's part.
pub(crate) fn tail(op: UnOp) -> &'static [u8]
    ensures { result.now ≡ tail_of op }
{
    match op {
        UnOp::Neg | UnOp::Not => b"",
        _ => b")",
    }
}

pub(crate) fn truth(value: bool) -> &'static [u8]
    ensures { result.now ≡ truth_text value }
{
    if value { b"true" } else { b"false" }
}
