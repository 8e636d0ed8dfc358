//! How tightly operators bind, and what the place on their right asks for.
ghost use Rattle.std.specs.Prelude.{◌≡◌};
ghost use Rattle.gm_parse.specs.Levels as levels;

use gm_model::BinOp;

/// How tightly the operator binds.
pub fn binary_level(op: BinOp) -> u8
    ensures { result ≡ levels.binary_level op }
{
    match op {
        BinOp::Or => 1,
        BinOp::And => 2,
        BinOp::Eq | BinOp::Ne | BinOp::Lt | BinOp::Le | BinOp::Gt | BinOp::Ge => 4,
        BinOp::Add | BinOp::Sub => 5,
        BinOp::Mul | BinOp::Div | BinOp::Rem => 6,
    }
}

/// The least level on the operator's right that goes without parentheses.
pub fn least_on_right(op: BinOp) -> u8
    ensures { result ≡ levels.least_on_right op }
{
    match op {
        BinOp::Or => 2,
        BinOp::And => 3,
        BinOp::Add | BinOp::Sub => 6,
        BinOp::Mul | BinOp::Div | BinOp::Rem => 7,
        _ => 5,
    }
}
