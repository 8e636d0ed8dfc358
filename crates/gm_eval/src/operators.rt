//! Operators on values, each by the table of kinds.

ghost use Rattle.std.specs.Prelude.{◌≡◌, ◌≢◌, ◌↔◌, ◌⊎◌, IsTrue, pos, map, IsSome, MatchOption, int_lt, int_le, ◌&&◌, ◌||◌};
ghost use Rattle.gm_model.specs.Expressions.{IsUnary, IsBinary, IsComponent, IsScaled, IsProduct, IsQuotient, IsRemainder, IsTest, IsLogic, IsMade, components, floor};
ghost use Rattle.gm_model.specs.declared.expr.UnOp.TheVariants.{Neg, Not};
ghost use Rattle.gm_model.specs.declared.expr.BinOp.TheVariants.{Add, Sub, Mul, Div};
ghost use Rattle.gm_model.specs.Kinds.{numeric, unary_kind, binary_kind};
ghost use Rattle.gm_model.specs.Values.{kind_of};
ghost use Rattle.gm_eval.specs.inner.Made.{IsNone};

use crate::numbers::{
    difference, int, int_of, opposite, product, quotient, remainder, sum, vec2, vec2_of, vec3,
    vec3_of,
};
use gm_model::{BinOp, UnOp, Value};

/// The value of an operator of one part.
pub(crate) fn unary(op: UnOp, part: Value) -> Option<Value>
    requires kind { IsSome (unary_kind op (kind_of part)) }
    ensures { MatchOption result (IsNone (IsUnary op part)) (IsUnary op part) }
{
    match op {
        UnOp::Neg => negated(part),
        UnOp::Not => inverted(part),
        UnOp::X | UnOp::Red => first(part),
        UnOp::Y | UnOp::Green => second(part),
        UnOp::Z | UnOp::Blue => third(part),
    }
}

/// The value of an operator of two parts.
// Inlined, it takes the values where they were read. So do the operators that are most met.
#[inline(always)]
pub(crate) fn binary(op: BinOp, left: Value, right: Value) -> Option<Value>
    requires kind { IsSome (binary_kind op (kind_of left) (kind_of right)) }
    ensures { MatchOption result (IsNone (IsBinary op left right)) (IsBinary op left right) }
{
    match op {
        BinOp::Add => added(left, right),
        BinOp::Sub => subtracted(left, right),
        BinOp::Div => divided(left, right),
        _ => other(op, (left, right)),
    }
}

/// Whether it is an operator that rules have most.
#[inline(always)]
pub(crate) fn is_most_met(op: BinOp) -> bool
    ensures { IsTrue result → (op ≡ Add) ⊎ (op ≡ Sub) ⊎ (op ≡ Div) }
{
    match op {
        BinOp::Add | BinOp::Sub | BinOp::Div => true,
        _ => false,
    }
}

/// The value of an operator that rules have most.
// No colour or truth is a part of these, so that of parts that were read for them the kind and the
// numbers alone are moved.
#[inline(always)]
pub(crate) fn most_met(op: BinOp, left: Value, right: Value) -> Option<Value>
    requires kind { IsSome (binary_kind op (kind_of left) (kind_of right)) }
    requires op { (op ≡ Add) ⊎ (op ≡ Sub) ⊎ (op ≡ Div) }
    ensures { MatchOption result (IsNone (IsBinary op left right)) (IsBinary op left right) }
{
    match op {
        BinOp::Add => added(left, right),
        BinOp::Sub => subtracted(left, right),
        BinOp::Div => divided(left, right),
        _ => unreachable!(),
    }
}

/// The value of an operator of two parts that is met less.
// The parts are a pair, which is made for this call alone: else they would lie in memory for all
// operators, where they stay in registers.
#[inline(never)]
fn other(op: BinOp, parts: (Value, Value)) -> Option<Value>
    requires kind { IsSome (binary_kind op (kind_of parts.0) (kind_of parts.1)) }
    requires added { op ≢ Add }
    requires subtracted { op ≢ Sub }
    requires divided { op ≢ Div }
    ensures { MatchOption result (IsNone (IsBinary op parts.0 parts.1)) (IsBinary op parts.0 parts.1) }
{
    let (left, right) = parts;
    match op {
        BinOp::Add | BinOp::Sub | BinOp::Div => unreachable!(),
        BinOp::Mul => multiplied(left, right),
        BinOp::Rem => rest(left, right),
        BinOp::Eq => Some(Value::Bool(are_same(left, right))),
        BinOp::Ne => Some(Value::Bool(!are_same(left, right))),
        BinOp::Lt => less(left, right),
        BinOp::Le => at_most(left, right),
        BinOp::Gt => less(right, left),
        BinOp::Ge => at_most(right, left),
        BinOp::And => both(left, right),
        BinOp::Or => either(left, right),
    }
}

/// Whether the values are one.
fn are_same(left: Value, right: Value) -> bool
    ensures { IsTrue result ↔ (left ≡ right) }
{
    left == right
}

/// The opposite of each component.
fn negated(part: Value) -> Option<Value>
    requires kind { IsSome (numeric (kind_of part)) }
    ensures { MatchOption result (IsNone (IsUnary Neg part)) (IsUnary Neg part) }
{
    match part {
        Value::Int(x) => int(opposite(x)),
        Value::Vec2(x, y) => vec2(opposite(x), opposite(y)),
        Value::Vec3(x, y, z) => vec3(opposite(x), opposite(y), opposite(z)),
        Value::Bool(_) | Value::Rgb(_, _, _) => unreachable!(),
    }
}

/// The other truth.
fn inverted(part: Value) -> Option<Value>
    ensures { MatchOption result (IsNone (IsUnary Not part)) (IsUnary Not part) }
{
    match part {
        Value::Bool(truth) => Some(Value::Bool(!truth)),
        _ => None,
    }
}

/// The first component.
fn first(part: Value) -> Option<Value>
    ensures { MatchOption result (IsNone (IsComponent 0 part)) (IsComponent 0 part) }
{
    match part {
        Value::Int(x) | Value::Vec2(x, _) | Value::Vec3(x, _, _) => Some(Value::Int(x)),
        Value::Rgb(red, _, _) => Some(Value::Int(red as i64)),
        Value::Bool(_) => None,
    }
}

/// The second component.
fn second(part: Value) -> Option<Value>
    ensures { MatchOption result (IsNone (IsComponent 1 part)) (IsComponent 1 part) }
{
    match part {
        Value::Vec2(_, y) | Value::Vec3(_, y, _) => Some(Value::Int(y)),
        Value::Rgb(_, green, _) => Some(Value::Int(green as i64)),
        Value::Int(_) | Value::Bool(_) => None,
    }
}

/// The third component.
fn third(part: Value) -> Option<Value>
    ensures { MatchOption result (IsNone (IsComponent 2 part)) (IsComponent 2 part) }
{
    match part {
        Value::Vec3(_, _, z) => Some(Value::Int(z)),
        Value::Rgb(_, _, blue) => Some(Value::Int(blue as i64)),
        Value::Int(_) | Value::Bool(_) | Value::Vec2(_, _) => None,
    }
}

/// The sum, component by component.
#[inline(always)]
fn added(left: Value, right: Value) -> Option<Value>
    requires kind { IsSome (binary_kind Add (kind_of left) (kind_of right)) }
    ensures { MatchOption result (IsNone (IsBinary Add left right)) (IsBinary Add left right) }
{
    match (left, right) {
        (Value::Int(x), Value::Int(a)) => int_of(sum(x, a)),
        (Value::Vec2(x, y), Value::Vec2(a, b)) => { vec2_of(sum(x, a), sum(y, b)) }
        (Value::Vec3(x, y, z), Value::Vec3(a, b, c)) => vec3_of(sum(x, a), sum(y, b), sum(z, c)),
        _ => unreachable!(),
    }
}

/// The difference, component by component.
#[inline(always)]
fn subtracted(left: Value, right: Value) -> Option<Value>
    requires kind { IsSome (binary_kind Sub (kind_of left) (kind_of right)) }
    ensures { MatchOption result (IsNone (IsBinary Sub left right)) (IsBinary Sub left right) }
{
    match (left, right) {
        (Value::Int(x), Value::Int(a)) => int_of(difference(x, a)),
        (Value::Vec2(x, y), Value::Vec2(a, b)) => { vec2_of(difference(x, a), difference(y, b)) }
        (Value::Vec3(x, y, z), Value::Vec3(a, b, c)) => vec3_of(
            difference(x, a),
            difference(y, b),
            difference(z, c),
        ),
        _ => unreachable!(),
    }
}

/// A number times a number or each component, whichever comes first.
fn multiplied(left: Value, right: Value) -> Option<Value>
    requires kind { IsSome (binary_kind Mul (kind_of left) (kind_of right)) }
    ensures { MatchOption result (IsNone (IsProduct left right)) (IsProduct left right) }
{
    match (left, right) {
        (Value::Int(number), _) => scaled(number, right),
        (_, Value::Int(number)) => scaled(number, left),
        _ => unreachable!(),
    }
}

/// The number times each component.
fn scaled(number: i64, value: Value) -> Option<Value>
    requires kind { IsSome (numeric (kind_of value)) }
    ensures { MatchOption result (IsNone (IsScaled number value)) (IsScaled number value) }
{
    match value {
        Value::Int(x) => int(product(number, x)),
        Value::Vec2(x, y) => vec2(product(number, x), product(number, y)),
        Value::Vec3(x, y, z) => vec3(product(number, x), product(number, y), product(number, z)),
        Value::Bool(_) | Value::Rgb(_, _, _) => unreachable!(),
    }
}

/// The quotient of each component, rounded down; none by 0.
#[inline(always)]
fn divided(left: Value, right: Value) -> Option<Value>
    requires kind { IsSome (binary_kind Div (kind_of left) (kind_of right)) }
    ensures { MatchOption result (IsNone (IsQuotient left right)) (IsQuotient left right) }
{
    match right {
        Value::Int(divisor) if divisor != 0 => quotients(left, divisor),
        _ => None,
    }
}

/// The quotient of each component.
#[inline(always)]
fn quotients(value: Value, divisor: i64) -> Option<Value>
    requires kind { IsSome (numeric (kind_of value)) }
    requires divisor { divisor ≢ pos 0 }
    ensures { MatchOption result
        (IsNone (IsMade (kind_of value) (map (λ x. floor x divisor) (components value))))
        (IsMade (kind_of value) (map (λ x. floor x divisor) (components value))) }
{
    match value {
        Value::Int(x) => int_of(quotient(x, divisor)),
        Value::Vec2(x, y) => vec2_of(quotient(x, divisor), quotient(y, divisor)),
        Value::Vec3(x, y, z) => vec3_of(
            quotient(x, divisor),
            quotient(y, divisor),
            quotient(z, divisor),
        ),
        Value::Bool(_) | Value::Rgb(_, _, _) => unreachable!(),
    }
}

/// What the quotient rounded down leaves; none by 0.
fn rest(left: Value, right: Value) -> Option<Value>
    ensures { MatchOption result (IsNone (IsRemainder left right)) (IsRemainder left right) }
{
    match (left, right) {
        (Value::Int(number), Value::Int(divisor)) if divisor != 0 => {
            int(remainder(number, divisor))
        }
        _ => None,
    }
}

/// Whether the first number is less.
fn less(left: Value, right: Value) -> Option<Value>
    ensures { MatchOption result (IsNone (IsTest int_lt left right)) (IsTest int_lt left right) }
{
    match (left, right) {
        (Value::Int(x), Value::Int(y)) => Some(Value::Bool(x < y)),
        _ => None,
    }
}

/// Whether the first number is at most the second.
fn at_most(left: Value, right: Value) -> Option<Value>
    ensures { MatchOption result (IsNone (IsTest int_le left right)) (IsTest int_le left right) }
{
    match (left, right) {
        (Value::Int(x), Value::Int(y)) => Some(Value::Bool(x <= y)),
        _ => None,
    }
}

/// Whether both are true.
fn both(left: Value, right: Value) -> Option<Value>
    ensures { MatchOption result (IsNone (IsLogic ◌&&◌ left right)) (IsLogic ◌&&◌ left right) }
{
    match (left, right) {
        (Value::Bool(x), Value::Bool(y)) => Some(Value::Bool(x && y)),
        _ => None,
    }
}

/// Whether one at least is true.
fn either(left: Value, right: Value) -> Option<Value>
    ensures { MatchOption result (IsNone (IsLogic ◌||◌ left right)) (IsLogic ◌||◌ left right) }
{
    match (left, right) {
        (Value::Bool(x), Value::Bool(y)) => Some(Value::Bool(x || y)),
        _ => None,
    }
}
