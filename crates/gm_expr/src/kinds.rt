//! The kind of an expression, by the table of kinds.
ghost use Rattle.std.specs.Prelude.{◌≡◌, slice_get};
ghost use Rattle.std.specs.Option.{option_map, option_and_then};
ghost use Rattle.gm_model.specs.Kinds.{binary_kind, choice_kind, common, numeric, of_bools, of_ints, only_int, param_kinds, product_kind, quotient_kind, sum_kind, tree_kind, triple_kind, unary_kind, with_three, with_two};
ghost use Rattle.gm_model.specs.Trees.{tree_of};
ghost use Rattle.gm_model.specs.declared.schema.Embed.{Embed};
ghost use Rattle.gm_model.specs.declared.value.Kind.TheVariants.{Bool, Vec2};

use gm_model::{BinOp, Expr, Kind, Param, Schema, UnOp};

/// The kind of an expression of a rule with these parameters, over the schema. `None` where the
/// table of kinds gives it none, and where a number stands for no parameter or embedding.
#[cycle(kind)]
pub fn type_expr(schema: &Schema, params: &[Param], expr: &Expr) -> Option<Kind>
    ensures { result ≡ tree_kind schema.now.embeds (param_kinds params.now) (tree_of expr.now) }
{
    match expr {
        Expr::Bool(_) | Expr::Same(_, _) => Some(Kind::Bool),
        Expr::Int(_) | Expr::Count(_, _) => Some(Kind::Int),
        Expr::Param(at) => param_kind(params, *at),
        Expr::Field(_, embed) => value_kind(schema, *embed),
        Expr::Sum(_, _, embed) => type_sum(schema, *embed),
        Expr::Least(_, _, embed) | Expr::Greatest(_, _, embed) => type_extreme(schema, *embed),
        Expr::Unary(op, part) => type_unary(schema, params, *op, part),
        Expr::Binary(op, left, right) => type_binary(schema, params, *op, left, right),
        Expr::If(condition, then, other) => type_choice(schema, params, condition, then, other),
        Expr::MakeVec2(x, y) => type_pair(schema, params, x, y),
        Expr::MakeVec3(x, y, z) => type_triple(schema, params, Kind::Vec3, x, y, z),
        Expr::MakeRgb(red, green, blue) => {
            type_triple(schema, params, Kind::Rgb, red, green, blue)
        }
    }
}

#[cycle(kind)]
fn type_unary(schema: &Schema, params: &[Param], op: UnOp, part: &Expr) -> Option<Kind>
    ensures { result ≡ option_and_then (unary_kind op) (tree_kind schema.now.embeds (param_kinds params.now) (tree_of part.now)) }
{
    kind_of_unary(op, type_expr(schema, params, part)?)
}

#[cycle(kind)]
fn type_binary(
    schema: &Schema,
    params: &[Param],
    op: BinOp,
    left: &Expr,
    right: &Expr,
) -> Option<Kind>
    ensures { result ≡ with_two (binary_kind op) (tree_kind schema.now.embeds (param_kinds params.now) (tree_of left.now)) (tree_kind schema.now.embeds (param_kinds params.now) (tree_of right.now)) }
{
    let left = type_expr(schema, params, left)?;
    kind_of_binary(op, left, type_expr(schema, params, right)?)
}

#[cycle(kind)]
fn type_choice(
    schema: &Schema,
    params: &[Param],
    condition: &Expr,
    then: &Expr,
    other: &Expr,
) -> Option<Kind>
    ensures { result ≡ with_three choice_kind (tree_kind schema.now.embeds (param_kinds params.now) (tree_of condition.now)) (tree_kind schema.now.embeds (param_kinds params.now) (tree_of then.now)) (tree_kind schema.now.embeds (param_kinds params.now) (tree_of other.now)) }
{
    let condition = type_expr(schema, params, condition)?;
    let then = type_expr(schema, params, then)?;
    kind_of_choice(condition, then, type_expr(schema, params, other)?)
}

#[cycle(kind)]
fn type_pair(schema: &Schema, params: &[Param], x: &Expr, y: &Expr) -> Option<Kind>
    ensures { result ≡ with_two (of_ints Vec2) (tree_kind schema.now.embeds (param_kinds params.now) (tree_of x.now)) (tree_kind schema.now.embeds (param_kinds params.now) (tree_of y.now)) }
{
    let x = type_expr(schema, params, x)?;
    kind_from_two(Kind::Vec2, x, type_expr(schema, params, y)?)
}

#[cycle(kind)]
fn type_triple(
    schema: &Schema,
    params: &[Param],
    kind: Kind,
    first: &Expr,
    second: &Expr,
    third: &Expr,
) -> Option<Kind>
    ensures { result ≡ with_three (triple_kind kind) (tree_kind schema.now.embeds (param_kinds params.now) (tree_of first.now)) (tree_kind schema.now.embeds (param_kinds params.now) (tree_of second.now)) (tree_kind schema.now.embeds (param_kinds params.now) (tree_of third.now)) }
{
    let first = type_expr(schema, params, first)?;
    let second = type_expr(schema, params, second)?;
    kind_from_three(kind, first, second, type_expr(schema, params, third)?)
}

fn type_sum(schema: &Schema, embed: u8) -> Option<Kind>
    ensures { result ≡ option_and_then sum_kind (option_map (λ (embed : Embed). embed.kind) (slice_get schema.now.embeds embed)) }
{
    kind_of_sum(value_kind(schema, embed)?)
}

/// The kind of a least or a greatest value.
fn type_extreme(schema: &Schema, embed: u8) -> Option<Kind>
    ensures { result ≡ option_and_then only_int (option_map (λ (embed : Embed). embed.kind) (slice_get schema.now.embeds embed)) }
{
    kind_of_extreme(value_kind(schema, embed)?)
}

fn param_kind(params: &[Param], at: u8) -> Option<Kind>
    ensures { result ≡ slice_get (param_kinds params.now) at }
{
    Some(params.get(usize::from(at))?.kind)
}

fn value_kind(schema: &Schema, embed: u8) -> Option<Kind>
    ensures { result ≡ option_map (λ (embed : Embed). embed.kind) (slice_get schema.now.embeds embed) }
{
    Some(schema.embeds.as_slice().get(usize::from(embed))?.kind)
}

/// Numbers, and vectors of numbers.
fn numeric_kind(kind: Kind) -> Option<Kind>
    ensures { result ≡ numeric kind }
{
    match kind {
        Kind::Int | Kind::Vec2 | Kind::Vec3 => Some(kind),
        Kind::Bool | Kind::Rgb => None,
    }
}

/// A sum of colours is a vector.
fn kind_of_sum(kind: Kind) -> Option<Kind>
    ensures { result ≡ sum_kind kind }
{
    match kind {
        Kind::Rgb => Some(Kind::Vec3),
        _ => numeric_kind(kind),
    }
}

fn kind_of_extreme(kind: Kind) -> Option<Kind>
    ensures { result ≡ only_int kind }
{
    match kind {
        Kind::Int => Some(Kind::Int),
        _ => None,
    }
}

fn kind_of_unary(op: UnOp, kind: Kind) -> Option<Kind>
    ensures { result ≡ unary_kind op kind }
{
    match (op, kind) {
        (UnOp::Neg, _) => numeric_kind(kind),
        (UnOp::Not, Kind::Bool) => Some(Kind::Bool),
        (UnOp::X | UnOp::Y, Kind::Vec2 | Kind::Vec3) => Some(Kind::Int),
        (UnOp::Z, Kind::Vec3) => Some(Kind::Int),
        (UnOp::Red | UnOp::Green | UnOp::Blue, Kind::Rgb) => Some(Kind::Int),
        _ => None,
    }
}

fn kind_of_binary(op: BinOp, left: Kind, right: Kind) -> Option<Kind>
    ensures { result ≡ binary_kind op left right }
{
    match op {
        BinOp::Add | BinOp::Sub => numeric_kind(common_kind(left, right)?),
        BinOp::Mul => kind_of_product(left, right),
        BinOp::Div => kind_of_quotient(left, right),
        BinOp::Rem => kind_from_two(Kind::Int, left, right),
        BinOp::Eq | BinOp::Ne => kind_of_equality(left, right),
        BinOp::Lt | BinOp::Le | BinOp::Gt | BinOp::Ge => kind_from_two(Kind::Bool, left, right),
        BinOp::And | BinOp::Or => kind_of_logic(left, right),
    }
}

/// The kind of both, where it is one.
fn common_kind(left: Kind, right: Kind) -> Option<Kind>
    ensures { result ≡ common left right }
{
    if left == right { Some(left) } else { None }
}

/// A number by anything numeric, and a vector by a number.
fn kind_of_product(left: Kind, right: Kind) -> Option<Kind>
    ensures { result ≡ product_kind left right }
{
    match (left, right) {
        (Kind::Int, _) => numeric_kind(right),
        (Kind::Vec2 | Kind::Vec3, Kind::Int) => Some(left),
        _ => None,
    }
}

fn kind_of_quotient(left: Kind, right: Kind) -> Option<Kind>
    ensures { result ≡ quotient_kind left right }
{
    match right {
        Kind::Int => numeric_kind(left),
        _ => None,
    }
}

fn kind_of_equality(left: Kind, right: Kind) -> Option<Kind>
    ensures { result ≡ option_map (λ _. Bool) (common left right) }
{
    common_kind(left, right)?;
    Some(Kind::Bool)
}

fn kind_of_logic(left: Kind, right: Kind) -> Option<Kind>
    ensures { result ≡ of_bools left right }
{
    match (left, right) {
        (Kind::Bool, Kind::Bool) => Some(Kind::Bool),
        _ => None,
    }
}

/// This kind, where both parts are numbers.
fn kind_from_two(kind: Kind, first: Kind, second: Kind) -> Option<Kind>
    ensures { result ≡ of_ints kind first second }
{
    match (first, second) {
        (Kind::Int, Kind::Int) => Some(kind),
        _ => None,
    }
}

/// This kind, where all three parts are numbers.
fn kind_from_three(kind: Kind, first: Kind, second: Kind, third: Kind) -> Option<Kind>
    ensures { result ≡ triple_kind kind first second third }
{
    match (first, second, third) {
        (Kind::Int, Kind::Int, Kind::Int) => Some(kind),
        _ => None,
    }
}

fn kind_of_choice(condition: Kind, then: Kind, other: Kind) -> Option<Kind>
    ensures { result ≡ choice_kind condition then other }
{
    match condition {
        Kind::Bool => common_kind(then, other),
        _ => None,
    }
}
