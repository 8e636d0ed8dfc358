//! The canonical text of an expression.
ghost use Rattle.std.specs.Prelude.{◌≡◌, ◌++◌, ◌<◌, ℕ, codes, length, OnOk, OnErr};
ghost use Rattle.gm_model.specs.Rules.{rule_of};
ghost use Rattle.gm_model.specs.Trees.{tree_of, Unary, Binary, If, MakeVec2};
ghost use Rattle.gm_text.specs.inner.SchemaPrinting.{IsCut};
ghost use Rattle.gm_expr.specs.ExprText.{expr_text, param_name, triple_text, wrapped, IsNamed};

use crate::levels::{head, least_left, least_within, level_of, sign, tail, truth};
use crate::terms::{print_collector, print_count, print_field, print_same};
use gm_model::{BinOp, Expr, OutOfMemory, Param, RuleTable, Schema, UnOp};
use gm_parse::least_on_right;
use gm_text::Text;

/// Appends the canonical text of an expression of the rule, over the schema. Where memory
/// runs out, it appends a front of that text.
#[cycle(print)]
pub fn print_expr(
    out: &mut Text,
    schema: &Schema,
    rule: &RuleTable,
    expr: &Expr,
) -> Result<(), OutOfMemory>
    requires { IsNamed schema.now (rule_of rule.now) (tree_of expr.now) }
    ensures ok { OnOk result (out.new ≡ out.old ++ expr_text schema.now (rule_of rule.now) (tree_of expr.now)) }
    ensures err { OnErr result (IsCut out.old (expr_text schema.now (rule_of rule.now) (tree_of expr.now)) out.new) }
{
    match expr {
        Expr::Int(number) => out.signed(*number),
        Expr::Bool(value) => out.put(truth(*value)),
        Expr::Param(at) => print_param(out, rule.params.as_slice(), *at),
        Expr::Field(term, embed) => print_field(out, schema, rule, term, *embed),
        Expr::Same(left, right) => print_same(out, rule, left, right),
        Expr::Count(mask, term) => print_count(out, rule, *mask, term),
        Expr::Sum(mask, term, embed) => {
            print_collector(out, schema, rule, b"sum", *mask, term, *embed)
        }
        Expr::Least(mask, term, embed) => {
            print_collector(out, schema, rule, b"min", *mask, term, *embed)
        }
        Expr::Greatest(mask, term, embed) => {
            print_collector(out, schema, rule, b"max", *mask, term, *embed)
        }
        Expr::Unary(op, part) => print_unary(out, schema, rule, *op, part),
        Expr::Binary(op, left, right) => print_binary(out, schema, rule, *op, left, right),
        Expr::If(condition, then, other) => print_if(out, schema, rule, condition, then, other),
        Expr::MakeVec2(x, y) => print_pair(out, schema, rule, x, y),
        Expr::MakeVec3(x, y, z) => print_triple(out, schema, rule, b"vec3(", x, y, z),
        Expr::MakeRgb(red, green, blue) => {
            print_triple(out, schema, rule, b"rgb(", red, green, blue)
        }
    }
}

fn print_param(out: &mut Text, params: &[Param], at: u8) -> Result<(), OutOfMemory>
    requires { at < length params.now }
    ensures ok { OnOk result (out.new ≡ out.old ++ param_name params.now at) }
    ensures err { OnErr result (out.new ≡ out.old) }
{
    out.put(params[usize::from(at)].name.bytes())
}

/// An expression after what leads to it.
#[cycle(print)]
fn print_behind(
    out: &mut Text,
    schema: &Schema,
    rule: &RuleTable,
    lead: &[u8],
    expr: &Expr,
) -> Result<(), OutOfMemory>
    requires { IsNamed schema.now (rule_of rule.now) (tree_of expr.now) }
    ensures ok { OnOk result (out.new ≡ out.old ++ (lead.now ++ expr_text schema.now (rule_of rule.now) (tree_of expr.now))) }
    ensures err { OnErr result (IsCut out.old (lead.now ++ expr_text schema.now (rule_of rule.now) (tree_of expr.now)) out.new) }
{
    out.put(lead)?;
    print_expr(out, schema, rule, expr)
}

/// The part of another expression at a place that asks for a level.
#[cycle(print)]
fn print_part(
    out: &mut Text,
    schema: &Schema,
    rule: &RuleTable,
    least: u8,
    part: &Expr,
) -> Result<(), OutOfMemory>
    requires { IsNamed schema.now (rule_of rule.now) (tree_of part.now) }
    ensures ok { OnOk result (out.new ≡ out.old ++ wrapped least (tree_of part.now) (expr_text schema.now (rule_of rule.now) (tree_of part.now))) }
    ensures err { OnErr result (IsCut out.old (wrapped least (tree_of part.now) (expr_text schema.now (rule_of rule.now) (tree_of part.now))) out.new) }
{
    if level_of(part) >= least {
        return print_expr(out, schema, rule, part);
    }
    print_behind(out, schema, rule, b"(", part)?;
    out.put(b")")
}

#[cycle(print)]
fn print_unary(
    out: &mut Text,
    schema: &Schema,
    rule: &RuleTable,
    op: UnOp,
    part: &Expr,
) -> Result<(), OutOfMemory>
    requires { IsNamed schema.now (rule_of rule.now) (tree_of part.now) }
    ensures ok { OnOk result (out.new ≡ out.old ++ expr_text schema.now (rule_of rule.now) (Unary op (tree_of part.now))) }
    ensures err { OnErr result (IsCut out.old (expr_text schema.now (rule_of rule.now) (Unary op (tree_of part.now))) out.new) }
{
    out.put(head(op))?;
    print_part(out, schema, rule, least_within(op), part)?;
    out.put(tail(op))
}

#[cycle(print)]
fn print_binary(
    out: &mut Text,
    schema: &Schema,
    rule: &RuleTable,
    op: BinOp,
    left: &Expr,
    right: &Expr,
) -> Result<(), OutOfMemory>
    requires left { IsNamed schema.now (rule_of rule.now) (tree_of left.now) }
    requires right { IsNamed schema.now (rule_of rule.now) (tree_of right.now) }
    ensures ok { OnOk result (out.new ≡ out.old ++ expr_text schema.now (rule_of rule.now) (Binary op (tree_of left.now) (tree_of right.now))) }
    ensures err { OnErr result (IsCut out.old (expr_text schema.now (rule_of rule.now) (Binary op (tree_of left.now) (tree_of right.now))) out.new) }
{
    print_part(out, schema, rule, least_left(op), left)?;
    out.put(sign(op))?;
    print_part(out, schema, rule, least_on_right(op), right)
}

#[cycle(print)]
fn print_if(
    out: &mut Text,
    schema: &Schema,
    rule: &RuleTable,
    condition: &Expr,
    then: &Expr,
    other: &Expr,
) -> Result<(), OutOfMemory>
    requires condition { IsNamed schema.now (rule_of rule.now) (tree_of condition.now) }
    requires then { IsNamed schema.now (rule_of rule.now) (tree_of then.now) }
    requires other { IsNamed schema.now (rule_of rule.now) (tree_of other.now) }
    ensures ok { OnOk result (out.new ≡ out.old ++ expr_text schema.now (rule_of rule.now) (If (tree_of condition.now) (tree_of then.now) (tree_of other.now))) }
    ensures err { OnErr result (IsCut out.old (expr_text schema.now (rule_of rule.now) (If (tree_of condition.now) (tree_of then.now) (tree_of other.now))) out.new) }
{
    print_behind(out, schema, rule, b"if ", condition)?;
    print_behind(out, schema, rule, b" then ", then)?;
    print_behind(out, schema, rule, b" else ", other)
}

#[cycle(print)]
fn print_pair(
    out: &mut Text,
    schema: &Schema,
    rule: &RuleTable,
    x: &Expr,
    y: &Expr,
) -> Result<(), OutOfMemory>
    requires x { IsNamed schema.now (rule_of rule.now) (tree_of x.now) }
    requires y { IsNamed schema.now (rule_of rule.now) (tree_of y.now) }
    ensures ok { OnOk result (out.new ≡ out.old ++ expr_text schema.now (rule_of rule.now) (MakeVec2 (tree_of x.now) (tree_of y.now))) }
    ensures err { OnErr result (IsCut out.old (expr_text schema.now (rule_of rule.now) (MakeVec2 (tree_of x.now) (tree_of y.now))) out.new) }
{
    print_behind(out, schema, rule, b"vec2(", x)?;
    print_behind(out, schema, rule, b", ", y)?;
    out.put(b")")
}

/// Three arguments of a function, after its name and its parenthesis.
#[cycle(print)]
fn print_triple(
    out: &mut Text,
    schema: &Schema,
    rule: &RuleTable,
    head: &[u8],
    first: &Expr,
    second: &Expr,
    third: &Expr,
) -> Result<(), OutOfMemory>
    requires first { IsNamed schema.now (rule_of rule.now) (tree_of first.now) }
    requires second { IsNamed schema.now (rule_of rule.now) (tree_of second.now) }
    requires third { IsNamed schema.now (rule_of rule.now) (tree_of third.now) }
    ensures ok { OnOk result (out.new ≡ out.old ++ triple_text head.now (expr_text schema.now (rule_of rule.now) (tree_of first.now)) (expr_text schema.now (rule_of rule.now) (tree_of second.now)) (expr_text schema.now (rule_of rule.now) (tree_of third.now))) }
    ensures err { OnErr result (IsCut out.old (triple_text head.now (expr_text schema.now (rule_of rule.now) (tree_of first.now)) (expr_text schema.now (rule_of rule.now) (tree_of second.now)) (expr_text schema.now (rule_of rule.now) (tree_of third.now))) out.new) }
{
    print_behind(out, schema, rule, head, first)?;
    print_behind(out, schema, rule, b", ", second)?;
    print_behind(out, schema, rule, b", ", third)?;
    out.put(b")")
}
