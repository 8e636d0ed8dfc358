//! The expressions of a rule read, and the faults of their names and kinds.
ghost use Rattle.std.specs.Prelude.{◌≡◌, ◌↔◌, bytes_eq, map, Some, IfOk, IfErr, IsTrue};
ghost use Rattle.std.specs.List.{AllByRecursion, position};
ghost use Rattle.std.specs.Option.{option_map};
ghost use Rattle.std.specs.Result.{result_err};
ghost use Rattle.gm_model.specs.declared.rule.Side.TheVariants.{Right};
ghost use Rattle.gm_model.specs.declared.value.Kind.TheVariants.{Bool};
ghost use Rattle.gm_model.specs.Maps.{IsSchema};
ghost use Rattle.gm_model.specs.Trees.{tree_of};
ghost use Rattle.gm_parse.specs.inner.Answers.{IsInRangeOf};
ghost use Rattle.gm_parse.specs.Meaning.{IsUnsigned};
ghost use Rattle.gm_tree.specs.inner.FirstNames.{first_names};
ghost use Rattle.gm_forms.specs.inner.Forms.{IsSpanIn, IsSetIn, IsItemIn, IsPreIn, IsRuleIn, value_of, set_form_of, item_of, rule_form_of};
ghost use Rattle.gm_forms.specs.BookText.{IsExpr, IsSet, IsItem, IsPre, kind_of_embed};
ghost use Rattle.gm_book.specs.inner.FirstNameFault.{IsLeast, embed_names, IsValueFault, IsSetFault, IsAssignedFault, IsPreFault, IsFaultOfValues};
ghost use Rattle.gm_book.specs.inner.Fitting.{IsFitting, HasExprs};
ghost use Rattle.gm_book.specs.inner.Values.{HasKind, IsValueRead, IsReadFault};

use crate::names::{NameFault, bytes_in, earlier};
use crate::table::{Parts, parts_of};
use gm_expr::{read_expr, type_expr};
use gm_forms::{Item, RuleForm, SetForm, Span, next_place};
use gm_model::{Expr, Kind, OutOfMemory, Schema};
use gm_parse::{Env, ExprFault};
use gm_text::{Lexer, embed_index};
use std::alloc::Global;

/// The number of the embedding with the name.
pub(crate) fn embed_number(schema: &Schema, name: &[u8]) -> Option<usize>
    ensures { result ≡ position (bytes_eq name.now) (embed_names schema.now) }
{
    embed_index(schema.embeds.as_slice(), name)
}

/// The expression that stands in the span, its names looked up.
pub(crate) fn read_value(
    alloc: Global,
    text: &[u8],
    env: &Env<'_>,
    value: &Span,
) -> Result<Expr, ExprFault>
    requires within { IsSpanIn text.now value.now }
    requires expr { IsExpr env.now.schema.now.dim (value_of text.now value.now) }
    ensures expr { IfOk result (λ expr. IsValueRead env.now.schema.now.dim (first_names env.now.schema.now env.now.params.now env.now.nodes.now) (value_of text.now value.now) (tree_of expr)) }
    ensures unsigned { IfOk result (λ expr. IsUnsigned (tree_of expr)) }
    ensures in_range { IfOk result (λ expr. IsInRangeOf env.now.schema.now env.now.params.now env.now.nodes.now (tree_of expr)) }
    ensures fault { IfErr result (IsReadFault env.now.schema.now.dim (first_names env.now.schema.now env.now.params.now env.now.nodes.now) (value_of text.now value.now)) }
{
    let mut lexer = Lexer::at(text, value.start);
    read_expr(alloc, &mut lexer, env)
}

/// Whether the expression has the kind, where one is needed.
fn has_kind(env: &Env<'_>, expr: &Expr, kind: Option<Kind>) -> bool
    ensures { IsTrue result ↔ HasKind env.now.schema.now.embeds env.now.params.now kind (tree_of expr.now) }
{
    match kind {
        Some(_) => type_expr(env.schema, env.params, expr) == kind,
        None => true,
    }
}

/// The expression, where its names are known and it has the kind, where one is needed. Else its
/// first fault.
pub(crate) fn checked_value(
    alloc: Global,
    text: &[u8],
    env: &Env<'_>,
    value: &Span,
    kind: Option<Kind>,
) -> Result<Result<Expr, NameFault>, OutOfMemory>
    requires within { IsSpanIn text.now value.now }
    requires expr { IsExpr env.now.schema.now.dim (value_of text.now value.now) }
    ensures expr { IfOk result (λ read. IfOk read (λ expr. IsValueRead env.now.schema.now.dim (first_names env.now.schema.now env.now.params.now env.now.nodes.now) (value_of text.now value.now) (tree_of expr))) }
    ensures fault { IfOk result (λ read. IsLeast (IsValueFault env.now.schema.now.dim env.now.schema.now.embeds env.now.params.now (first_names env.now.schema.now env.now.params.now env.now.nodes.now) (value_of text.now value.now) kind) (result_err read)) }
{
    // A mask holds a label for one of the eight that there are.
    let _top = env.schema.dim.top();
    match read_value(alloc, text, env, value) {
        Ok(expr) => {
            if has_kind(env, &expr, kind) {
                return Ok(Ok(expr));
            }
            drop(expr);
            let place = next_place(&Lexer::at(text, value.start));
            Ok(Err(NameFault::WrongKind { place }))
        }
        Err(ExprFault::Unknown { place }) => Ok(Err(NameFault::Unknown { place })),
        Err(ExprFault::Twice { place }) => Ok(Err(NameFault::Twice { place })),
        Err(ExprFault::OutOfMemory) => Err(OutOfMemory),
    }
}

/// The fault of an expression's names, or that it hasn't the kind, where one is needed.
fn value_fault(
    alloc: Global,
    text: &[u8],
    env: &Env<'_>,
    value: &Span,
    kind: Option<Kind>,
) -> Result<Option<NameFault>, OutOfMemory>
    requires within { IsSpanIn text.now value.now }
    requires expr { IsExpr env.now.schema.now.dim (value_of text.now value.now) }
    ensures { IfOk result (IsLeast (IsValueFault env.now.schema.now.dim env.now.schema.now.embeds env.now.params.now (first_names env.now.schema.now env.now.params.now env.now.nodes.now) (value_of text.now value.now) kind)) }
{
    match checked_value(alloc, text, env, value, kind)? {
        Ok(expr) => {
            drop(expr);
            Ok(None)
        }
        Err(fault) => Ok(Some(fault)),
    }
}

/// The kind that the embedding with the name needs, where there is one.
pub(crate) fn kind_needed(schema: &Schema, name: &[u8]) -> Option<Kind>
    ensures { result ≡ kind_of_embed schema.now.embeds name.now }
{
    let number = embed_number(schema, name)?;
    Some(schema.embeds.as_slice()[number].kind)
}

fn sets_fault(
    alloc: Global,
    text: &[u8],
    env: &Env<'_>,
    sets: &[SetForm],
) -> Result<Option<NameFault>, OutOfMemory>
    requires within { AllByRecursion (IsSetIn text.now) sets.now }
    requires exprs { AllByRecursion (IsSet env.now.schema.now.dim) (map (set_form_of text.now) sets.now) }
    ensures { IfOk result (IsLeast (IsSetFault env.now.schema.now.dim env.now.schema.now.embeds env.now.params.now (first_names env.now.schema.now env.now.params.now env.now.nodes.now) (map (set_form_of text.now) sets.now))) }
{
    let mut fault = None;
    for set in sets {
        let kind = kind_needed(env.schema, bytes_in(text, &set.embed));
        fault = earlier(fault, value_fault(alloc, text, env, &set.value, kind)?);
    }
    Ok(fault)
}

/// The first fault of the expressions that are assigned on nodes.
fn items_fault(
    alloc: Global,
    text: &[u8],
    env: &Env<'_>,
    items: &[Item],
) -> Result<Option<NameFault>, OutOfMemory>
    requires within { AllByRecursion (IsItemIn text.now) items.now }
    requires exprs { AllByRecursion (IsItem env.now.schema.now.dim Right) (map (item_of text.now) items.now) }
    ensures { IfOk result (IsLeast (IsAssignedFault env.now.schema.now.dim env.now.schema.now.embeds env.now.params.now (first_names env.now.schema.now env.now.params.now env.now.nodes.now) (map (item_of text.now) items.now))) }
{
    let mut fault = None;
    for item in items {
        if let Item::Node { sets, .. } = item {
            fault = earlier(fault, sets_fault(alloc, text, env, sets.as_slice())?);
        }
    }
    Ok(fault)
}

fn pre_fault(
    alloc: Global,
    text: &[u8],
    env: &Env<'_>,
    pre: Option<Span>,
) -> Result<Option<NameFault>, OutOfMemory>
    requires within { IsPreIn text.now pre }
    requires expr { IsPre env.now.schema.now.dim (option_map (value_of text.now) pre) }
    ensures { IfOk result (IsLeast (IsPreFault env.now.schema.now.dim env.now.schema.now.embeds env.now.params.now (first_names env.now.schema.now env.now.params.now env.now.nodes.now) (option_map (value_of text.now) pre))) }
{
    match pre {
        Some(value) => value_fault(alloc, text, env, &value, Some(Kind::Bool)),
        None => Ok(None),
    }
}

/// The first fault of the rule's expressions, where there is one.
pub(crate) fn values_fault(
    alloc: Global,
    text: &[u8],
    schema: &Schema,
    rule: &RuleForm,
) -> Result<Option<NameFault>, OutOfMemory>
    requires within { IsRuleIn text.now rule.now }
    requires fits { IsFitting schema.now.dim (rule_form_of text.now rule.now) }
    requires exprs { HasExprs schema.now.dim (rule_form_of text.now rule.now) }
    requires schema { IsSchema schema.now }
    ensures { IfOk result (IsLeast (IsFaultOfValues schema.now.dim schema.now.embeds (rule_form_of text.now rule.now))) }
{
    let Parts { params, nodes } = parts_of(alloc, text, rule)?;
    let env = Env {
        schema,
        params: params.as_slice(),
        nodes: nodes.as_slice(),
    };
    let sets = items_fault(alloc, text, &env, rule.right.as_slice())?;
    Ok(earlier(sets, pre_fault(alloc, text, &env, rule.pre)?))
}
