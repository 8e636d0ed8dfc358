//! The table of a rule whose names are in order.
ghost use Rattle.std.specs.Prelude.{◌≡◌, ◌≤◌, [], length, map, None, IfOk, OnOk, MatchResult};
ghost use Rattle.std.specs.List.{AllByRecursion, AllZip};
ghost use Rattle.std.specs.Option.{option_map};
ghost use Rattle.gm_model.specs.Maps.{IsSchema};
ghost use Rattle.gm_model.specs.Names.{IsName};
ghost use Rattle.gm_model.specs.Rules.{assignment_of, node_of, rule_of};
ghost use Rattle.gm_model.specs.Trees.{tree_of};
ghost use Rattle.gm_tree.specs.inner.FirstNames.{first_names};
ghost use Rattle.gm_forms.specs.BookText.{nodes_of, number_of, word_in, links_in, hooks_in, node_in, sets_in, param_of, IsPre};
ghost use Rattle.gm_forms.specs.inner.Forms.{IsIn, IsSetIn, IsItemIn, IsParamIn, IsPreIn, IsRuleIn, mention_of, value_of, set_form_of, item_of, param_form_of, rule_form_of};
ghost use Rattle.gm_forms.specs.inner.Held.{names_at, names_held};
ghost use Rattle.gm_book.specs.inner.Building.{IsKnownSet, HasKnownSets, IsSoundSet, IsSoundNode, IsSoundPre, IsSoundRule, AreSoundValues};
ghost use Rattle.gm_book.specs.inner.FirstNameFault.{embed_names, rule_least, IsSetFault, IsAssignedFault, IsPreFault, IsFaultOfValues, IsFaultInRule};
ghost use Rattle.gm_book.specs.inner.Fitting.{IsFitting, HasExprs};
ghost use Rattle.gm_model.specs.declared.limit.TheConstants.{MOST_NODES};

use crate::names::{NameFault, bytes_in, take_in_nodes};
use crate::values::{checked_value, embed_number, kind_needed};
use gm_forms::{Item, NameKey, ParamForm, RuleForm, SetForm, Span};
use gm_model::{
    Expr, Items, Kind, Link, Name, Node, OutOfMemory, Param, RuleTable, Schema, Set, Word,
};
use gm_parse::Env;
use gm_text::Token;
use indexmap::IndexSet;
use std::alloc::Global;

/// Takes the names of the rule's nodes into an empty table. There each has its number.
/// A node that both sides mention is not new on the right, which is no fault.
fn take_in_rule<'t>(
    names: &mut IndexSet<NameKey<'t>>,
    text: &'t [u8],
    rule: &RuleForm,
) -> Result<(), OutOfMemory>
    requires empty { names_held names.old ≡ [] }
    requires within { IsRuleIn text.now rule.now }
    ensures nodes { OnOk result (names_held names.new ≡ nodes_of (rule_form_of text.now rule.now)) }
    ensures good { OnOk result (AllByRecursion IsName (names_held names.new)) }
{
    take_in_nodes(names, text, rule.left.as_slice())?;
    take_in_nodes(names, text, rule.right.as_slice())?;
    Ok(())
}

/// The number of the name in the table. One that it hasn't gets the count of its names.
fn number(names: &IndexSet<NameKey<'_>>, text: &[u8], name: &Token) -> u8
    requires within { IsIn text.now name.now }
    requires few { length (names_held names.now) ≤ MOST_NODES }
    ensures { result ≡ number_of (names_held names.now) (mention_of text.now name.now) }
{
    let bytes = bytes_in(text, name);
    let number = names.get_index_of(&NameKey { bytes });
    number.unwrap_or(names.len()) as u8
}

fn params(alloc: Global, text: &[u8], forms: &[ParamForm]) -> Result<Vec<Param>, OutOfMemory>
    requires { AllByRecursion (IsParamIn text.now) forms.now }
    ensures { IfOk result (λ params. params.items ≡ map param_of (map (param_form_of text.now) forms.now)) }
{
    let mut params = Vec::new(alloc);
    for form in forms {
        params.push(Param {
            name: Name::new(bytes_in(text, &form.name)).unwrap(),
            kind: form.kind,
        })?;
    }
    Ok(params)
}

fn links(
    alloc: Global,
    names: &IndexSet<NameKey<'_>>,
    text: &[u8],
    items: &[Item],
) -> Result<Vec<Link>, OutOfMemory>
    requires within { AllByRecursion (IsItemIn text.now) items.now }
    requires few { length (names_held names.now) ≤ MOST_NODES }
    ensures { IfOk result (λ links. links.items ≡ links_in (names_held names.now) (map (item_of text.now) items.now)) }
{
    let mut links = Vec::new(alloc);
    for item in items {
        if let Item::Link { from, label, to } = item {
            links.push(Link {
                from: number(names, text, from),
                label: *label,
                to: number(names, text, to),
            })?;
        }
    }
    Ok(links)
}

fn hooks(
    alloc: Global,
    names: &IndexSet<NameKey<'_>>,
    text: &[u8],
    items: &[Item],
) -> Result<Vec<u8>, OutOfMemory>
    requires within { AllByRecursion (IsItemIn text.now) items.now }
    requires few { length (names_held names.now) ≤ MOST_NODES }
    ensures { IfOk result (λ hooks. hooks.items ≡ hooks_in (names_held names.now) (map (item_of text.now) items.now)) }
{
    let mut hooks = Vec::new(alloc);
    for item in items {
        if let Item::Node { name, hook, .. } = item {
            if *hook {
                hooks.push(number(names, text, name))?;
            }
        }
    }
    Ok(hooks)
}

/// The word with which the items mention the name as a node.
fn word_of(text: &[u8], items: &[Item], name: &[u8]) -> Option<Word>
    requires { AllByRecursion (IsItemIn text.now) items.now }
    ensures { result ≡ word_in (map (item_of text.now) items.now) name.now }
{
    for item in items {
        if let Item::Node {
            name: node,
            word,
            ..
        } = item
        {
            if name == bytes_in(text, node) {
                return Some(*word);
            }
        }
    }
    None
}

/// The node with the name and with these assignments.
fn node(text: &[u8], rule: &RuleForm, name: &[u8], sets: Vec<Set>) -> Node
    requires within { IsRuleIn text.now rule.now }
    requires good { IsName name.now }
    ensures { node_of result ≡ node_in (rule_form_of text.now rule.now) (λ node. map assignment_of sets.items) name.now }
{
    Node {
        name: Name::new(name).unwrap(),
        left: word_of(text, rule.left.as_slice(), name),
        right: word_of(text, rule.right.as_slice(), name),
        sets: Items::new(sets),
    }
}

/// The rule's nodes, without assignments.
fn nodes(
    alloc: Global,
    text: &[u8],
    rule: &RuleForm,
    names: &[NameKey<'_>],
) -> Result<Vec<Node>, OutOfMemory>
    requires within { IsRuleIn text.now rule.now }
    requires good { AllByRecursion IsName (names_at names.now) }
    ensures { IfOk result (λ nodes. map node_of nodes.items ≡ map (node_in (rule_form_of text.now rule.now) (λ node. [])) (names_at names.now)) }
{
    let mut nodes = Vec::new(alloc);
    for name in names {
        nodes.push(node(text, rule, name.bytes, Vec::new(alloc)))?;
    }
    Ok(nodes)
}

/// What the expressions of a rule can name: its parameters, and its nodes without assignments.
pub(crate) struct Parts {
    pub params: Vec<Param>,
    pub nodes: Vec<Node>,
}

fn numbered_parts(
    alloc: Global,
    text: &[u8],
    rule: &RuleForm,
    names: &[NameKey<'_>],
) -> Result<Parts, OutOfMemory>
    requires within { IsRuleIn text.now rule.now }
    requires good { AllByRecursion IsName (names_at names.now) }
    ensures params { IfOk result (λ parts. parts.params.items ≡ map param_of (rule_form_of text.now rule.now).params) }
    ensures nodes { IfOk result (λ parts. map node_of parts.nodes.items ≡ map (node_in (rule_form_of text.now rule.now) (λ node. [])) (names_at names.now)) }
{
    Ok(Parts {
        params: params(alloc, text, rule.params.as_slice())?,
        nodes: nodes(alloc, text, rule, names)?,
    })
}

/// What the expressions of the rule can name.
pub(crate) fn parts_of(alloc: Global, text: &[u8], rule: &RuleForm) -> Result<Parts, OutOfMemory>
    requires { IsRuleIn text.now rule.now }
    ensures params { IfOk result (λ parts. parts.params.items ≡ map param_of (rule_form_of text.now rule.now).params) }
    ensures nodes { IfOk result (λ parts. map node_of parts.nodes.items ≡ map (node_in (rule_form_of text.now rule.now) (λ node. [])) (nodes_of (rule_form_of text.now rule.now))) }
{
    let mut names = IndexSet::new(alloc);
    take_in_rule(&mut names, text, rule)?;
    numbered_parts(alloc, text, rule, names.as_slice())
}

/// The assignments, all of embeddings that are known, or the first fault of one's expression.
fn sets(
    alloc: Global,
    text: &[u8],
    env: &Env<'_>,
    forms: &[SetForm],
) -> Result<Result<Vec<Set>, NameFault>, OutOfMemory>
    requires within { AllByRecursion (IsSetIn text.now) forms.now }
    requires known { AllByRecursion (IsKnownSet env.now.schema.now.dim (first_names env.now.schema.now env.now.params.now env.now.nodes.now)) (map (set_form_of text.now) forms.now) }
    ensures { IfOk result (λ read. MatchResult read (λ sets. AllZip (IsSoundSet env.now.schema.now.dim env.now.schema.now.embeds env.now.params.now (first_names env.now.schema.now env.now.params.now env.now.nodes.now)) (map (set_form_of text.now) forms.now) (map assignment_of sets.items)) (IsSetFault env.now.schema.now.dim env.now.schema.now.embeds env.now.params.now (first_names env.now.schema.now env.now.params.now env.now.nodes.now) (map (set_form_of text.now) forms.now))) }
{
    let mut sets = Vec::new(alloc);
    for form in forms {
        let name = bytes_in(text, &form.embed);
        let number = embed_number(env.schema, name);
        let kind = kind_needed(env.schema, name);
        match checked_value(alloc, text, env, &form.value, kind)? {
            Ok(expr) => sets.push(Set {
                embed: number.unwrap_or(0) as u8,
                expr,
            })?,
            Err(fault) => return Ok(Err(fault)),
        }
    }
    Ok(Ok(sets))
}

/// The assignments of the node with the name, or a fault of their expressions.
fn sets_of(
    alloc: Global,
    text: &[u8],
    env: &Env<'_>,
    items: &[Item],
    name: &[u8],
) -> Result<Result<Vec<Set>, NameFault>, OutOfMemory>
    requires within { AllByRecursion (IsItemIn text.now) items.now }
    requires known { AllByRecursion (HasKnownSets env.now.schema.now.dim (first_names env.now.schema.now env.now.params.now env.now.nodes.now)) (map (item_of text.now) items.now) }
    ensures { IfOk result (λ read. MatchResult read (λ sets. AllZip (IsSoundSet env.now.schema.now.dim env.now.schema.now.embeds env.now.params.now (first_names env.now.schema.now env.now.params.now env.now.nodes.now)) (sets_in (map (item_of text.now) items.now) name.now) (map assignment_of sets.items)) (IsSetFault env.now.schema.now.dim env.now.schema.now.embeds env.now.params.now (first_names env.now.schema.now env.now.params.now env.now.nodes.now) (sets_in (map (item_of text.now) items.now) name.now))) }
{
    for item in items {
        if let Item::Node {
            name: node,
            sets: forms,
            ..
        } = item
        {
            if name == bytes_in(text, node) {
                return sets(alloc, text, env, forms.as_slice());
            }
        }
    }
    Ok(Ok(Vec::new(alloc)))
}

/// The rule's nodes with their assignments, or a fault of their expressions.
fn assigned(
    alloc: Global,
    text: &[u8],
    env: &Env<'_>,
    rule: &RuleForm,
    names: &[NameKey<'_>],
) -> Result<Result<Vec<Node>, NameFault>, OutOfMemory>
    requires within { IsRuleIn text.now rule.now }
    requires good { AllByRecursion IsName (names_at names.now) }
    requires known { AllByRecursion (HasKnownSets env.now.schema.now.dim (first_names env.now.schema.now env.now.params.now env.now.nodes.now)) (rule_form_of text.now rule.now).right }
    ensures { IfOk result (λ read. MatchResult read (λ nodes. AllZip (IsSoundNode env.now.schema.now.dim env.now.schema.now.embeds env.now.params.now (first_names env.now.schema.now env.now.params.now env.now.nodes.now) (rule_form_of text.now rule.now)) (names_at names.now) (map node_of nodes.items)) (IsAssignedFault env.now.schema.now.dim env.now.schema.now.embeds env.now.params.now (first_names env.now.schema.now env.now.params.now env.now.nodes.now) (rule_form_of text.now rule.now).right)) }
{
    let mut nodes = Vec::new(alloc);
    for name in names {
        match sets_of(alloc, text, env, rule.right.as_slice(), name.bytes)? {
            Ok(sets) => nodes.push(node(text, rule, name.bytes, sets))?,
            Err(fault) => return Ok(Err(fault)),
        }
    }
    Ok(Ok(nodes))
}

/// The precondition, or its first fault.
fn pre(
    alloc: Global,
    text: &[u8],
    env: &Env<'_>,
    form: Option<Span>,
) -> Result<Result<Option<Expr>, NameFault>, OutOfMemory>
    requires within { IsPreIn text.now form }
    requires expr { IsPre env.now.schema.now.dim (option_map (value_of text.now) form) }
    ensures { IfOk result (λ read. MatchResult read (λ pre. IsSoundPre env.now.schema.now.dim env.now.schema.now.embeds env.now.params.now (first_names env.now.schema.now env.now.params.now env.now.nodes.now) (option_map (value_of text.now) form) (option_map tree_of pre)) (IsPreFault env.now.schema.now.dim env.now.schema.now.embeds env.now.params.now (first_names env.now.schema.now env.now.params.now env.now.nodes.now) (option_map (value_of text.now) form))) }
{
    match form {
        Some(value) => match checked_value(alloc, text, env, &value, Some(Kind::Bool))? {
            Ok(expr) => Ok(Ok(Some(expr))),
            Err(fault) => Ok(Err(fault)),
        },
        None => Ok(Ok(None)),
    }
}

/// What is read of a rule by its numbered names: its parameters, its nodes with their assignments,
/// and its precondition.
struct Values {
    params: Vec<Param>,
    nodes: Vec<Node>,
    pre: Option<Expr>,
}

/// The values of the rule, whose names are in order, or a fault of its expressions.
fn read_values(
    alloc: Global,
    text: &[u8],
    schema: &Schema,
    rule: &RuleForm,
    names: &[NameKey<'_>],
) -> Result<Result<Values, NameFault>, OutOfMemory>
    requires within { IsRuleIn text.now rule.now }
    requires numbered { names_at names.now ≡ nodes_of (rule_form_of text.now rule.now) }
    requires good { AllByRecursion IsName (names_at names.now) }
    requires schema { IsSchema schema.now }
    requires fits { IsFitting schema.now.dim (rule_form_of text.now rule.now) }
    requires exprs { HasExprs schema.now.dim (rule_form_of text.now rule.now) }
    requires sound { rule_least (embed_names schema.now) (rule_form_of text.now rule.now) ≡ None }
    ensures params { IfOk result (λ read. IfOk read (λ values. values.params.items ≡ map param_of (rule_form_of text.now rule.now).params)) }
    ensures values { IfOk result (λ read. MatchResult read (λ values. AreSoundValues schema.now.dim schema.now.embeds (rule_form_of text.now rule.now) (map node_of values.nodes.items) (option_map tree_of values.pre)) (IsFaultOfValues schema.now.dim schema.now.embeds (rule_form_of text.now rule.now))) }
{
    let Parts { params, nodes } = numbered_parts(alloc, text, rule, names)?;
    let env = Env {
        schema,
        params: params.as_slice(),
        nodes: nodes.as_slice(),
    };
    match assigned(alloc, text, &env, rule, names)? {
        Ok(assigned) => match pre(alloc, text, &env, rule.pre)? {
            Ok(pre) => Ok(Ok(Values {
                params,
                nodes: assigned,
                pre,
            })),
            Err(fault) => Ok(Err(fault)),
        },
        Err(fault) => Ok(Err(fault)),
    }
}

/// The table of the rule, whose nodes get their numbers in `names`, or a fault of its expressions.
fn numbered_table<'t>(
    alloc: Global,
    text: &'t [u8],
    schema: &Schema,
    rule: &RuleForm,
    names: &mut IndexSet<NameKey<'t>>,
) -> Result<Result<RuleTable, NameFault>, OutOfMemory>
    requires empty { names_held names.old ≡ [] }
    requires within { IsRuleIn text.now rule.now }
    requires schema { IsSchema schema.now }
    requires fits { IsFitting schema.now.dim (rule_form_of text.now rule.now) }
    requires exprs { HasExprs schema.now.dim (rule_form_of text.now rule.now) }
    requires sound { rule_least (embed_names schema.now) (rule_form_of text.now rule.now) ≡ None }
    ensures { IfOk result (λ read. MatchResult read (λ table. IsSoundRule schema.now.dim schema.now.embeds (rule_form_of text.now rule.now) (rule_of table)) (IsFaultInRule schema.now.dim schema.now.embeds (rule_form_of text.now rule.now))) }
{
    take_in_rule(names, text, rule)?;
    let left_links = links(alloc, names, text, rule.left.as_slice())?;
    let right_links = links(alloc, names, text, rule.right.as_slice())?;
    let hooks = hooks(alloc, names, text, rule.left.as_slice())?;
    match read_values(alloc, text, schema, rule, names.as_slice())? {
        Ok(Values { params, nodes, pre }) => Ok(Ok(RuleTable {
            name: Name::new(bytes_in(text, &rule.name)).unwrap(),
            params: Items::new(params),
            nodes: Items::new(nodes),
            left_links: Items::new(left_links),
            right_links: Items::new(right_links),
            hooks: Items::new(hooks),
            pre,
        })),
        Err(fault) => Ok(Err(fault)),
    }
}

/// The table of the rule, whose names outside of expressions are in order: its nodes by number,
/// left nodes first. Else a fault of its expressions.
pub(crate) fn table(
    alloc: Global,
    text: &[u8],
    schema: &Schema,
    rule: &RuleForm,
) -> Result<Result<RuleTable, NameFault>, OutOfMemory>
    requires within { IsRuleIn text.now rule.now }
    requires schema { IsSchema schema.now }
    requires fits { IsFitting schema.now.dim (rule_form_of text.now rule.now) }
    requires exprs { HasExprs schema.now.dim (rule_form_of text.now rule.now) }
    requires sound { rule_least (embed_names schema.now) (rule_form_of text.now rule.now) ≡ None }
    ensures { IfOk result (λ read. MatchResult read (λ table. IsSoundRule schema.now.dim schema.now.embeds (rule_form_of text.now rule.now) (rule_of table)) (IsFaultInRule schema.now.dim schema.now.embeds (rule_form_of text.now rule.now))) }
{
    let mut names = IndexSet::new(alloc);
    numbered_table(alloc, text, schema, rule, &mut names)
}
