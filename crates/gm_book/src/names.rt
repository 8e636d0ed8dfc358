//! The first fault of the names of rules.
//!
//! The least place counts. So no pass ends the others, and each answers its own least fault.
ghost use Rattle.std.specs.Prelude.{◌≡◌, [], map, IfOk, OnOk};
ghost use Rattle.std.specs.List.{AllByRecursion};
ghost use Rattle.gm_model.specs.Maps.{IsSchema};
ghost use Rattle.gm_forms.specs.BookText.{with_name};
ghost use Rattle.gm_model.specs.Tokens.{bytes_of};
ghost use Rattle.gm_forms.specs.inner.Forms.{IsIn, IsSetIn, set_form_of, IsItemIn, IsParamIn, IsRuleIn, mention_of, item_of, param_form_of, rule_form_of};
ghost use Rattle.gm_forms.specs.inner.Held.{names_held};
ghost use Rattle.gm_book.specs.inner.FirstNameFault.{least_of, again_at, place_at, with_items, least_again, unknown_at, least_unknown, side_least, least_param, embed_names, least_set, least_assigned, rank_at, is_before, rule_least, IsLeast, IsFaultInRule};
ghost use Rattle.gm_book.specs.inner.Fitting.{IsFitting, HasExprs};

use crate::values::{embed_number, values_fault};
use gm_forms::{Item, NameKey, ParamForm, RuleForm, SetForm};
use gm_model::{OutOfMemory, Schema};
use gm_text::Token;
use indexmap::IndexSet;
use std::alloc::Global;

/// A fault of the rules' names, and where it stands.
#[derive(Clone, Copy)]
pub(crate) enum NameFault {
    /// A rule has the name of an earlier rule, a parameter that of an earlier one of its rule, or a
    /// node that of an earlier node of its side; or an embedding is assigned again on its node, or a
    /// label is mentioned again in its orbit.
    Twice { place: usize },
    /// A link names no node of its side, or `with` no embedding, or an expression names nothing.
    Unknown { place: usize },
    /// An expression hasn't the kind that its place needs.
    WrongKind { place: usize },
}

impl NameFault {
    /// Where it stands, and its rank among the faults that stand there.
    fn place_and_rank(self) -> (usize, u8)
        ensures place { result.0 ≡ place_at self }
        ensures rank { result.1 ≡ rank_at self }
    {
        match self {
            NameFault::Twice { place } => (place, 0),
            NameFault::Unknown { place } => (place, 1),
            NameFault::WrongKind { place } => (place, 2),
        }
    }

    fn is_before(self, other: NameFault) -> bool
        ensures { result ≡ is_before self other }
    {
        let (place, rank) = self.place_and_rank();
        let (other_place, other_rank) = other.place_and_rank();
        place < other_place || place == other_place && rank < other_rank
    }
}

/// The bytes of a name of the text.
pub(crate) fn bytes_in<'t>(text: &'t [u8], name: &Token) -> &'t [u8]
    requires { IsIn text.now name.now }
    ensures { result.now ≡ bytes_of text.now name.now }
{
    &text[name.start..name.end]
}

/// The fault that counts first, where there is one.
pub(crate) fn earlier(fault: Option<NameFault>, other: Option<NameFault>) -> Option<NameFault>
    ensures { result ≡ least_of fault other }
{
    match (fault, other) {
        (Some(first), Some(second)) if second.is_before(first) => other,
        (None, _) => other,
        _ => fault,
    }
}

/// Takes the name into the table. A fault is that it was there.
pub(crate) fn take_in<'t>(
    table: &mut IndexSet<NameKey<'t>>,
    text: &'t [u8],
    name: &Token,
) -> Result<Option<NameFault>, OutOfMemory>
    requires { IsIn text.now name.now }
    ensures held { OnOk result (names_held table.new ≡ with_name (names_held table.old) (bytes_of text.now name.now)) }
    ensures fault { IfOk result (λ fault. fault ≡ again_at (names_held table.old) (mention_of text.now name.now)) }
{
    let place = name.start;
    let bytes = bytes_in(text, name);
    let (_, added) = table.insert_full(NameKey { bytes })?;
    Ok((!added).then_some(NameFault::Twice { place }))
}

/// Takes the names of the nodes into the table. The fault is the first name that was there.
pub(crate) fn take_in_nodes<'t>(
    table: &mut IndexSet<NameKey<'t>>,
    text: &'t [u8],
    items: &[Item],
) -> Result<Option<NameFault>, OutOfMemory>
    requires { AllByRecursion (IsItemIn text.now) items.now }
    ensures held { OnOk result (names_held table.new ≡ with_items (names_held table.old) (map (item_of text.now) items.now)) }
    ensures fault { IfOk result (λ fault. fault ≡ least_again (names_held table.old) (map (item_of text.now) items.now)) }
{
    let mut fault = None;
    for item in items {
        if let Item::Node { name, .. } = item {
            fault = earlier(fault, take_in(table, text, name)?);
        }
    }
    Ok(fault)
}

fn unknown(table: &IndexSet<NameKey<'_>>, text: &[u8], name: &Token) -> Option<NameFault>
    requires { IsIn text.now name.now }
    ensures { result ≡ unknown_at (names_held table.now) (mention_of text.now name.now) }
{
    let place = name.start;
    let bytes = bytes_in(text, name);
    if table.contains(&NameKey { bytes }) {
        None
    } else {
        Some(NameFault::Unknown { place })
    }
}

/// The first end of a link that is no node of the table.
fn first_unknown(table: &IndexSet<NameKey<'_>>, text: &[u8], items: &[Item]) -> Option<NameFault>
    requires { AllByRecursion (IsItemIn text.now) items.now }
    ensures { result ≡ least_unknown (names_held table.now) (map (item_of text.now) items.now) }
{
    let mut fault = None;
    for item in items {
        if let Item::Link { from, to, .. } = item {
            let ends = earlier(unknown(table, text, from), unknown(table, text, to));
            fault = earlier(fault, ends);
        }
    }
    fault
}

/// The first fault of the names in the items of a side.
fn side_fault<'t>(
    table: &mut IndexSet<NameKey<'t>>,
    text: &'t [u8],
    items: &[Item],
) -> Result<Option<NameFault>, OutOfMemory>
    requires { AllByRecursion (IsItemIn text.now) items.now }
    ensures { IfOk result (λ fault. fault ≡ side_least (map (item_of text.now) items.now)) }
{
    table.clear();
    let again = take_in_nodes(table, text, items)?;
    Ok(earlier(again, first_unknown(table, text, items)))
}

/// The first parameter with the name of an earlier one.
fn params_fault<'t>(
    table: &mut IndexSet<NameKey<'t>>,
    text: &'t [u8],
    params: &[ParamForm],
) -> Result<Option<NameFault>, OutOfMemory>
    requires { AllByRecursion (IsParamIn text.now) params.now }
    ensures { IfOk result (λ fault. fault ≡ least_param [] (map (param_form_of text.now) params.now)) }
{
    table.clear();
    let mut fault = None;
    for param in params {
        fault = earlier(fault, take_in(table, text, &param.name)?);
    }
    Ok(fault)
}

/// The fault that the name after `with` is no embedding.
fn unknown_embed(schema: &Schema, text: &[u8], name: &Token) -> Option<NameFault>
    requires { IsIn text.now name.now }
    ensures { result ≡ unknown_at (embed_names schema.now) (mention_of text.now name.now) }
{
    let place = name.start;
    match embed_number(schema, bytes_in(text, name)) {
        Some(_) => None,
        None => Some(NameFault::Unknown { place }),
    }
}

fn sets_fault<'t>(
    table: &mut IndexSet<NameKey<'t>>,
    text: &'t [u8],
    schema: &Schema,
    sets: &[SetForm],
) -> Result<Option<NameFault>, OutOfMemory>
    requires { AllByRecursion (IsSetIn text.now) sets.now }
    ensures { IfOk result (λ fault. fault ≡ least_set (embed_names schema.now) [] (map (set_form_of text.now) sets.now)) }
{
    table.clear();
    let mut fault = None;
    for set in sets {
        let again = take_in(table, text, &set.embed)?;
        let unknown = unknown_embed(schema, text, &set.embed);
        fault = earlier(fault, earlier(again, unknown));
    }
    Ok(fault)
}

/// The first fault of the names after `with`.
fn assigned_fault<'t>(
    table: &mut IndexSet<NameKey<'t>>,
    text: &'t [u8],
    schema: &Schema,
    items: &[Item],
) -> Result<Option<NameFault>, OutOfMemory>
    requires { AllByRecursion (IsItemIn text.now) items.now }
    ensures { IfOk result (λ fault. fault ≡ least_assigned (embed_names schema.now) (map (item_of text.now) items.now)) }
{
    let mut fault = None;
    for item in items {
        if let Item::Node { sets, .. } = item {
            fault = earlier(fault, sets_fault(table, text, schema, sets.as_slice())?);
        }
    }
    Ok(fault)
}

/// The first fault of the rule's names outside of expressions. One table serves for all of them.
#[tactic(auto, unfolding(crate::specs::inner::FirstNameFault::rule_least))]
fn find_names_fault<'t>(
    table: &mut IndexSet<NameKey<'t>>,
    text: &'t [u8],
    schema: &Schema,
    rule: &RuleForm,
) -> Result<Option<NameFault>, OutOfMemory>
    requires { IsRuleIn text.now rule.now }
    ensures { IfOk result (λ fault. fault ≡ rule_least (embed_names schema.now) (rule_form_of text.now rule.now)) }
{
    let params = params_fault(table, text, rule.params.as_slice())?;
    let left = side_fault(table, text, rule.left.as_slice())?;
    let right = side_fault(table, text, rule.right.as_slice())?;
    let sets = assigned_fault(table, text, schema, rule.right.as_slice())?;
    Ok(earlier(params, earlier(sets, earlier(left, right))))
}

pub(crate) fn rule_names_fault(
    alloc: Global,
    text: &[u8],
    schema: &Schema,
    rule: &RuleForm,
) -> Result<Option<NameFault>, OutOfMemory>
    requires { IsRuleIn text.now rule.now }
    ensures { IfOk result (λ fault. fault ≡ rule_least (embed_names schema.now) (rule_form_of text.now rule.now)) }
{
    let mut table = IndexSet::new(alloc);
    find_names_fault(&mut table, text, schema, rule)
}

/// The first fault in the rule, its expressions included.
pub(crate) fn rule_fault(
    alloc: Global,
    text: &[u8],
    schema: &Schema,
    rule: &RuleForm,
) -> Result<Option<NameFault>, OutOfMemory>
    requires within { IsRuleIn text.now rule.now }
    requires fits { IsFitting schema.now.dim (rule_form_of text.now rule.now) }
    requires exprs { HasExprs schema.now.dim (rule_form_of text.now rule.now) }
    requires schema { IsSchema schema.now }
    ensures { IfOk result (IsLeast (IsFaultInRule schema.now.dim schema.now.embeds (rule_form_of text.now rule.now))) }
{
    let names = rule_names_fault(alloc, text, schema, rule)?;
    Ok(earlier(names, values_fault(alloc, text, schema, rule)?))
}
