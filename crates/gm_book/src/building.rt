//! The book of a schema and of rules that are written in a text. Each expression of a book without a
//! fault is built once.
ghost use Rattle.std.specs.Prelude.{◌≡◌, [], map, None, IfOk, IfErr, OnOk, MatchResult};
ghost use Rattle.std.specs.List.{AllByRecursion, AllZip};
ghost use Rattle.std.specs.Result.{result_err};
ghost use Rattle.gm_model.specs.Maps.{IsSchema};
ghost use Rattle.gm_model.specs.Rules.{rule_of};
ghost use Rattle.gm_forms.specs.BookText.{MeansRule, with_name};
ghost use Rattle.gm_forms.specs.inner.Forms.{IsRuleIn, AreRulesIn, rule_form_of, forms_of};
ghost use Rattle.gm_forms.specs.inner.Held.{names_held};
ghost use Rattle.gm_book.specs.inner.Building.{HasNoFaultInRules, IsFaultOfNames, IsSoundRule};
ghost use Rattle.gm_book.specs.inner.FirstNameFault.{IsLeast, IsFaultInRule, IsRuleFault, IsFaultBehind};
ghost use Rattle.gm_book.specs.inner.Fitting.{IsFitting, HasExprs};

use crate::fault::BookFault;
use crate::names::{NameFault, earlier, rule_fault, rule_names_fault, take_in};
use crate::table::table;
use gm_forms::{NameKey, RuleForm};
use gm_model::{Book, Items, OutOfMemory, RuleTable, Schema};
use indexmap::IndexSet;
use std::alloc::Global;

/// The table of the rule, or a fault in it.
fn table_or_fault(
    alloc: Global,
    text: &[u8],
    schema: &Schema,
    rule: &RuleForm,
) -> Result<Result<RuleTable, NameFault>, OutOfMemory>
    requires within { IsRuleIn text.now rule.now }
    requires fits { IsFitting schema.now.dim (rule_form_of text.now rule.now) }
    requires exprs { HasExprs schema.now.dim (rule_form_of text.now rule.now) }
    requires schema { IsSchema schema.now }
    ensures { IfOk result (λ read. MatchResult read (λ table. IsSoundRule schema.now.dim schema.now.embeds (rule_form_of text.now rule.now) (rule_of table)) (IsFaultInRule schema.now.dim schema.now.embeds (rule_form_of text.now rule.now))) }
{
    match rule_names_fault(alloc, text, schema, rule)? {
        Some(fault) => Ok(Err(fault)),
        None => table(alloc, text, schema, rule),
    }
}

/// The table of the rule, or the first fault in it, its expressions included.
fn checked_table(
    alloc: Global,
    text: &[u8],
    schema: &Schema,
    rule: &RuleForm,
) -> Result<Result<RuleTable, NameFault>, OutOfMemory>
    requires within { IsRuleIn text.now rule.now }
    requires fits { IsFitting schema.now.dim (rule_form_of text.now rule.now) }
    requires exprs { HasExprs schema.now.dim (rule_form_of text.now rule.now) }
    requires schema { IsSchema schema.now }
    ensures table { IfOk result (λ read. IfOk read (λ table. MeansRule schema.now.dim schema.now.embeds (rule_form_of text.now rule.now) (rule_of table))) }
    ensures fault { IfOk result (λ read. IsLeast (IsFaultInRule schema.now.dim schema.now.embeds (rule_form_of text.now rule.now)) (result_err read)) }
{
    match table_or_fault(alloc, text, schema, rule)? {
        Ok(table) => Ok(Ok(table)),
        Err(fault) => {
            // Another one may come before it.
            let first = rule_fault(alloc, text, schema, rule)?;
            Ok(Err(first.unwrap_or(fault)))
        }
    }
}

/// Takes the rule's name into the table of names. The answer is the table of the rule, or the first
/// of its faults, that of its own name included.
fn named_table<'t>(
    alloc: Global,
    names: &mut IndexSet<NameKey<'t>>,
    text: &'t [u8],
    schema: &Schema,
    rule: &RuleForm,
) -> Result<Result<RuleTable, NameFault>, OutOfMemory>
    requires within { IsRuleIn text.now rule.now }
    requires fits { IsFitting schema.now.dim (rule_form_of text.now rule.now) }
    requires exprs { HasExprs schema.now.dim (rule_form_of text.now rule.now) }
    requires schema { IsSchema schema.now }
    ensures held { OnOk result (names_held names.new ≡ with_name (names_held names.old) (rule_form_of text.now rule.now).name.name) }
    ensures table { IfOk result (λ read. IfOk read (λ table. MeansRule schema.now.dim schema.now.embeds (rule_form_of text.now rule.now) (rule_of table))) }
    ensures fault { IfOk result (λ read. IsLeast (IsRuleFault schema.now.dim schema.now.embeds (names_held names.old) (rule_form_of text.now rule.now)) (result_err read)) }
{
    let again = take_in(names, text, &rule.name)?;
    match checked_table(alloc, text, schema, rule)? {
        Ok(table) => match again {
            Some(fault) => {
                drop(table);
                Ok(Err(fault))
            }
            None => Ok(Ok(table)),
        },
        Err(fault) => Ok(Err(earlier(again, Some(fault)).unwrap_or(fault))),
    }
}

/// The tables of the rules, which stand after rules with these names, or the first of their faults.
fn read_tables_behind<'t>(
    alloc: Global,
    names: &mut IndexSet<NameKey<'t>>,
    text: &'t [u8],
    schema: &Schema,
    rules: &[RuleForm],
) -> Result<Result<Vec<RuleTable>, NameFault>, OutOfMemory>
    requires within { AllByRecursion (IsRuleIn text.now) rules.now }
    requires schema { IsSchema schema.now }
    requires fits { AllByRecursion (IsFitting schema.now.dim) (map (rule_form_of text.now) rules.now) }
    requires exprs { AllByRecursion (HasExprs schema.now.dim) (map (rule_form_of text.now) rules.now) }
    ensures tables { IfOk result (λ read. IfOk read (λ tables. AllZip (MeansRule schema.now.dim schema.now.embeds) (map (rule_form_of text.now) rules.now) (map rule_of tables.items))) }
    ensures fault { IfOk result (λ read. IsLeast (IsFaultBehind schema.now.dim schema.now.embeds (names_held names.old) (map (rule_form_of text.now) rules.now)) (result_err read)) }
{
    let mut tables = Vec::new(alloc);
    let mut first = None;
    for rule in rules {
        match named_table(alloc, names, text, schema, rule)? {
            Ok(table) => tables.push(table)?,
            Err(fault) => first = earlier(first, Some(fault)),
        }
    }
    match first {
        Some(fault) => Ok(Err(fault)),
        None => Ok(Ok(tables)),
    }
}

/// The tables of the rules, or the first of their faults.
fn read_tables(
    alloc: Global,
    text: &[u8],
    schema: &Schema,
    rules: &[RuleForm],
) -> Result<Result<Vec<RuleTable>, NameFault>, OutOfMemory>
    requires within { AllByRecursion (IsRuleIn text.now) rules.now }
    requires schema { IsSchema schema.now }
    requires fits { AllByRecursion (IsFitting schema.now.dim) (map (rule_form_of text.now) rules.now) }
    requires exprs { AllByRecursion (HasExprs schema.now.dim) (map (rule_form_of text.now) rules.now) }
    ensures tables { IfOk result (λ read. IfOk read (λ tables. AllZip (MeansRule schema.now.dim schema.now.embeds) (map (rule_form_of text.now) rules.now) (map rule_of tables.items))) }
    ensures fault { IfOk result (λ read. IsLeast (IsFaultBehind schema.now.dim schema.now.embeds [] (map (rule_form_of text.now) rules.now)) (result_err read)) }
{
    let mut names = IndexSet::new(alloc);
    read_tables_behind(alloc, &mut names, text, schema, rules)
}

/// The book of the rules over the schema. A fault is the first of the rules' names.
pub(crate) fn build(
    alloc: Global,
    text: &[u8],
    version: u8,
    schema: Schema,
    forms: Vec<RuleForm>,
) -> Result<Book, BookFault>
    requires names { AreRulesIn text.now forms.items }
    requires schema { IsSchema schema }
    requires fits { AllByRecursion (IsFitting schema.dim) (forms_of text.now forms.items) }
    requires exprs { AllByRecursion (HasExprs schema.dim) (forms_of text.now forms.items) }
    ensures version { IfOk result (λ book. book.version ≡ version) }
    ensures schema { IfOk result (λ book. book.schema ≡ schema) }
    ensures rules { IfOk result (λ book. AllZip (MeansRule schema.dim schema.embeds) (forms_of text.now forms.items) (map rule_of book.rules)) }
    ensures sound { IfOk result (λ _. HasNoFaultInRules schema.dim schema.embeds (forms_of text.now forms.items)) }
    ensures fault { IfErr result (IsFaultOfNames schema.dim schema.embeds (forms_of text.now forms.items)) }
{
    match read_tables(alloc, text, &schema, &forms)? {
        Ok(tables) => Ok(Book {
            version,
            schema,
            rules: Items::new(tables),
        }),
        Err(fault) => Err(BookFault::from(fault)),
    }
}
