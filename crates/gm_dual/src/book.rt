//! The dual of a book.

ghost use Rattle.std.specs.Prelude.{◌≡◌, ◌≤◌, IfOk, map};
ghost use Rattle.std.specs.List.{AllByRecursion};
ghost use Rattle.gm_model.specs.Kinds.{IsTyped};
ghost use Rattle.gm_model.specs.Maps.{IsSchema};
ghost use Rattle.gm_model.specs.Rules.{rule_of};
ghost use Rattle.gm_model.specs.Structure.{IsInRange};
ghost use Rattle.gm_dual.specs.Duals as duals;
ghost use Rattle.gm_dual.specs.Duals.{AreAcceptedAlike, AreAppliedAlike, AreRefusedAlike, IsDualBook};
ghost use Rattle.gm_model.specs.declared.limit.TheConstants.{MOST_DIMENSION};

use crate::rule::dual_rule;
use crate::schema::dual_schema;
use gm_model::{Book, Items, OutOfMemory, RuleTable};
use std::alloc::Global;

/// The dual of a book that was read: the dual schema and the dual of each rule, in their order.
pub fn dual_book(alloc: Global, book: &Book) -> Result<Book, OutOfMemory>
    requires schema { IsSchema book.now.schema }
    requires in_range { AllByRecursion (λ rule. IsInRange book.now.schema (rule_of rule)) book.now.rules }
    requires typed { AllByRecursion (λ rule. IsTyped book.now.schema (rule_of rule)) book.now.rules }
    ensures dual { IfOk result (IsDualBook book.now) }
    ensures twice { IfOk result (λ dual. IsDualBook dual book.now) }
    ensures schema { IfOk result (λ dual. IsSchema dual.schema) }
    ensures in_range { IfOk result (λ dual. AllByRecursion (λ rule. IsInRange dual.schema (rule_of rule)) dual.rules) }
    ensures typed { IfOk result (λ dual. AllByRecursion (λ rule. IsTyped dual.schema (rule_of rule)) dual.rules) }
    ensures accepted { IfOk result (AreAcceptedAlike book.now) }
    ensures applied { IfOk result (AreAppliedAlike book.now) }
    ensures refused { IfOk result (AreRefusedAlike book.now) }
{
    let _top = book.schema.dim.top();
    make_dual(alloc, book)
}

fn make_dual(alloc: Global, book: &Book) -> Result<Book, OutOfMemory>
    ensures { IfOk result (IsDualBook book.now) }
{
    let top = book.schema.dim.top();
    Ok(Book {
        version: book.version,
        schema: dual_schema(alloc, &book.schema)?,
        rules: dual_rules(alloc, top, book.rules.as_slice())?,
    })
}

fn dual_rules(alloc: Global, top: u8, rules: &[RuleTable]) -> Result<Items<RuleTable>, OutOfMemory>
    requires { top ≤ MOST_DIMENSION }
    ensures { IfOk result (λ made. map rule_of made ≡ map (duals.dual_rule top) (map rule_of rules.now)) }
{
    let mut made = Vec::new(alloc);
    for rule in rules {
        made.push(dual_rule(alloc, top, rule)?)?;
    }
    Ok(Items::new(made))
}
