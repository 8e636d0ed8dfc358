//! The rules of a book by their names.
ghost use Rattle.std.specs.Prelude.{◌≡◌, ◌<◌, ◌≤◌, ◌^◌, ℕ, List, length, map, take, bytes_eq, None, IfOk, IfSome, OnOk};
ghost use Rattle.std.specs.HashMap as hash;
ghost use Rattle.std.specs.List.{position};
ghost use Rattle.gm_model.specs.declared.rule.RuleTable.{RuleTable};
ghost use Rattle.gm_model.specs.Rules.{rule_of};
ghost use Rattle.gm_script.specs.ScriptText.{index_of};

use gm_model::RuleTable;
use std::alloc::{AllocError, AllocFailed, Global};
use std::collections::HashMap;
use std::marker::Model;

/// A line of a script names a rule by 16 bits.
const MOST_RULES: usize = 1 << 16;

/// Among so few rules, comparing a name with each is faster than hashing it.
const FEW_RULES: usize = 8;

/// The rules of a book that a line can name, each found by its name. Contracts see these rules.
#[derive(Drop)]
pub(crate) struct RulesByName<'a> {
    rules: &'a [RuleTable],
    /// Empty where the rules are few.
    indices: HashMap<&'a [u8], u16>,
}

impl<'a> Model for RulesByName<'a> {
    ghost use Rattle.std.specs.Prelude.{◌≡◌, ◌<◌, ℕ, List, length, map, bytes_eq};
    ghost use Rattle.std.specs.HashMap as hash;
    ghost use Rattle.std.specs.Coded.{codes};
    ghost use Rattle.gm_model.specs.contracts.expr.Expr as expr_block;
    ghost use Rattle.gm_model.specs.declared.rule.RuleTable.{RuleTable};
    ghost use Rattle.gm_model.specs.Rules.{rule_of};
    ghost use Rattle.gm_script.specs.ScriptText.{index_of};

    ghost Value = { List RuleTable };

    ghost coded = { Prim.hlevel (codes, expr_block.the_row.coded) };

    ghost view = { λ book. book.rules.now };

    ghost invariant = { λ book. 8 < length book.rules.now → (name : List ℕ) → hash.get_by (λ k. bytes_eq name k.now) book.indices ≡ index_of (map rule_of book.rules.now) name };
}

impl<'a> RulesByName<'a> {
    pub(crate) fn new(alloc: Global, rules: &'a [RuleTable]) -> Result<RulesByName<'a>, AllocError>
        ensures { IfOk result (λ book. book ≡ take (2 ^ 16) rules.now) }
    {
        let rules = first_ones(rules);
        let mut indices = HashMap::new(alloc);
        if rules.len() > FEW_RULES {
            index_names(rules, &mut indices)?;
        }
        Ok(RulesByName { rules, indices })
    }

    /// The rules.
    pub(crate) fn as_slice(&self) -> &'a [RuleTable]
        ensures { result.now ≡ self.now }
    {
        self.rules
    }

    /// The index of the rule with the name, of rules with one name that of the first.
    // By itself, since hashing would take registers of all that it is inlined into.
    #[inline(never)]
    pub(crate) fn index_of(&self, name: &[u8]) -> Option<u16>
        ensures index { result ≡ index_of (map rule_of self.now) name.now }
        ensures within { IfSome result (λ k. k < length self.now) }
    {
        if self.rules.len() > FEW_RULES {
            self.indices.get(name).copied()
        } else {
            first_named(self.rules, name)
        }
    }
}

/// The rules that a line can name: of more than it has indices for, the first.
fn first_ones(rules: &[RuleTable]) -> &[RuleTable]
    ensures value { result.now ≡ take (2 ^ 16) rules.now }
    ensures few { length result.now ≤ 2 ^ 16 }
{
    &rules[..rules.len().min(MOST_RULES)]
}

/// The place of the first rule with the name.
fn place_named(rules: &[RuleTable], name: &[u8]) -> Option<usize>
    ensures place { result ≡ position (λ (rule : RuleTable). bytes_eq name.now rule.name) rules.now }
    ensures within { IfSome result (λ k. k < length rules.now) }
{
    rules.iter().position(|rule| name == rule.name.bytes())
}

/// The index of the first of few rules with the name.
fn first_named(rules: &[RuleTable], name: &[u8]) -> Option<u16>
    requires { length rules.now ≤ 8 }
    ensures { result ≡ index_of (map rule_of rules.now) name.now }
{
    match place_named(rules, name) {
        Some(place) => Some(place as u16),
        None => None,
    }
}

/// Puts the index of each rule under its name, of rules with one name that of the first.
fn index_names<'a>(
    rules: &'a [RuleTable],
    indices: &mut HashMap<&'a [u8], u16>,
) -> Result<(), AllocError>
    requires few { length rules.now ≤ 2 ^ 16 }
    requires empty { (name : List ℕ) → hash.get_by (λ k. bytes_eq name k.now) indices.old ≡ None }
    ensures { OnOk result ((name : List ℕ) → hash.get_by (λ k. bytes_eq name k.now) indices.new ≡ index_of (map rule_of rules.now) name) }
{
    for (index, rule) in rules.iter().enumerate() {
        let name = rule.name.bytes();
        if !indices.contains_key(name) {
            indices.insert(name, index as u16)?;
        }
    }
    Ok(())
}
