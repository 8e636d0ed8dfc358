//! Where the value of a component comes from.
ghost use Rattle.std.specs.Prelude.{◌+◌, ◌<◌, ◌≤◌, ℕ, ◌↔◌, length, MatchOption, MatchResult};
ghost use Rattle.gm_model.specs.Components.{IsTogether, IsKeeper, IsNew, IsUnassigned, IsInherited, HasSource, IsComponentFault};
ghost use Rattle.gm_model.specs.Labels.{has};
ghost use Rattle.gm_model.specs.Rules.{rule_of};
ghost use Rattle.gm_embcheck.specs.inner.Bounds.{HasBounds};
ghost use Rattle.gm_embcheck.specs.inner.Faults.{IsSecondAssigned};
ghost use Rattle.gm_embcheck.specs.inner.Firsts.{HasNoneFrom};
ghost use Rattle.gm_embcheck.specs.inner.Leaders.{AreLeaders};
ghost use Rattle.gm_embcheck.specs.inner.NodeSets.{IsIn, IsAssignedIn};
ghost use Rattle.gm_model.specs.declared.limit.TheConstants.{MOST_NODES};

use crate::component::{Leaders, NodeSet, nodes_of};
use crate::nodes::{first_assigned, first_outside};
use crate::places::first_uncovered;
use gm_model::{Mask, RuleFault, RuleTable};

/// The first fault of the right component of the node, which is its least.
pub fn check_component(
    rule: &RuleTable,
    embed: u8,
    mask: Mask,
    node: u8,
    component: &NodeSet,
    left: &Leaders,
    keeper: Option<u8>,
) -> Result<(), RuleFault>
    requires bounds { HasBounds (rule_of rule.now) }
    requires component { (x : ℕ) → IsIn component.now x ↔ IsTogether (rule_of rule.now) (has mask) node x }
    requires left { AreLeaders (rule_of rule.now).left_links (has mask) left.now }
    requires keeper { MatchOption keeper (IsNew (rule_of rule.now) (has mask) node) (IsKeeper (rule_of rule.now) (has mask) node) }
    ensures { MatchResult result
        (λ _. HasSource (rule_of rule.now) embed (has mask) node)
        (λ fault. IsComponentFault (rule_of rule.now) embed (has mask) node fault) }
{
    match first_assigned(rule, embed, component, 0) {
        Some(first) => check_only(rule, embed, component, first),
        None => check_unassigned(rule, embed, mask, node, component, left, keeper),
    }
}

/// The fault that a node of the component after the first one has an assignment too.
fn check_only(rule: &RuleTable, embed: u8, component: &NodeSet, first: u8) -> Result<(), RuleFault>
    requires nodes { length (rule_of rule.now).nodes ≤ MOST_NODES }
    requires first { first < MOST_NODES }
    ensures { MatchResult result
        (λ _. HasNoneFrom (IsAssignedIn (rule_of rule.now) embed component.now) (first + 1))
        (λ fault. IsSecondAssigned (rule_of rule.now) embed component.now first fault) }
{
    match first_assigned(rule, embed, component, first + 1) {
        Some(other) => Err(RuleFault::SetTwice {
            embed,
            node: first,
            other,
        }),
        None => Ok(()),
    }
}

/// The first fault of the right component of the node, which has no assignment.
fn check_unassigned(
    rule: &RuleTable,
    embed: u8,
    mask: Mask,
    node: u8,
    component: &NodeSet,
    left: &Leaders,
    keeper: Option<u8>,
) -> Result<(), RuleFault>
    requires bounds { HasBounds (rule_of rule.now) }
    requires component { (x : ℕ) → IsIn component.now x ↔ IsTogether (rule_of rule.now) (has mask) node x }
    requires left { AreLeaders (rule_of rule.now).left_links (has mask) left.now }
    requires keeper { MatchOption keeper (IsNew (rule_of rule.now) (has mask) node) (IsKeeper (rule_of rule.now) (has mask) node) }
    requires unassigned { IsUnassigned (rule_of rule.now) embed (has mask) node }
    ensures { MatchResult result
        (λ _. HasSource (rule_of rule.now) embed (has mask) node)
        (λ fault. IsComponentFault (rule_of rule.now) embed (has mask) node fault) }
{
    match keeper {
        Some(keeper) => check_inherited(rule, embed, mask, node, component, left, keeper),
        None => Err(RuleFault::NoValue { embed, node }),
    }
}

/// The first fault of the right component of the node in taking over the value that its keeper had.
fn check_inherited(
    rule: &RuleTable,
    embed: u8,
    mask: Mask,
    node: u8,
    component: &NodeSet,
    left: &Leaders,
    keeper: u8,
) -> Result<(), RuleFault>
    requires bounds { HasBounds (rule_of rule.now) }
    requires component { (x : ℕ) → IsIn component.now x ↔ IsTogether (rule_of rule.now) (has mask) node x }
    requires left { AreLeaders (rule_of rule.now).left_links (has mask) left.now }
    requires unassigned { IsUnassigned (rule_of rule.now) embed (has mask) node }
    requires keeper { IsKeeper (rule_of rule.now) (has mask) node keeper }
    requires below { keeper < MOST_NODES }
    ensures { MatchResult result
        (λ _. IsInherited (rule_of rule.now) (has mask) node keeper)
        (λ fault. IsComponentFault (rule_of rule.now) embed (has mask) node fault) }
{
    let left = nodes_of(left, keeper);
    if let Some(other) = first_outside(rule, component, &left) {
        return Err(RuleFault::Merge {
            embed,
            node: keeper,
            other,
        });
    }
    match first_uncovered(rule, mask, component, &left) {
        Some(place) => Err(RuleFault::MergeAlong {
            embed,
            node: keeper,
            place,
        }),
        None => Ok(()),
    }
}
