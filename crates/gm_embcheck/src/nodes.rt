//! The first node of a component with an assignment, or preserved outside a set.
ghost use Rattle.std.specs.Prelude.{◌<◌, ◌≤◌, ◌↔◌, length, IsTrue, IfSome, MatchOption};
ghost use Rattle.gm_model.specs.Rules.{rule_of};
ghost use Rattle.gm_embcheck.specs.inner.Firsts.{HasNoneFrom, IsFirstFrom};
ghost use Rattle.gm_embcheck.specs.inner.NodeSets.{IsAssignedIn, IsPreservedOutside};
ghost use Rattle.gm_model.specs.declared.limit.TheConstants.{MOST_NODES};

use crate::assignments::assigns;
use crate::component::NodeSet;
use crate::keepers::preserves;
use gm_model::RuleTable;

/// The first node of the component, from `start` on, with an assignment to the embedding.
pub fn first_assigned(rule: &RuleTable, embed: u8, component: &NodeSet, start: u8) -> Option<u8>
    requires { length (rule_of rule.now).nodes ≤ MOST_NODES }
    ensures first { MatchOption result
        (HasNoneFrom (IsAssignedIn (rule_of rule.now) embed component.now) start)
        (IsFirstFrom (IsAssignedIn (rule_of rule.now) embed component.now) start) }
    ensures below { IfSome result (λ node. node < MOST_NODES) }
{
    for node in start..rule.node_count() {
        if component[node as usize] && assigns(rule, embed, node) {
            return Some(node);
        }
    }
    None
}

/// The first preserved node of the component that isn't in the left component.
pub fn first_outside(rule: &RuleTable, component: &NodeSet, left: &NodeSet) -> Option<u8>
    requires { length (rule_of rule.now).nodes ≤ MOST_NODES }
    ensures { MatchOption result
        (HasNoneFrom (IsPreservedOutside (rule_of rule.now) component.now left.now) 0)
        (IsFirstFrom (IsPreservedOutside (rule_of rule.now) component.now left.now) 0) }
{
    for node in 0..rule.node_count() {
        let is_outside = component[node as usize] && !left[node as usize];
        if is_outside && preserves(rule, node) {
            return Some(node);
        }
    }
    None
}
