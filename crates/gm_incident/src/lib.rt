//! The structure that a rule must have, and the arcs at its nodes: the first two of the conditions
//! on a rule.
#![tactic(auto)]

ghost use Rattle.std.specs.Prelude.{MatchResult};
ghost use Rattle.gm_model.specs.Rules.{rule_of};
ghost use Rattle.gm_model.specs.Structure.{IsInRange, IsWithinLimits, HasIncidence, IsIncidenceFault};

mod arcs;
mod counts;
mod joined;
mod structure;

use crate::arcs::check_arcs;
use crate::structure::check_structure;
use gm_model::{RuleFault, RuleTable, Schema};

/// Tests the structure of a rule and then the arcs at each of its nodes, and answers the first
/// fault in that order.
pub fn check(schema: &Schema, rule: &RuleTable) -> Result<(), RuleFault>
    requires in_range { IsInRange schema.now (rule_of rule.now) }
    requires within { IsWithinLimits (rule_of rule.now) }
    ensures { MatchResult result
        (λ _. HasIncidence schema.now.dim (rule_of rule.now))
        (λ fault. IsIncidenceFault schema.now.dim (rule_of rule.now) fault) }
{
    check_structure(rule)?;
    check_arcs(schema.dim.top(), rule)
}
