//! The cycle condition on a rule: which squares of labels must close at its right nodes.
#![tactic(auto)]

ghost use Rattle.std.specs.Prelude.{MatchResult};
ghost use Rattle.gm_model.specs.Rules.{rule_of};
ghost use Rattle.gm_model.specs.Squares.{HasSquares, IsSquareFault};
ghost use Rattle.gm_model.specs.Structure.{IsInRange, IsWithinLimits};

mod squares;
mod steps;

use crate::squares::check_node;
use crate::steps::right_steps;
use gm_model::{RuleFault, RuleTable, Schema, Side};

/// Tests the squares of labels that differ by two or more at each right node of a rule, and
/// answers the first that neither closes nor stays as it was.
pub fn check(schema: &Schema, rule: &RuleTable) -> Result<(), RuleFault>
    requires in_range { IsInRange schema.now (rule_of rule.now) }
    requires within { IsWithinLimits (rule_of rule.now) }
    ensures { MatchResult result
        (λ _. HasSquares schema.now.dim (rule_of rule.now))
        (λ fault. IsSquareFault schema.now.dim (rule_of rule.now) fault) }
{
    let top = schema.dim.top();
    let right = right_steps(rule);
    for node in 0..rule.node_count() {
        if rule.word(Side::Right, node).is_some() {
            check_node(top, rule, &right, node)?;
        }
    }
    Ok(())
}
