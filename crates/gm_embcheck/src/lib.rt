//! The embedding condition on a rule: the nodes of a right component share each value, so at most
//! one of them assigns it, and where none does there is one left component to take it over from.
#![tactic(auto)]

ghost use Rattle.std.specs.Prelude.{◌≤◌, ℕ, length, IsTrue, MatchResult};
ghost use Rattle.gm_model.specs.declared.rule.Side.TheVariants.{Right};
ghost use Rattle.gm_model.specs.Components.{HasSource, HasSources, IsEmbedFault};
ghost use Rattle.gm_model.specs.Labels.{has};
ghost use Rattle.gm_model.specs.Rules.{rule_of, has_word};
ghost use Rattle.gm_model.specs.Structure.{IsInRange, IsWithinLimits, HasIncidence};
ghost use Rattle.gm_embcheck.specs.inner.Bounds.{HasBounds};
ghost use Rattle.gm_embcheck.specs.inner.Faults.{IsFirstComponentFault};
ghost use Rattle.gm_model.specs.declared.limit.TheConstants.{MOST_EMBEDS};

mod assignments;
mod component;
mod keepers;
mod nodes;
mod places;
mod sources;

use crate::component::nodes_of;
use crate::sources::check_component;
pub use assignments::assigns;
pub use component::{Leaders, NodeSet, leaders_of};
use gm_model::{Mask, RuleFault, RuleTable, Schema, Side};
pub use keepers::{Keepers, keepers_of};

/// Tests the right components of a rule, for each embedding and then by their least node, and
/// answers the first fault in that order.
pub fn check(schema: &Schema, rule: &RuleTable) -> Result<(), RuleFault>
    requires embeds { length schema.now.embeds ≤ MOST_EMBEDS }
    requires in_range { IsInRange schema.now (rule_of rule.now) }
    requires within { IsWithinLimits (rule_of rule.now) }
    requires incidence { HasIncidence schema.now.dim (rule_of rule.now) }
    ensures { MatchResult result
        (λ _. HasSources schema.now (rule_of rule.now))
        (λ fault. IsEmbedFault schema.now (rule_of rule.now) fault) }
{
    // What `top` tells, that a dimension is at most 7, makes each label of the rule one of a mask.
    let _top = schema.dim.top();
    for (embed, declared) in schema.embeds.as_slice().iter().enumerate() {
        check_embedding(rule, embed as u8, declared.mask)?;
    }
    Ok(())
}

/// The first fault of the right components over the labels, by their least node.
fn check_embedding(rule: &RuleTable, embed: u8, mask: Mask) -> Result<(), RuleFault>
    requires { HasBounds (rule_of rule.now) }
    ensures { MatchResult result
        (λ _. (x : ℕ) → IsTrue (has_word (rule_of rule.now) Right x) → HasSource (rule_of rule.now) embed (has mask) x)
        (λ fault. IsFirstComponentFault (rule_of rule.now) embed (has mask) fault) }
{
    let left = leaders_of(rule.links(Side::Left), mask);
    let right = leaders_of(rule.links(Side::Right), mask);
    let keepers = keepers_of(rule, &right);
    for node in 0..rule.node_count() {
        if rule.word(Side::Right, node).is_some() && right[node as usize] == node {
            let component = nodes_of(&right, node);
            let keeper = keepers[node as usize];
            check_component(rule, embed, mask, node, &component, &left, keeper)?;
        }
    }
    Ok(())
}
