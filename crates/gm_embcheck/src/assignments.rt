//! Which nodes of a rule have an assignment to an embedding. A caller gives a node of the rule.
ghost use Rattle.std.specs.Prelude.{◌≡◌, ◌<◌, ◌↔◌, ℕ, Some, length, slice_get, IsTrue};
ghost use Rattle.gm_model.specs.declared.rule.Set.{Set};
ghost use Rattle.gm_model.specs.Components.{IsAssigned};
ghost use Rattle.gm_model.specs.Rules.{rule_of};

use gm_model::{RuleTable, Set};

/// Whether the node has an assignment to the embedding.
pub fn assigns(rule: &RuleTable, embed: u8, node: u8) -> bool
    requires { node < length (rule_of rule.now).nodes }
    ensures { IsTrue result ↔ IsAssigned (rule_of rule.now) embed node }
{
    let node = &rule.nodes.as_slice()[node as usize];
    sets_embed(node.sets.as_slice(), embed)
}

/// Whether there is an assignment to the embedding.
fn sets_embed(sets: &[Set], embed: u8) -> bool
    ensures { IsTrue result ↔ ((k : ℕ) × (s : Set) × (slice_get sets.now k ≡ Some s) × (s.embed ≡ embed)) }
{
    for set in sets {
        if set.embed == embed {
            return true;
        }
    }
    false
}
