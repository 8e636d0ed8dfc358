//! The keeper of each right node: the least preserved node of its component. A caller gives a rule of
//! at most 32 nodes and the leaders of its right components.
ghost use Rattle.std.specs.Prelude.{◌≡◌, ℕ, ◌<◌, ◌≤◌, length};
ghost use Rattle.gm_model.specs.Orbits.{Labels};
ghost use Rattle.gm_model.specs.Rules.{rule_of, is_preserved};
ghost use Rattle.gm_embcheck.specs.inner.Bounds.{HasBounds};
ghost use Rattle.gm_embcheck.specs.inner.Keepers.{AreKeepers, AreFirstPreserved};
ghost use Rattle.gm_embcheck.specs.inner.Leaders.{leader_in, AreLeaders};
ghost use Rattle.gm_model.specs.declared.limit.TheConstants.{MOST_NODES};

use crate::component::Leaders;
use gm_model::{MOST_NODES, RuleTable, Side};

/// By the number of the node, its keeper; none where no node of its component is preserved.
pub type Keepers = [Option<u8>; MOST_NODES];

/// The keepers of the right nodes.
pub fn keepers_of(rule: &RuleTable, leaders: &Leaders) -> Keepers
    requires bounds { HasBounds (rule_of rule.now) }
    requires leaders { (o : Labels) × AreLeaders (rule_of rule.now).right_links o leaders.now }
    ensures { (o : Labels) → AreLeaders (rule_of rule.now).right_links o leaders.now → AreKeepers (rule_of rule.now) o result }
{
    let first = first_preserved(rule, leaders);
    let mut keepers = [None; MOST_NODES];
    for node in 0..rule.node_count() {
        keepers[node as usize] = first[leaders[node as usize] as usize];
    }
    keepers
}

/// By the number of a leader, the least preserved node that has it.
fn first_preserved(rule: &RuleTable, leaders: &Leaders) -> Keepers
    requires nodes { length (rule_of rule.now).nodes ≤ MOST_NODES }
    requires within { (x : ℕ) → x < MOST_NODES → leader_in leaders.now x < MOST_NODES }
    ensures { AreFirstPreserved (rule_of rule.now) leaders.now (length (rule_of rule.now).nodes) result }
{
    let mut first = [None; MOST_NODES];
    for node in 0..rule.node_count() {
        let leader = leaders[node as usize] as usize;
        if first[leader].is_none() && preserves(rule, node) {
            first[leader] = Some(node);
        }
    }
    first
}

/// Whether the node has a word on both sides.
pub(crate) fn preserves(rule: &RuleTable, node: u8) -> bool
    ensures { result ≡ is_preserved (rule_of rule.now) node }
{
    rule.word(Side::Left, node).is_some() && rule.word(Side::Right, node).is_some()
}
