//! The components into which links with labels of a set join the nodes of a side: by node the least
//! one of its component, and the set of one. A caller gives links between numbers below 32, with
//! labels up to 7, as a rule in range has them on each side.
ghost use Rattle.std.specs.Prelude.{◌≡◌, ◌<◌, ℕ, ◌↔◌, length, slice_get};
ghost use Rattle.gm_model.specs.Labels.{has};
ghost use Rattle.gm_embcheck.specs.inner.Bounds.{HasLinkBounds};
ghost use Rattle.gm_embcheck.specs.inner.Leaders.{leader_in, AreLeaders, HasJoined, replaced};
ghost use Rattle.gm_embcheck.specs.inner.NodeSets.{IsIn};
ghost use Rattle.gm_model.specs.declared.limit.TheConstants.{MOST_NODES};

use gm_model::{Link, MOST_NODES, Mask};

/// A set of nodes, by the number of the node.
pub type NodeSet = [bool; MOST_NODES];

/// By the number of the node, the least node of its component.
pub type Leaders = [u8; MOST_NODES];

/// The leader of each node: the least one to which links with labels of the mask lead from it.
pub fn leaders_of(links: &[Link], mask: Mask) -> Leaders
    requires { HasLinkBounds links.now }
    ensures { AreLeaders links.now (has mask) result }
{
    let mut leaders = each_alone();
    for link in links {
        if mask.has(link.label) {
            join(&mut leaders, link.from, link.to);
        }
    }
    leaders
}

/// The nodes that have the leader of this one.
pub fn nodes_of(leaders: &Leaders, node: u8) -> NodeSet
    requires { node < MOST_NODES }
    ensures { (x : ℕ) → IsIn result x ↔ ((x < MOST_NODES) × (leader_in leaders.now x ≡ leader_in leaders.now node)) }
{
    let leader = leaders[node as usize];
    let mut nodes = [false; MOST_NODES];
    for other in 0..MOST_NODES {
        nodes[other] = leaders[other] == leader;
    }
    nodes
}

/// Each node as its own leader.
fn each_alone() -> Leaders
    ensures { (x : ℕ) → x < MOST_NODES → leader_in result x ≡ x }
{
    let mut leaders = [0; MOST_NODES];
    for node in 0..MOST_NODES {
        leaders[node] = node as u8;
    }
    leaders
}

/// Makes one component of those of both nodes.
fn join(leaders: &mut Leaders, from: u8, to: u8)
    requires from { from < MOST_NODES }
    requires to { to < MOST_NODES }
    ensures { HasJoined leaders.old leaders.new (leader_in leaders.old from) (leader_in leaders.old to) }
{
    let first = leaders[from as usize];
    let second = leaders[to as usize];
    if first < second {
        replace(leaders, second, first);
    } else if second < first {
        replace(leaders, first, second);
    }
}

/// Gives the nodes of one leader another one.
fn replace(leaders: &mut Leaders, old: u8, new: u8)
    ensures { (x : ℕ) → x < MOST_NODES → leader_in leaders.new x ≡ replaced old new (leader_in leaders.old x) }
{
    for node in 0..MOST_NODES {
        let leader = leaders[node];
        leaders[node] = if leader == old { new } else { leader };
    }
}
