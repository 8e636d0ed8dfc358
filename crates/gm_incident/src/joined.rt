//! Which nodes of a rule its left links join to a hook.

ghost use Rattle.std.specs.Prelude.{◌≡◌, ◌<◌, true, false, ℕ, ◌↔◌, length, IsTrue, IsFalse, slice_index_or};
ghost use Rattle.std.specs.List.{All, Contains};
ghost use Rattle.gm_model.specs.declared.rule.Link.{Link};
ghost use Rattle.gm_incident.specs.inner.Ranges.{HasEndsBelow32};
ghost use Rattle.gm_incident.specs.inner.Reached.{IsReached, is_reached, unreached, IsJoinedToHook, HasSpread};
ghost use Rattle.gm_model.specs.declared.limit.TheConstants.{MOST_NODES};

use gm_model::{Link, MOST_NODES};

/// Which nodes the links join to a hook, by the number of the node.
pub fn joined_to(hooks: &[u8], links: &[Link]) -> [bool; MOST_NODES]
    requires hooks { All (λ h. h < MOST_NODES) hooks.now }
    requires ends { HasEndsBelow32 links.now }
    ensures { (x : ℕ) → IsReached result x ↔ IsJoinedToHook links.now hooks.now x }
{
    let mut reached = marked(hooks);
    while spread(links, &mut reached) {}
    reached
}

/// A table in which these nodes are marked.
fn marked(nodes: &[u8]) -> [bool; MOST_NODES]
    requires { All (λ h. h < MOST_NODES) nodes.now }
    ensures { (x : ℕ) → IsReached result x ↔ Contains nodes.now x }
{
    let mut reached = [false; MOST_NODES];
    for node in nodes {
        reached[*node as usize] = true;
    }
    reached
}

/// Marks both ends of each link that has one marked end, in one pass, and tells whether there was
/// such a link.
fn spread(links: &[Link], reached: &mut [bool; MOST_NODES]) -> bool
    requires { HasEndsBelow32 links.now }
    ensures spread { HasSpread links.now reached.old reached.new }
    ensures more { IsTrue result → unreached reached.new < unreached reached.old }
    ensures done { IsFalse result → All (λ (link : Link). is_reached reached.new link.from ≡ is_reached reached.new link.to) links.now }
{
    let mut has_spread = false;
    for link in links {
        if reached[link.from as usize] != reached[link.to as usize] {
            reached[link.from as usize] = true;
            reached[link.to as usize] = true;
            has_spread = true;
        }
    }
    has_spread
}
