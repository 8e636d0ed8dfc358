//! The least paths of a rule: a search from its hooks, along its left links.

ghost use Rattle.std.specs.Prelude.{◌≡◌, ℕ, ◌+◌, ◌<◌, ◌≤◌, ◌↔◌, ◌==◌, List, length, Some, None, IfOk, OnOk};
ghost use Rattle.std.specs.List.{All, find};
ghost use Rattle.std.specs.Option.{option_copied};
ghost use Rattle.gm_model.specs.declared.rule.Link.{Link};
ghost use Rattle.gm_model.specs.declared.rule.Side.TheVariants.{Left};
ghost use Rattle.gm_model.specs.declared.step.Step.TheVariants.{Exp};
ghost use Rattle.gm_model.specs.Rules.{rule_of};
ghost use Rattle.gm_plan.specs.inner.Paths.{ArePaths};
ghost use Rattle.gm_plan.specs.inner.Plans.{IsPlanned, AreSteps};
ghost use Rattle.gm_plan.specs.inner.Searches.{row_step, HasLabelsBelow, HasEndsWithin, rank_at, AreHookRanks, IsSearched};
ghost use Rattle.gm_model.specs.declared.limit.TheConstants.{MOST_NODES};

use crate::table::Row;
use gm_model::{Link, MOST_NODES, OutOfMemory, RuleTable, Schema, Step};
use smallvec::SmallVec;
use std::alloc::Global;

/// The last links of the least paths of a rule. Few rules have more left nodes than fit in place.
pub type Paths = SmallVec<Link, 8>;

/// The rank of each node that is found, which says what list of labels leads to it: the lists are
/// counted in the order in which they are found. The hooks have the empty one, of rank 0.
type Ranks = [Option<u8>; MOST_NODES];

/// How far the search for the least paths has come.
#[derive(Drop)]
struct Search {
    ranks: Ranks,
    /// How many lists were found.
    count: u8,
    paths: Paths,
}

/// The last link of the least path to each left node but the hooks. The rows have the left steps of
/// each node.
///
/// Whichever hook a list of labels begins at, all nodes to which it leads are followed together, one
/// label after another. So the lists are found in their order, and each node along its least one.
pub fn least_paths(
    alloc: Global,
    schema: &Schema,
    rule: &RuleTable,
    rows: &[Row],
) -> Result<Paths, OutOfMemory>
    requires planned { IsPlanned schema.now (rule_of rule.now) }
    requires rows { AreSteps (rule_of rule.now) Left (length (rule_of rule.now).nodes) rows.now }
    ensures { IfOk result (λ paths. ArePaths (rule_of rule.now) paths.items) }
{
    let labels = schema.dim.top() + 1;
    let mut search = Search {
        ranks: hook_ranks(rule.hooks.as_slice()),
        count: 1,
        paths: SmallVec::new(alloc),
    };
    let mut done = 0;
    while done < search.count {
        search.follow_rank(rows, labels, done)?;
        done += 1;
    }
    Ok(search.paths)
}

/// The ranks with which a search begins.
fn hook_ranks(hooks: &[u8]) -> Ranks
    requires { All (λ h. h < MOST_NODES) hooks.now }
    ensures { AreHookRanks hooks.now result }
{
    let mut ranks = [None; MOST_NODES];
    for hook in hooks {
        ranks[*hook as usize] = Some(0);
    }
    ranks
}

impl Search {
    ghost use Rattle.gm_model.specs.declared.limit.TheConstants.{MOST_LABELS, MOST_NODES};
    /// Follows each label from the nodes of the rank.
    fn follow_rank(&mut self, rows: &[Row], labels: u8, rank: u8) -> Result<(), OutOfMemory>
        requires labels { labels ≤ MOST_LABELS }
        requires rows { length rows.now ≤ MOST_NODES }
        requires steps { HasLabelsBelow labels rows.now }
        requires ends { HasEndsWithin rows.now }
        requires rank { rank < self.now.count }
        requires room { self.now.count + labels < 256 }
        ensures { OnOk result ((hooks : List ℕ) → IsSearched rows.now hooks self.old.ranks self.old.paths.items self.old.count rank 0
            → IsSearched rows.now hooks self.new.ranks self.new.paths.items self.new.count (rank + 1) 0) }
    {
        for label in 0..labels {
            self.follow(rows, rank, label)?;
        }
        Ok(())
    }

    /// Follows the label from the nodes of the rank. All nodes that are found so have the next rank.
    fn follow(&mut self, rows: &[Row], rank: u8, label: u8) -> Result<(), OutOfMemory>
        requires label { label < MOST_LABELS }
        requires rows { length rows.now ≤ MOST_NODES }
        requires ends { HasEndsWithin rows.now }
        requires rank { rank < self.now.count }
        requires room { self.now.count < 255 }
        ensures searched { OnOk result ((hooks : List ℕ) → IsSearched rows.now hooks self.old.ranks self.old.paths.items self.old.count rank label
            → IsSearched rows.now hooks self.new.ranks self.new.paths.items self.new.count rank (label + 1)) }
        ensures least { self.old.count ≤ self.new.count }
        ensures most { self.new.count ≤ self.old.count + 1 }
    {
        let mut has_found = false;
        for node in 0..rows.len() as u8 {
            if let Some(to) = self.new_end(rows, rank, label, node) {
                self.ranks[to as usize] = Some(self.count);
                self.paths.push(Link {
                    from: node,
                    label,
                    to,
                })?;
                has_found = true;
            }
        }
        if has_found {
            self.count += 1;
        }
        Ok(())
    }

    /// The node to which the label leads from a node of the rank, if that isn't found yet.
    fn new_end(&self, rows: &[Row], rank: u8, label: u8, node: u8) -> Option<u8>
        requires label { label < MOST_LABELS }
        requires rows { length rows.now ≤ MOST_NODES }
        requires ends { HasEndsWithin rows.now }
        requires node { node < length rows.now }
        ensures { (y : ℕ) → (result ≡ Some y) ↔ ((rank_at self.now.ranks node ≡ Some rank) × (row_step rows.now node label ≡ Exp y) × (rank_at self.now.ranks y ≡ None)) }
    {
        if self.ranks[node as usize] != Some(rank) {
            return None;
        }
        let Step::Exp(to) = rows[node as usize][label as usize] else {
            return None;
        };
        if self.ranks[to as usize].is_some() {
            return None;
        }
        Some(to)
    }
}

/// The link to the node.
pub fn link_to(links: &[Link], node: u8) -> Option<&Link>
    ensures { option_copied result ≡ find (λ (link : Link). link.to == node) links.now }
{
    links.iter().find(|link| link.to == node)
}
