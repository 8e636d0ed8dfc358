//! A match from its hooks, and its faults in the order in which they are tested.

ghost use Rattle.std.specs.Prelude.{◌≡◌, ℕ, List, ◌+◌, ◌*◌, ◌≤◌, length, MatchResult, IfErr};
ghost use Rattle.gm_arena.specs.inner.ArenaAsMap.{as_map};
ghost use Rattle.gm_model.specs.declared.value.Value.{Value};
ghost use Rattle.gm_model.specs.Applications.{HasPositions};
ghost use Rattle.gm_model.specs.Maps.{IsGeneralised};
ghost use Rattle.gm_model.specs.Matches.{Placement, IsMatch};
ghost use Rattle.gm_model.specs.Rules.{rule_of};
ghost use Rattle.gm_walk.specs.inner.Room.{Fits};
ghost use Rattle.gm_match.specs.declared.fault.MatchFault.TheVariants as faults;
ghost use Rattle.gm_match.specs.inner.Outcome.{application_of, IsAnswer, IsCause};

use crate::arcs::meet_steps;
use crate::candidates::candidate;
use crate::darts::hook_darts;
use crate::fault::MatchFault;
use crate::repeats::take_once;
use gm_arena::{Arena, Slot, Steps};
use gm_model::MOST_NODES;
use gm_plan::{Instances, Plan};
use gm_walk::Scratch;
use std::alloc::Global;
use std::sync::ledger::Ledger;

/// The match of the plan's rule at the darts that the hooks name.
///
/// First each hook has to name a live dart, then each left step of the one candidate has to be met,
/// and then no dart may be taken twice. The map is only read. The scratch has its room again after
/// the call, whatever it answers.
pub fn find<L: Ledger>(
    alloc: Global,
    plan: &Plan<'_>,
    arena: &Arena,
    hooks: &[u32],
    scratch: &mut Scratch,
    steps: &mut Steps<L>,
) -> Result<Instances, MatchFault>
    requires map { IsGeneralised (as_map arena.now) }
    requires schema { arena.now.schema ≡ plan.now.schema }
    requires hooks { length hooks.now ≡ length (rule_of plan.now.table).hooks }
    requires fits { Fits scratch.old arena.now }
    ensures answer { let rule = rule_of plan.now.table in MatchResult result
        (IsAnswer arena.now rule hooks.now)
        (λ fault. (params : List Value) → IsCause (application_of arena.now rule hooks.now params) fault) }
    ensures none_missed { (place : Placement)
        → IsMatch (as_map arena.now) (rule_of plan.now.table) hooks.now place
        → IfErr result (λ fault. fault ≡ faults.OutOfMemory) }
    ensures cost { let rule = rule_of plan.now.table in (params : List Value) (k : ℕ)
        → HasPositions (application_of arena.now rule hooks.now params) k
        → steps.new ≤ steps.old + 8 * (arena.now.schema.dim + 1) * (length rule.nodes * k + 1) }
    ensures least { steps.old ≤ steps.new }
    ensures room { scratch.new.bound ≡ scratch.old.bound }
{
    prove!(hooks.len() == plan.rule().hooks.as_slice().len());
    let mut darts = [Slot { at: 0 }; MOST_NODES];
    hook_darts(arena, hooks, &mut darts, steps)?;
    if hooks.is_empty() {
        return Ok(Instances::with_nodes(Vec::new(alloc), Vec::new(alloc), 1, 0, 0));
    }
    prove!((darts[0].at as usize) < arena.bound());
    let darts = &darts[..hooks.len()];
    let first = plan.rule().hooks.as_slice()[0];
    let is_walked = plan.rule().hook_word().unwrap().len() != 1;
    let found = candidate(alloc, plan, arena, darts, scratch, steps)?;
    meet_steps(plan, arena, &found, steps)?;
    take_once(&found, plan.left_nodes(), first, is_walked, scratch)?;
    Ok(found)
}
