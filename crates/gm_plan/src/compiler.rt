//! A rule made into a plan, once all conditions on it hold.

ghost use Rattle.std.specs.Prelude.{◌≡◌, ◌≤◌, MatchResult, length};
ghost use Rattle.gm_model.specs.Rules.{rule_of};
ghost use Rattle.gm_model.specs.Kinds.{IsTyped};
ghost use Rattle.gm_model.specs.Structure.{IsInRange, IsWithinLimits};
ghost use Rattle.gm_plan.specs.inner.Plans.{IsPlanned, plan_of};
ghost use Rattle.gm_plan.specs.inner.Refusals.{IsRefusal};
ghost use Rattle.gm_model.specs.declared.limit.TheConstants.{MOST_EMBEDS};

use crate::plan::Plan;
use gm_model::{OutOfMemory, RuleFault, RuleTable, Schema};
use std::alloc::Global;

/// Why a rule has no plan.
#[derive(Clone, Copy, Debug)]
pub enum PlanFault {
    /// The rule isn't accepted. This is its first fault.
    Rule(RuleFault),
    OutOfMemory,
}

impl From<RuleFault> for PlanFault {
    ghost use Rattle.std.specs.Prelude.{◌≡◌};
    ghost use Rattle.gm_plan.specs.declared.compiler.PlanFault.TheVariants as faults;

    ghost from_gives = { λ fault given. given ≡ faults.Rule fault };

    fn from(fault: RuleFault) -> PlanFault {
        PlanFault::Rule(fault)
    }
}

impl From<OutOfMemory> for PlanFault {
    ghost use Rattle.std.specs.Prelude.{◌≡◌};
    ghost use Rattle.gm_plan.specs.declared.compiler.PlanFault.TheVariants as faults;

    ghost from_gives = { λ _ fault. fault ≡ faults.OutOfMemory };

    fn from(_error: OutOfMemory) -> PlanFault {
        PlanFault::OutOfMemory
    }
}

/// The plan of a rule for maps of the schema.
///
/// The rule's structure is tested first, then its incident arcs, its squares, and its embeddings.
/// `Rule` has the first fault. Where the rule has none, memory may run out for the tables.
pub fn compile<'b>(
    alloc: Global,
    schema: &'b Schema,
    rule: &'b RuleTable,
) -> Result<Plan<'b>, PlanFault>
    requires embeds { length schema.now.embeds ≤ MOST_EMBEDS }
    requires in_range { IsInRange schema.now (rule_of rule.now) }
    requires within { IsWithinLimits (rule_of rule.now) }
    requires typed { IsTyped schema.now (rule_of rule.now) }
    ensures { MatchResult result
        (λ plan. (plan ≡ plan_of schema.now rule.now) × IsPlanned schema.now (rule_of rule.now))
        (λ fault. IsRefusal schema.now (rule_of rule.now) fault) }
{
    gm_incident::check(schema, rule)?;
    gm_cycle::check(schema, rule)?;
    gm_embcheck::check(schema, rule)?;
    Ok(Plan::new(alloc, schema, rule)?)
}
