//! Where the expressions of a rule are read: in the map as it is, at a match.
ghost use Rattle.std.specs.Prelude.{◌≡◌, ◌≢◌, true, false, ℕ, ◌+◌, ◌*◌, ◌<◌, ◌≤◌, ◌⊎◌, IsSome, List, MatchOption, MatchResult, Some, slice_get};
ghost use Rattle.std.specs.List.{Contains};
ghost use Rattle.gm_model.specs.declared.schema.Embed.{Embed};
ghost use Rattle.gm_model.specs.declared.value.Value.{Value};
ghost use Rattle.gm_model.specs.declared.value.Value.TheVariants as values;
ghost use Rattle.gm_model.specs.Applications.{GivesValue, IsPreUnits, IsReadUnits, MeetsPre};
ghost use Rattle.gm_model.specs.Components.{IsAssigned};
ghost use Rattle.gm_model.specs.Maps.{IsEmbedAt};
ghost use Rattle.gm_model.specs.Rules.{Assigns, rule_of};
ghost use Rattle.gm_model.specs.Trees.{Tree, tree_of};
ghost use Rattle.gm_model.specs.Values.{IsValueOf};
ghost use Rattle.gm_walk.specs.inner.Room.{Fits};
ghost use Rattle.gm_eval.specs.declared.kept.Collector.{Collector};
ghost use Rattle.gm_eval.specs.inner.Keeping.{AreKept};
ghost use Rattle.gm_eval.specs.inner.Sharing.{AreKeptOnce, HasRoom, HasUnitsBeside, IsAtHand, IsShared, Reads, StillKept, collectors_of};
ghost use Rattle.gm_apply.specs.inner.Outcomes.{IsRefusedFor};
ghost use Rattle.gm_apply.specs.inner.Readings.{IsExpression, read_at};
ghost use Rattle.gm_apply.specs.inner.Reads.{IsReadable, SetsEmbed, app_at, place_at};

use crate::refusal::Refusal;
use gm_arena::{Arena, Steps};
use gm_eval::{Kept, eval, eval_keeping};
use gm_model::{Expr, RuleTable, Set, Value};
use gm_plan::{Instances, Plan};
use gm_walk::Scratch;
use std::sync::ledger::Ledger;

/// A match of a plan's rule, the map that it was found in, and values for the rule's parameters.
#[derive(Clone, Copy)]
pub(crate) struct Reading<'a, 'm> {
    pub(crate) plan: &'a Plan<'a>,
    pub(crate) found: &'a Instances,
    pub(crate) arena: &'m Arena,
    pub(crate) params: &'m [Value],
}

impl Reading<'_, '_> {
    /// Reads the precondition, where the rule has one.
    pub(crate) fn meet_pre<L: Ledger>(
        &self,
        scratch: &mut Scratch,
        steps: &mut Steps<L>,
    ) -> Result<(), Refusal>
        requires readable { (hooks : List ℕ) × IsReadable self.now hooks }
        requires fits { Fits scratch.old self.now.arena.now }
        ensures pre { (hooks : List ℕ) → IsReadable self.now hooks → MatchResult result (λ _. MeetsPre (app_at self.now hooks) (place_at self.now)) (IsRefusedFor (app_at self.now hooks)) }
        ensures cost { (hooks : List ℕ) (u : ℕ) → IsPreUnits (app_at self.now hooks) (place_at self.now) u → steps.new ≤ steps.old + 6 * (self.now.arena.now.schema.dim + 1) * u }
        ensures least { steps.old ≤ steps.new }
        ensures room { scratch.new.bound ≡ scratch.old.bound }
    {
        prove!(self.found.positions() > 0);
        let Some(pre) = &self.plan.rule().pre else {
            return Ok(());
        };
        let Some(value) = eval(self.arena, self.found, 0, self.params, pre, scratch, steps) else {
            return Err(Refusal::PreNoValue);
        };
        if is_true(value) {
            Ok(())
        } else {
            Err(Refusal::PreFalse)
        }
    }

    /// The value that a node's expression gives to the embedding at a position; none where it has
    /// none. What it collects over an orbit that holds a node at all positions is kept for the next.
    pub(crate) fn value<L: Ledger>(
        &self,
        embed: u8,
        node: u8,
        position: u32,
        kept: &mut Kept,
        scratch: &mut Scratch,
        steps: &mut Steps<L>,
    ) -> Option<Value>
        requires readable { (hooks : List ℕ) × IsReadable self.now hooks }
        requires fits { Fits scratch.old self.now.arena.now }
        requires kept { AreKept self.now.arena.now self.now.found.now self.now.params.now kept.old.entries }
        requires assigned { IsAssigned (rule_of self.now.plan.now.table) embed node }
        requires position { position < self.now.found.now.positions }
        ensures value { (hooks : List ℕ) → MatchOption result
            ((v : Value) → GivesValue (app_at self.now hooks) (place_at self.now) embed node position v → ⊥)
            (GivesValue (app_at self.now hooks) (place_at self.now) embed node position) }
        ensures kind { (kept : Embed) (v : Value) → IsEmbedAt self.now.arena.now.schema embed kept → result ≡ Some v → IsValueOf kept.kind v }
        ensures cost { (hooks : List ℕ) (u : ℕ) → IsReadUnits (app_at self.now hooks) (place_at self.now) (record { embed = embed; node = node; position = position }) u
            → steps.new ≤ steps.old + 6 * (self.now.arena.now.schema.dim + 1) * u }
        ensures least { steps.old ≤ steps.new }
        ensures room { scratch.new.bound ≡ scratch.old.bound }
        ensures kept { AreKept self.now.arena.now self.now.found.now self.now.params.now kept.new.entries }
        ensures cheap { (tree : Tree) (u : ℕ) → IsExpression self.now embed node tree → HasUnitsBeside (IsAtHand kept.old.entries) (read_at self.now position) tree u
            → steps.new ≤ steps.old + 6 * (self.now.arena.now.schema.dim + 1) * u }
        ensures stays { StillKept kept.old.entries kept.new.entries }
        ensures reader { kept.new.reader ≡ kept.old.reader }
        ensures among { (tree : Tree) (c : Collector) → IsExpression self.now embed node tree → IsAtHand kept.new.entries c → IsAtHand kept.old.entries c ⊎ Contains (collectors_of tree) c }
        ensures once { AreKeptOnce kept.old.entries → AreKeptOnce kept.new.entries }
        ensures remembers { IsSome result → HasRoom kept.new.entries → (tree : Tree) (c : Collector) → IsExpression self.now embed node tree → Reads (read_at self.now position) tree c
            → IsShared self.now.arena.now self.now.found.now position c → IsAtHand kept.new.entries c }
    {
        let expr = assignment(self.plan.rule(), embed, node);
        eval_keeping(
            self.arena,
            self.found,
            position,
            self.params,
            expr,
            kept,
            scratch,
            steps,
        )
    }
}

/// The expression that the node assigns to the embedding.
fn assignment(rule: &RuleTable, embed: u8, node: u8) -> &Expr
    requires { IsAssigned (rule_of rule.now) embed node }
    ensures { Assigns (rule_of rule.now) node embed (tree_of result.now) }
{
    let node = &rule.nodes.as_slice()[node as usize];
    &set_of(node.sets.as_slice(), embed).expr
}

/// The assignment to the embedding.
fn set_of(sets: &[Set], embed: u8) -> &Set
    requires { SetsEmbed sets.now embed }
    ensures embed { result.now.embed ≡ embed }
    ensures among { (k : ℕ) × (slice_get sets.now k ≡ Some result.now) }
{
    for set in sets {
        if set.embed == embed {
            return set;
        }
    }
    unreachable!()
}

fn is_true(value: Value) -> bool
    ensures yes { result ≡ true → value ≡ values.Bool true }
    ensures not_otherwise { result ≡ false → value ≢ values.Bool true }
{
    match value {
        Value::Bool(truth) => truth,
        _ => false,
    }
}
