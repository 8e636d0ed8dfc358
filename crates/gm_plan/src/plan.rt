//! The plan of a rule: what each application of it asks again and again, in tables.

ghost use Rattle.std.specs.Prelude.{◌≡◌, ◌≢◌, false, ℕ, ◌<◌, ◌≤◌, ◌↔◌, length, MatchOption, IfOk, IsTrue};
ghost use Rattle.std.specs.List.{Contains};

use crate::changes::{changes_of, labels_made, nodes_removed};
use crate::paths::{Paths, link_to};
use crate::sides::{count_added, count_left, count_removed, sides_of};
use crate::sources::{Sources, sources_of};
use crate::table::Row;
use crate::tested::{Test, has_step, testing_of};
use gm_model::{Link, Mask, OutOfMemory, RuleTable, Schema, Side, Step};
use std::alloc::Global;
use std::marker::Model;

/// A rule that is ready to be applied to maps of the schema: it is accepted, and what an
/// application asks of it again and again is in tables.
///
/// A node goes by its index in the rule, where the left nodes come first.
#[derive(Drop)]
pub struct Plan<'b> {
    schema: &'b Schema,
    rule: &'b RuleTable,
    left: Vec<Row>,
    right: Vec<Row>,
    made: Vec<Row>,
    freed: Vec<Row>,
    tested: Vec<Row>,
    /// The steps of `tested`, one after another.
    tests: Vec<Test>,
    paths: Paths,
    /// By embedding.
    sources: Vec<Sources>,
    left_nodes: u8,
    added: u8,
    removed: u8,
    /// Which nodes are removed: bit `x` stands for node `x`.
    goes: u32,
    made_labels: Mask,
}

impl<'b> Model for Plan<'b> {
    ghost use Rattle.std.specs.Coded.{codes};
    ghost use Rattle.gm_model.specs.contracts.expr.Expr as expr_block;
    ghost use Rattle.gm_model.specs.Rules.{rule_of};
    ghost use Rattle.gm_plan.specs.inner.Plans.{PlanOf, IsCompiled};

    ghost Value = { PlanOf };

    ghost coded = { Prim.hlevel (codes, expr_block.the_row.coded) };

    ghost view = { λ a. record { schema = a.schema.now; table = a.rule.now } };

    ghost invariant = { λ a. IsCompiled a.schema.now (rule_of a.rule.now) a.left.items a.right.items a.made.items a.freed.items a.tested.items a.tests.items a.paths.items a.sources.items a.left_nodes a.added a.removed a.goes a.made_labels };
}

impl<'b> Plan<'b> {
    ghost use Rattle.gm_model.specs.declared.limit.TheConstants.{MOST_LABELS};
    ghost use Rattle.gm_model.specs.declared.rule.Side.TheVariants.{Left, Right};
    ghost use Rattle.gm_model.specs.declared.schema.Embed.{Embed};
    ghost use Rattle.gm_model.specs.declared.step.Step.TheVariants.{Absent};
    ghost use Rattle.gm_model.specs.Components.{IsAssigned, IsKeeper, IsNew};
    ghost use Rattle.gm_model.specs.Maps.{IsEmbedAt, type_of};
    ghost use Rattle.gm_model.specs.Rules.{rule_of, has_word, link_from, step};
    ghost use Rattle.gm_model.specs.Unfolding.{added_nodes};
    ghost use Rattle.gm_plan.specs.inner.Changes.{freed_step, made_step, AreMadeLabels, AreRemovedNodes};
    ghost use Rattle.gm_plan.specs.inner.Collecting.{Collects, CollectsNothing};
    ghost use Rattle.gm_plan.specs.inner.Counts.{removed_nodes};
    ghost use Rattle.gm_plan.specs.inner.Paths.{ArePaths, IsLastLink};
    ghost use Rattle.gm_plan.specs.inner.Plans.{AreRows, IsPlanned, IsLeftCount, plan_of};
    ghost use Rattle.gm_plan.specs.inner.Sources.{HasExactLetters};
    ghost use Rattle.gm_plan.specs.inner.Tested.{AreTests, IsForcedStep};

    /// The plan of a rule that is accepted.
    pub(crate) fn new(
        alloc: Global,
        schema: &'b Schema,
        rule: &'b RuleTable,
    ) -> Result<Plan<'b>, OutOfMemory>
        requires planned { IsPlanned schema.now (rule_of rule.now) }
        ensures { IfOk result (λ plan. plan ≡ plan_of schema.now rule.now) }
    {
        let sides = sides_of(alloc, rule)?;
        let changes = changes_of(alloc, rule, &sides)?;
        let testing = testing_of(alloc, schema, rule, sides.left.as_slice())?;
        let sources = sources_of(alloc, schema, rule, sides.right.as_slice())?;
        let made_labels = labels_made(rule, changes.made.as_slice());
        Ok(Plan {
            schema,
            rule,
            left: sides.left,
            right: sides.right,
            made: changes.made,
            freed: changes.freed,
            tested: testing.rows,
            tests: testing.tests,
            paths: testing.paths,
            sources,
            left_nodes: count_left(rule),
            added: count_added(rule),
            removed: count_removed(rule),
            goes: nodes_removed(rule),
            made_labels,
        })
    }

    /// The schema of the maps that the rule is for.
    pub fn schema(&self) -> &'b Schema
        ensures schema { result.now ≡ self.now.schema }
        ensures planned { IsPlanned self.now.schema (rule_of self.now.table) }
    {
        self.schema
    }

    /// The rule.
    pub fn rule(&self) -> &'b RuleTable
        ensures rule { result.now ≡ self.now.table }
        ensures planned { IsPlanned self.now.schema (rule_of self.now.table) }
    {
        self.rule
    }

    /// How many hooks the rule has.
    pub fn hooks(&self) -> u8
        ensures { result ≡ length (rule_of self.now.table).hooks }
    {
        self.rule.hooks.as_slice().len() as u8
    }

    /// How many left nodes the rule has: they are the nodes below this number.
    pub fn left_nodes(&self) -> u8
        ensures left { IsLeftCount (rule_of self.now.table) result }
        ensures most { result ≤ length (rule_of self.now.table).nodes }
    {
        self.left_nodes
    }

    /// How many nodes the rule adds.
    pub fn added(&self) -> u8
        ensures { result ≡ added_nodes (rule_of self.now.table) }
    {
        self.added
    }

    /// How many nodes the rule removes.
    pub fn removed(&self) -> u8
        ensures { result ≡ removed_nodes (rule_of self.now.table) }
    {
        self.removed
    }

    /// Which nodes the rule removes: bit `x` stands for node `x`.
    pub fn nodes_that_go(&self) -> u32
        ensures { AreRemovedNodes (rule_of self.now.table) result }
    {
        self.goes
    }

    /// The labels at which some node has a made step. An application makes no arcs at the others.
    pub fn made_labels(&self) -> Mask
        ensures { AreMadeLabels (rule_of self.now.table) result }
    {
        self.made_labels
    }

    /// What the node has at the label on the side.
    pub fn step(&self, side: Side, node: u8, label: u8) -> Step
        requires node { node < length (rule_of self.now.table).nodes }
        requires label { label < MOST_LABELS }
        ensures { result ≡ step (rule_of self.now.table) side node label }
    {
        match side {
            Side::Left => self.left[node as usize][label as usize],
            Side::Right => self.right[node as usize][label as usize],
        }
    }

    /// The right step of the node at the label, unless it is the same on the left: an application
    /// makes its arcs.
    pub fn made_step(&self, node: u8, label: u8) -> Step
        requires node { node < length (rule_of self.now.table).nodes }
        requires label { label < MOST_LABELS }
        ensures { result ≡ made_step (rule_of self.now.table) node label }
    {
        self.made[node as usize][label as usize]
    }

    /// The left step of the node at the label, where it leads to darts that are removed: an
    /// application frees its arcs.
    pub fn freed_step(&self, node: u8, label: u8) -> Step
        requires node { node < length (rule_of self.now.table).nodes }
        requires label { label < MOST_LABELS }
        ensures { result ≡ freed_step (rule_of self.now.table) node label }
    {
        self.freed[node as usize][label as usize]
    }

    /// The steps that an application makes, by node and by label.
    pub fn made_rows(&self) -> &[Row]
        ensures { AreRows (made_step (rule_of self.now.table)) (length (rule_of self.now.table).nodes) result.now }
    {
        &self.made
    }

    /// The steps that an application frees, by node and by label.
    pub fn freed_rows(&self) -> &[Row]
        ensures { AreRows (freed_step (rule_of self.now.table)) (length (rule_of self.now.table).nodes) result.now }
    {
        &self.freed
    }

    /// The left steps that a match has to test: the candidate meets each other one as it is made.
    pub fn tests(&self) -> &[Test]
        ensures { AreTests self.now.schema.dim (rule_of self.now.table) result.now }
    {
        &self.tests
    }

    /// Whether a match has to test a left step of the node.
    pub fn needs_test(&self, node: u8) -> bool
        requires { node < length (rule_of self.now.table).nodes }
        ensures { result ≡ false → (i : ℕ) → i < MOST_LABELS → IsForcedStep (rule_of self.now.table) node i }
    {
        has_step(&self.tested[node as usize])
    }

    /// The left step of the node at the label, where a match has to test it, and else
    /// `Step::Absent`: the candidate meets the step as it is made.
    pub fn tested_step(&self, node: u8, label: u8) -> Step
        requires node { node < length (rule_of self.now.table).nodes }
        requires label { label < MOST_LABELS }
        ensures forced { result ≡ Absent → IsForcedStep (rule_of self.now.table) node label }
        ensures kept { result ≢ Absent → result ≡ step (rule_of self.now.table) Left node label }
    {
        self.tested[node as usize][label as usize]
    }

    /// Whether the node has an assignment to the embedding.
    pub fn assigns(&self, embed: u8, node: u8) -> bool
        requires embed { embed < length self.now.schema.embeds }
        requires node { node < length (rule_of self.now.table).nodes }
        ensures { IsTrue result ↔ IsAssigned (rule_of self.now.table) embed node }
    {
        self.sources[embed as usize].assigned[node as usize]
    }

    /// The keeper of a right node for the embedding: the least preserved node of its component,
    /// whose value it takes over where no node of the component has an assignment. None where no
    /// node of it is preserved.
    pub fn keeper(&self, embed: u8, node: u8) -> Option<u8>
        requires embed { embed < length self.now.schema.embeds }
        requires right { IsTrue (has_word (rule_of self.now.table) Right node) }
        ensures { (declared : Embed) → IsEmbedAt self.now.schema embed declared → MatchOption result
            (IsNew (rule_of self.now.table) (type_of declared) node)
            (IsKeeper (rule_of self.now.table) (type_of declared) node) }
    {
        self.sources[embed as usize].keepers[node as usize]
    }

    /// Whether the letters of a right node are the labels of the embedding's type. Its instances
    /// are one orbit of that type then, whatever is matched.
    pub fn is_exact(&self, embed: u8, node: u8) -> bool
        requires embed { embed < length self.now.schema.embeds }
        requires node { node < length (rule_of self.now.table).nodes }
        ensures { IsTrue result → (declared : Embed) → IsEmbedAt self.now.schema embed declared → HasExactLetters self.now.schema.dim (rule_of self.now.table) (type_of declared) node }
    {
        self.sources[embed as usize].exact[node as usize]
    }

    /// Whether a collector stands in an expression that is assigned to the embedding.
    pub fn collects(&self, embed: u8) -> bool
        requires { embed < length self.now.schema.embeds }
        ensures nothing { result ≡ false → CollectsNothing (rule_of self.now.table) embed }
        ensures something { IsTrue result → Collects (rule_of self.now.table) embed }
    {
        self.sources[embed as usize].collects
    }

    /// The last link of the least path to each left node but the hooks, in an order in which each
    /// link leads from a hook or from the end of an earlier link. A path that is shorter is less,
    /// of paths of one length that with the lesser labels, and of one list of labels from two hooks
    /// that from the earlier hook.
    pub fn paths(&self) -> &[Link]
        ensures { ArePaths (rule_of self.now.table) result.now }
    {
        self.paths.as_slice()
    }

    /// The node and the label that end the least path to the left node; none at a hook.
    pub fn from(&self, node: u8) -> Option<(u8, u8)>
        requires { IsTrue (has_word (rule_of self.now.table) Left node) }
        ensures { MatchOption result
            (Contains (rule_of self.now.table).hooks node)
            (λ end. (Contains (rule_of self.now.table).hooks node → ⊥) × IsLastLink (rule_of self.now.table) (link_from end.0 end.1 node)) }
    {
        let link = link_to(self.paths.as_slice(), node)?;
        Some((link.from, link.label))
    }
}
