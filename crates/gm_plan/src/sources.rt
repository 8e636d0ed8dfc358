//! What an application asks of the nodes of a rule for each embedding: where their values come from.
ghost use Rattle.std.specs.Prelude.{◌≡◌, ℕ, ◌<◌, ◌≤◌, ◌↔◌, length, slice_index_or, IfOk, IsTrue};
ghost use Rattle.gm_model.specs.declared.rule.Side.TheVariants.{Right};
ghost use Rattle.gm_model.specs.declared.step.Step.TheVariants.{Absent, Imp};
ghost use Rattle.gm_model.specs.Components.{IsAssigned, HasLetterIn};
ghost use Rattle.gm_model.specs.Labels.{has};
ghost use Rattle.gm_model.specs.Rules.{rule_of, has_word, letters};
ghost use Rattle.gm_embcheck.specs.inner.Bounds.{HasBounds};
ghost use Rattle.gm_embcheck.specs.inner.NodeSets.{IsIn};
ghost use Rattle.gm_plan.specs.inner.Plans.{AreSteps, IsPlanned};
ghost use Rattle.gm_plan.specs.inner.Sources.{AreSources, HasExactLetters, IsSources};
ghost use Rattle.gm_model.specs.declared.limit.TheConstants.{MOST_DIMENSION, MOST_NODES};

use crate::collecting::has_collectors;
use crate::table::Row;
use gm_embcheck::{Keepers, NodeSet, assigns, keepers_of, leaders_of};
use gm_model::{Letter, MOST_NODES, Mask, OutOfMemory, RuleTable, Schema, Side, Step};
use std::alloc::Global;

/// What an application asks for one embedding, by the number of the node.
#[derive(Clone, Copy)]
pub struct Sources {
    pub keepers: Keepers,
    /// The nodes with an assignment.
    pub assigned: NodeSet,
    /// The nodes whose letters are the labels of the embedding's type.
    pub exact: NodeSet,
    /// Whether a collector stands in an expression that is assigned to the embedding.
    pub collects: bool,
}

/// What an application asks for each embedding. The rows have the right steps.
pub fn sources_of(
    alloc: Global,
    schema: &Schema,
    rule: &RuleTable,
    right: &[Row],
) -> Result<Vec<Sources>, OutOfMemory>
    requires planned { IsPlanned schema.now (rule_of rule.now) }
    requires right { AreSteps (rule_of rule.now) Right (length (rule_of rule.now).nodes) right.now }
    ensures { IfOk result (λ sources. AreSources schema.now (rule_of rule.now) sources.items) }
{
    let top = schema.dim.top();
    let mut sources = Vec::new(alloc);
    for (embed, declared) in schema.embeds.as_slice().iter().enumerate() {
        sources.push(sources_for(rule, right, top, embed as u8, declared.mask))?;
    }
    Ok(sources)
}

/// What an application asks for the embedding, whose type has the labels.
fn sources_for(rule: &RuleTable, right: &[Row], top: u8, embed: u8, labels: Mask) -> Sources
    requires bounds { HasBounds (rule_of rule.now) }
    requires right { AreSteps (rule_of rule.now) Right (length (rule_of rule.now).nodes) right.now }
    requires top { top ≤ MOST_DIMENSION }
    ensures { IsSources top (rule_of rule.now) embed (has labels) result }
{
    let leaders = leaders_of(rule.links(Side::Right), labels);
    Sources {
        keepers: keepers_of(rule, &leaders),
        assigned: assigned_nodes(rule, embed),
        exact: exact_nodes(rule, right, top, labels),
        collects: has_collectors(rule, embed),
    }
}

/// The nodes with an assignment to the embedding.
fn assigned_nodes(rule: &RuleTable, embed: u8) -> NodeSet
    requires { length (rule_of rule.now).nodes ≤ MOST_NODES }
    ensures { (x : ℕ) → x < length (rule_of rule.now).nodes → IsIn result x ↔ IsAssigned (rule_of rule.now) embed x }
{
    let mut nodes = [false; MOST_NODES];
    for node in 0..rule.node_count() {
        nodes[node as usize] = assigns(rule, embed, node);
    }
    nodes
}

/// The right nodes whose letters are the labels. The rows have the right steps.
fn exact_nodes(rule: &RuleTable, right: &[Row], top: u8, labels: Mask) -> NodeSet
    requires bounds { HasBounds (rule_of rule.now) }
    requires right { AreSteps (rule_of rule.now) Right (length (rule_of rule.now).nodes) right.now }
    requires top { top ≤ MOST_DIMENSION }
    ensures { (x : ℕ) → x < length (rule_of rule.now).nodes → IsIn result x → HasExactLetters top (rule_of rule.now) (has labels) x }
{
    let mut nodes = [false; MOST_NODES];
    for node in 0..rule.node_count() {
        nodes[node as usize] = has_letters_among(rule, labels, node)
            && turns_at(&right[node as usize], top, labels);
    }
    nodes
}

/// Whether the node is a right node of which each letter is one of the labels.
fn has_letters_among(rule: &RuleTable, labels: Mask, node: u8) -> bool
    requires { HasBounds (rule_of rule.now) }
    ensures right { IsTrue result → IsTrue (has_word (rule_of rule.now) Right node) }
    ensures among { IsTrue result → (m : ℕ) → m < length (letters (rule_of rule.now) Right node) → HasLetterIn (rule_of rule.now) Right (has labels) node m }
{
    let Some(word) = rule.word(Side::Right, node) else {
        return false;
    };
    for place in 0..word.len() {
        match word.letter(place) {
            Letter::At(label) if labels.has(label) => {}
            _ => return false,
        }
    }
    true
}

/// Whether the steps turn at each of the labels.
fn turns_at(steps: &Row, top: u8, labels: Mask) -> bool
    requires { top ≤ MOST_DIMENSION }
    ensures { IsTrue result → (i : ℕ) → i ≤ top → IsTrue (has labels i) → (m : ℕ) × (slice_index_or steps.now i Absent ≡ Imp m) }
{
    for label in 0..top + 1 {
        if labels.has(label) && !matches!(steps[label as usize], Step::Imp(_)) {
            return false;
        }
    }
    true
}
