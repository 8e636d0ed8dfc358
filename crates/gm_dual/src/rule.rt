//! The dual of a rule.

ghost use Rattle.std.specs.Prelude.{◌≡◌, ◌≤◌, IfOk, map};
ghost use Rattle.std.specs.Option.{option_map};
ghost use Rattle.gm_model.specs.Rules.{assignment_of, node_of, rule_of};
ghost use Rattle.gm_model.specs.Trees.{tree_of};
ghost use Rattle.gm_dual.specs.Duals as duals;
ghost use Rattle.gm_model.specs.declared.limit.TheConstants.{MOST_DIMENSION};

use crate::expression::dual_expr;
use crate::labels::{dual_label, dual_word};
use gm_model::{Expr, Items, Link, Node, OutOfMemory, Param, RuleTable, Set, Word};
use std::alloc::Global;

/// The rule with the dual of each word, link and expression, all in their order.
pub(crate) fn dual_rule(alloc: Global, top: u8, rule: &RuleTable) -> Result<RuleTable, OutOfMemory>
    requires { top ≤ MOST_DIMENSION }
    ensures { IfOk result (λ dual. rule_of dual ≡ duals.dual_rule top (rule_of rule.now)) }
{
    Ok(RuleTable {
        name: rule.name,
        params: copy_params(alloc, rule.params.as_slice())?,
        nodes: dual_nodes(alloc, top, rule.nodes.as_slice())?,
        left_links: dual_links(alloc, top, rule.left_links.as_slice())?,
        right_links: dual_links(alloc, top, rule.right_links.as_slice())?,
        hooks: copy_hooks(alloc, rule.hooks.as_slice())?,
        pre: dual_pre(alloc, top, &rule.pre)?,
    })
}

fn copy_params(alloc: Global, params: &[Param]) -> Result<Items<Param>, OutOfMemory>
    ensures { IfOk result (λ copy. copy ≡ params.now) }
{
    Ok(Items::new(params.to_vec(alloc)?))
}

fn copy_hooks(alloc: Global, hooks: &[u8]) -> Result<Items<u8>, OutOfMemory>
    ensures { IfOk result (λ copy. copy ≡ hooks.now) }
{
    Ok(Items::new(hooks.to_vec(alloc)?))
}

fn dual_nodes(alloc: Global, top: u8, nodes: &[Node]) -> Result<Items<Node>, OutOfMemory>
    requires { top ≤ MOST_DIMENSION }
    ensures { IfOk result (λ made. map node_of made ≡ map (duals.dual_node top) (map node_of nodes.now)) }
{
    let mut made = Vec::new(alloc);
    for node in nodes {
        made.push(dual_node(alloc, top, node)?)?;
    }
    Ok(Items::new(made))
}

fn dual_node(alloc: Global, top: u8, node: &Node) -> Result<Node, OutOfMemory>
    requires { top ≤ MOST_DIMENSION }
    ensures { IfOk result (λ dual. node_of dual ≡ duals.dual_node top (node_of node.now)) }
{
    Ok(Node {
        name: node.name,
        left: dual_side(top, &node.left),
        right: dual_side(top, &node.right),
        sets: dual_sets(alloc, top, node.sets.as_slice())?,
    })
}

fn dual_side(top: u8, word: &Option<Word>) -> Option<Word>
    ensures { result ≡ option_map (duals.dual_word top) word.now }
{
    match word {
        Some(word) => Some(dual_word(top, word)),
        None => None,
    }
}

fn dual_sets(alloc: Global, top: u8, sets: &[Set]) -> Result<Items<Set>, OutOfMemory>
    requires { top ≤ MOST_DIMENSION }
    ensures { IfOk result (λ made. map assignment_of made ≡ map (duals.dual_assignment top) (map assignment_of sets.now)) }
{
    let mut made = Vec::new(alloc);
    for set in sets {
        made.push(dual_set(alloc, top, set)?)?;
    }
    Ok(Items::new(made))
}

fn dual_set(alloc: Global, top: u8, set: &Set) -> Result<Set, OutOfMemory>
    requires { top ≤ MOST_DIMENSION }
    ensures { IfOk result (λ dual. assignment_of dual ≡ duals.dual_assignment top (assignment_of set.now)) }
{
    Ok(Set {
        embed: set.embed,
        expr: dual_expr(alloc, top, &set.expr)?,
    })
}

fn dual_links(alloc: Global, top: u8, links: &[Link]) -> Result<Items<Link>, OutOfMemory>
    ensures { IfOk result (λ made. made ≡ map (duals.dual_link top) links.now) }
{
    let mut made = Vec::new(alloc);
    for link in links {
        made.push(Link {
            label: dual_label(top, link.label),
            ..*link
        })?;
    }
    Ok(Items::new(made))
}

fn dual_pre(alloc: Global, top: u8, pre: &Option<Expr>) -> Result<Option<Expr>, OutOfMemory>
    requires { top ≤ MOST_DIMENSION }
    ensures { IfOk result (λ dual. option_map tree_of dual ≡ option_map (duals.dual_tree top) (option_map tree_of pre.now)) }
{
    match pre {
        Some(expr) => Ok(Some(dual_expr(alloc, top, expr)?)),
        None => Ok(None),
    }
}
