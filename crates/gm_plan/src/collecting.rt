//! Which embeddings have an expression that collects over an orbit.
ghost use Rattle.std.specs.Prelude.{◌≡◌, false, ◌↔◌, IsTrue};
ghost use Rattle.gm_model.specs.Rules.{rule_of};
ghost use Rattle.gm_model.specs.Trees.{tree_of};
ghost use Rattle.gm_plan.specs.inner.Collecting.{Collects, CollectsNothing, SetsCollect, collects};

use gm_model::{Expr, RuleTable, Set};

/// Whether a collector stands in an expression that is assigned to the embedding.
pub(crate) fn has_collectors(rule: &RuleTable, embed: u8) -> bool
    ensures none { result ≡ false → CollectsNothing (rule_of rule.now) embed }
    ensures some { IsTrue result → Collects (rule_of rule.now) embed }
{
    for node in rule.nodes.as_slice() {
        if sets_collect(node.sets.as_slice(), embed) {
            return true;
        }
    }
    false
}

/// Whether a collector stands in the expression of an assignment to the embedding.
fn sets_collect(sets: &[Set], embed: u8) -> bool
    ensures { IsTrue result ↔ SetsCollect sets.now embed }
{
    for set in sets {
        if set.embed == embed && has_collector(&set.expr) {
            return true;
        }
    }
    false
}

/// Whether a collector stands in the expression.
fn has_collector(expr: &Expr) -> bool
    ensures { result ≡ collects (tree_of expr.now) }
{
    match expr {
        Expr::Int(_) | Expr::Bool(_) | Expr::Param(_) => false,
        Expr::Field(_, _) | Expr::Same(_, _) => false,
        Expr::Count(_, _) | Expr::Sum(_, _, _) => true,
        Expr::Least(_, _, _) | Expr::Greatest(_, _, _) => true,
        Expr::Unary(_, part) => has_collector(part),
        Expr::Binary(_, left, right) => has_collector(left) || has_collector(right),
        Expr::If(condition, then, other) => {
            has_collector(condition) || has_collector(then) || has_collector(other)
        }
        Expr::MakeVec2(x, y) => has_collector(x) || has_collector(y),
        Expr::MakeVec3(x, y, z) => has_collector(x) || has_collector(y) || has_collector(z),
        Expr::MakeRgb(red, green, blue) => {
            has_collector(red) || has_collector(green) || has_collector(blue)
        }
    }
}
