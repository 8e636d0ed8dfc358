//! The book of a grid: the rule that triangulates a face.
ghost use Rattle.std.specs.Prelude.{◌≡◌, ◌≤◌, [], ◌∷◌, length, map, IfOk};
ghost use Rattle.gm_model.specs.Rules.{assignment_of, node_of, rule_of};
ghost use Rattle.gm_model.specs.Trees.{tree_of};
ghost use Rattle.gm_grid.specs.GridBook.{IsGridBook, triangulation, side_node, spoke_node, middle_node, middle, hook_dart};
ghost use Rattle.gm_model.specs.declared.limit.TheConstants.{MOST_LETTERS};

use crate::schema::{make_schema, name};
use gm_model::{
    BinOp, Book, DartTerm, Expr, Items, Letter, Link, Mask, Node, OutOfMemory, Path, RuleTable,
    Set, Word,
};
use std::alloc::Global;

/// The labels 0 and 1, along which the darts of a face lie.
const FACE: Mask = Mask { bits: 3 };

/// The book of the one rule.
pub(crate) fn make_book(alloc: Global) -> Result<Book, OutOfMemory>
    ensures { IfOk result IsGridBook }
{
    let mut rules = Vec::new(alloc);
    rules.push(rule(alloc)?)?;
    Ok(Book {
        version: 1,
        schema: make_schema(alloc)?,
        rules: Items::new(rules),
    })
}

fn rule(alloc: Global) -> Result<RuleTable, OutOfMemory>
    ensures { IfOk result (λ table. rule_of table ≡ triangulation) }
{
    let nodes = nodes(alloc)?;
    let right_links = links(alloc)?;
    let mut hooks = Vec::new(alloc);
    hooks.push(0)?;
    Ok(RuleTable {
        name: name(b"T"),
        params: Items::new(Vec::new(alloc)),
        nodes,
        left_links: Items::new(Vec::new(alloc)),
        right_links,
        hooks: Items::new(hooks),
        pre: None,
    })
}

fn links(alloc: Global) -> Result<Items<Link>, OutOfMemory>
    ensures { IfOk result (λ links. links ≡ triangulation.right_links) }
{
    let mut links = Vec::new(alloc);
    links.push(Link {
        from: 0,
        label: 1,
        to: 1,
    })?;
    links.push(Link {
        from: 1,
        label: 0,
        to: 2,
    })?;
    Ok(Items::new(links))
}

fn nodes(alloc: Global) -> Result<Items<Node>, OutOfMemory>
    ensures { IfOk result (λ nodes. map node_of nodes ≡ triangulation.nodes) }
{
    let mut nodes = Vec::new(alloc);
    nodes.push(side(alloc))?;
    nodes.push(spoke(alloc))?;
    nodes.push(middle_of_face(alloc)?)?;
    Ok(Items::new(nodes))
}

fn side(alloc: Global) -> Node
    ensures { node_of result ≡ side_node }
{
    Node {
        name: name(b"a"),
        left: Some(word(&[Letter::At(0), Letter::At(1)])),
        right: Some(word(&[Letter::At(0), Letter::Gone])),
        sets: Items::new(Vec::new(alloc)),
    }
}

fn spoke(alloc: Global) -> Node
    ensures { node_of result ≡ spoke_node }
{
    Node {
        name: name(b"b"),
        left: None,
        right: Some(word(&[Letter::Gone, Letter::At(2)])),
        sets: Items::new(Vec::new(alloc)),
    }
}

fn middle_of_face(alloc: Global) -> Result<Node, OutOfMemory>
    ensures { IfOk result (λ node. node_of node ≡ middle_node) }
{
    let mut sets = Vec::new(alloc);
    sets.push(set(alloc)?)?;
    Ok(Node {
        name: name(b"c"),
        left: None,
        right: Some(word(&[Letter::At(1), Letter::At(2)])),
        sets: Items::new(sets),
    })
}

fn set(alloc: Global) -> Result<Set, OutOfMemory>
    ensures { IfOk result (λ set. middle_node.sets ≡ assignment_of set ∷ []) }
{
    Ok(Set {
        embed: 0,
        expr: mean(alloc)?,
    })
}

/// The sum of the points of the face's darts, divided by their number.
fn mean(alloc: Global) -> Result<Expr, OutOfMemory>
    ensures { IfOk result (λ expr. tree_of expr ≡ middle) }
{
    let sum = Expr::Sum(FACE, hook(alloc), 0);
    let count = Expr::Count(FACE, hook(alloc));
    Ok(Expr::Binary(BinOp::Div, Box::new(alloc, sum)?, Box::new(alloc, count)?))
}

fn hook(alloc: Global) -> DartTerm
    ensures { result ≡ hook_dart }
{
    DartTerm {
        node: 0,
        path: Path::new(Vec::new(alloc)),
    }
}

fn word(letters: &[Letter]) -> Word
    requires { length letters.now ≤ MOST_LETTERS }
    ensures { result ≡ letters.now }
{
    Word::new(letters).unwrap()
}
