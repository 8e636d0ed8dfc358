//! What creation rules give in the empty map, before anything is written.
ghost use Rattle.std.specs.Prelude.{◌≡◌, []};
ghost use Rattle.gm_model.specs.Maps.{IsSound};
ghost use Rattle.gm_model.specs.Rules.{rule_of};
ghost use Rattle.gm_arena.specs.inner.ArenaAsMap.{as_map};
ghost use Rattle.gm_plan.specs.inner.InArena.{AreMatched};
ghost use Rattle.gm_plan.specs.inner.Plans.{IsLeftCount};

use crate::expect::expect_same;
use crate::texts::{are_same, map, plan};
use gm_arena::{Arena, Steps};
use gm_book::read_book;
use gm_model::MOST_DARTS;
use gm_pending::{At, Pending};
use gm_plan::{Instances, Plan};
use std::alloc::Global;
use std::process::Abort;
use std::sync::ledger::Ledger;

/// An empty map, a book of one creation rule, and the neighbours that the rule gives the new darts, by
/// node and label.
type Row<'a> = (&'a str, &'a str, &'a [[u8; 3]]);

static ROWS: [Row; 2] = [
    (
        "gmap 1 dim 1 darts 0",
        "book 1 dim 1 rule edge left right a <> b <> a -0- b a -1- a b -1- b",
        &[[1, 0, 0], [0, 1, 0]],
    ),
    // A pillow of two faces.
    (
        "gmap 1 dim 2 darts 0",
        "book 1 dim 2 rule pillow left right a <> b <> c <> d <> \
         a -0- b c -0- d a -1- b c -1- d a -2- c b -2- d",
        &[[1, 1, 2], [0, 0, 3], [3, 3, 0], [2, 2, 1]],
    ),
];

/// The node of the neighbour of a node along a label.
fn alpha(rt: &impl Abort, alphas: &[[u8; 3]], node: u8, label: u8) -> u8 {
    let alphas = alphas.get(node as usize).expect(rt, "a node");
    *alphas.get(label as usize).expect(rt, "a label")
}

/// The new darts of the rule have their neighbours in the result.
fn expect_alphas<L: Ledger>(
    rt: &impl Abort,
    alloc: Global,
    plan: &Plan<'_>,
    arena: &Arena,
    found: &Instances,
    alphas: &[[u8; 3]],
    steps: &mut Steps<L>,
)
    requires schema { arena.now.schema ≡ plan.now.schema }
    requires sound { IsSound (as_map arena.now) }
    requires none_left { IsLeftCount (rule_of plan.now.table) 0 }
    requires matched { AreMatched arena.now (rule_of plan.now.table) [] found.now }
    requires one { found.now.positions ≡ 1 }
{
    // The arena tells here what it holds.
    prove!(arena.count() <= MOST_DARTS);
    let pending = Pending::build(alloc, plan, arena, found, steps).expect(rt, "memory");
    let top = plan.schema().dim.top();
    for node in 0..plan.rule().node_count() {
        for label in 0..top + 1 {
            let at = At::New { node, position: 0 };
            let to = At::New {
                node: alpha(rt, alphas, node, label),
                position: 0,
            };
            expect_same(rt, &pending.alpha(at, label, steps), &to);
        }
    }
}

/// The rule gives the map its new darts.
fn expect_result<L: Ledger>(
    rt: &impl Abort,
    alloc: Global,
    plan: &Plan<'_>,
    arena: &Arena,
    alphas: &[[u8; 3]],
    steps: &mut Steps<L>,
)
    requires { IsSound (as_map arena.now) }
{
    assert!(rt; are_same(arena.schema(), plan.schema()));
    assert!(rt; plan.left_nodes() == 0);
    assert!(rt; plan.hooks() == 0);
    let found = Instances::new(Vec::new(alloc), Vec::new(alloc), 1, 0);
    expect_alphas(rt, alloc, plan, arena, &found, alphas, steps);
}

fn create<L: Ledger>(
    rt: &impl Abort,
    alloc: Global,
    arena: &Arena,
    row: &Row<'_>,
    steps: &mut Steps<L>,
)
    requires { IsSound (as_map arena.now) }
{
    let (_, text, alphas) = row;
    let book = read_book(alloc, text.as_bytes()).expect(rt, "a book");
    let plan = plan(rt, alloc, &book);
    expect_result(rt, alloc, &plan, arena, *alphas, steps);
}

/// Each rule gives its darts.
pub(crate) fn create_each<L: Ledger>(rt: &impl Abort, alloc: Global, steps: &mut Steps<L>) {
    for row in &ROWS {
        let map = map(rt, alloc, row.0, steps);
        create(rt, alloc, &map, row, steps);
    }
}
