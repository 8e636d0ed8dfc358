//! Rules with a match, in a square and in a map of dimension 3.
ghost use Rattle.std.specs.Prelude.{◌≡◌};
ghost use Rattle.gm_model.specs.Maps.{IsGeneralised, IsSound};
ghost use Rattle.gm_model.specs.Rules.{rule_of, width};
ghost use Rattle.gm_arena.specs.inner.ArenaAsMap.{as_map};
ghost use Rattle.gm_walk.specs.inner.Walks.{AreLive};

use crate::expect::expect_same;
use crate::texts::{SQUARE, are_same, map, plan};
use gm_arena::{Arena, Steps};
use gm_book::read_book;
use gm_match::find;
use gm_plan::{Instances, Plan};
use gm_walk::Scratch;
use std::alloc::Global;
use std::process::Abort;
use std::sync::ledger::Ledger;

/// Two sheets in space, each of two edges.
const SHEETS: &str = "gmap 1 dim 3 darts 8 0 1 0 2 4 1 0 1 3 5 2 3 2 0 6 3 2 3 1 7 \
    4 5 4 6 0 5 4 5 7 1 6 7 6 4 2 7 6 7 5 3";

/// A map, a book of one rule, hooks, and the names of the match and the turns of its positions.
type Fit<'a> = (&'a str, &'a str, &'a [u32], &'a [u32]);

static FITS: [Fit; 7] = [
    (
        SQUARE,
        "book 1 dim 2 rule face left a <0 1> hook right a <0 1>",
        &[0],
        &[
            0, 1, 2, 1, 0, 3, 7, 4, 0, 2, 5, 1, 6, 2, 6, 3, 3, 7, 5, 7, 4, 4, 6, 5,
        ],
    ),
    (
        SQUARE,
        "book 1 dim 2 rule chain left a <> hook b <> c <> d <> b -0- a b -1- c c -0- d \
         right a <> b <> c <> d <> b -0- a b -1- c c -0- d",
        &[1],
        &[1, 0, 7, 6],
    ),
    (
        SHEETS,
        "book 1 dim 3 rule across left a <0 2> hook b <0 2> a -3- b \
         right a <0 2> b <0 2> a -3- b",
        &[0],
        &[0, 4, 1, 2, 1, 5, 0, 3, 2, 6, 3, 0, 3, 7, 2, 1],
    ),
    // Two edges that lie open, each by its own label.
    (
        SQUARE,
        "book 2 dim 2 rule sew left a <0> hook b <0> hook a -2- a b -2- b \
         right a <0> b <0> a -2- b",
        &[2, 7],
        &[2, 7, 1, 3, 6, 0],
    ),
    // An edge and a corner.
    (
        SQUARE,
        "book 2 dim 2 rule corner left a <0> hook b <1> hook right a <0> b <1>",
        &[2, 6],
        &[2, 6, 1, 3, 5, 0],
    ),
    // Three edges, the third with a node beyond it.
    (
        SHEETS,
        "book 2 dim 3 rule three left a <0> hook b <0> hook c <0> hook d <0> c -2- d \
         right a <0> b <0> c <0> d <0> c -2- d",
        &[0, 3, 5],
        &[0, 3, 5, 7, 1, 1, 2, 4, 6, 0],
    ),
    // A rule that adds an edge of its own matches in any map, and takes no dart.
    (
        SQUARE,
        "book 1 dim 2 rule create left \
         right a <> b <> a -0- b a -1- a b -1- b a -2- a b -2- b",
        &[],
        &[],
    ),
];

/// For each position the names of its darts, and the positions to which it turns.
fn listed<L: Ledger>(
    rt: &impl Abort,
    alloc: Global,
    arena: &Arena,
    found: &Instances,
    nodes: u8,
    places: u8,
    steps: &mut Steps<L>,
) -> Vec<u32>
    requires live { AreLive arena.now found.now.slots }
    requires nodes { nodes ≡ found.now.nodes }
    requires places { places ≡ found.now.places }
{
    let mut list = Vec::new(alloc);
    for position in 0..found.positions() {
        for node in 0..nodes {
            let name = arena.name_of(found.slot(node, position), steps);
            list.push(name).expect(rt, "memory");
        }
        for place in 0..places {
            list.push(found.turn(position, place)).expect(rt, "memory");
        }
    }
    list
}

/// How many places the words of the rule have.
fn places(plan: &Plan<'_>) -> u8
    ensures { result ≡ width (rule_of plan.now.table) }
{
    match plan.rule().hook_word() {
        Some(word) => word.len(),
        None => 0,
    }
}

/// The match of the planned rule, listed.
fn matched<L: Ledger>(
    rt: &impl Abort,
    alloc: Global,
    arena: &Arena,
    plan: &Plan<'_>,
    hooks: &[u32],
    steps: &mut Steps<L>,
) -> Vec<u32>
    requires schema { arena.now.schema ≡ plan.now.schema }
    requires generalised { IsGeneralised (as_map arena.now) }
{
    assert!(rt; hooks.len() == plan.hooks() as usize);
    let mut scratch = Scratch::new(alloc);
    scratch.fit(arena).expect(rt, "memory");
    let Ok(found) = find(alloc, plan, arena, hooks, &mut scratch, steps) else {
        panic!(rt; "no match");
    };
    let nodes = plan.left_nodes();
    listed(rt, alloc, arena, &found, nodes, places(plan), steps)
}

/// The rule has its match in the map.
fn expect_match<L: Ledger>(
    rt: &impl Abort,
    alloc: Global,
    arena: &Arena,
    fit: &Fit<'_>,
    steps: &mut Steps<L>,
)
    requires { IsSound (as_map arena.now) }
{
    let (_, text, hooks, names) = fit;
    let book = read_book(alloc, text.as_bytes()).expect(rt, "a book");
    let plan = plan(rt, alloc, &book);
    assert!(rt; are_same(arena.schema(), plan.schema()));
    let found = matched(rt, alloc, arena, &plan, *hooks, steps);
    expect_same(rt, &found.as_slice(), names);
}

/// Each rule has its match.
pub(crate) fn match_each<L: Ledger>(rt: &impl Abort, alloc: Global, steps: &mut Steps<L>) {
    for fit in &FITS {
        let map = map(rt, alloc, fit.0, steps);
        expect_match(rt, alloc, &map, fit, steps);
    }
}
