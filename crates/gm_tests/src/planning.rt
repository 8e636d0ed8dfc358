//! Plans of rules: how the nodes of the left side are reached from the hooks.
use crate::expect::{expect_number, expect_same};
use crate::texts::plan;
use gm_book::read_book;
use gm_model::Link;
use gm_plan::Plan;
use std::alloc::Global;
use std::process::Abort;

/// A book of one rule; what ends the least path to each node of its left side; and the ends of the
/// paths, in their order.
type Row<'a> = (&'a str, &'a [Option<(u8, u8)>], &'a [u8]);

static ROWS: [Row; 5] = [
    (
        "book 1 dim 1 rule r left a <> b <> c <> d <> hook \
         d -1- d d -0- b c -1- b a -0- c a -1- a right",
        &[Some((2, 0)), Some((3, 0)), Some((1, 1)), None],
        &[1, 2, 0],
    ),
    // Two paths of one length: the one with the lesser label wins.
    (
        "book 1 dim 1 rule r left a <> hook b <> c <> d <> \
         a -1- b a -0- c b -0- d c -1- d right",
        &[None, Some((0, 1)), Some((0, 0)), Some((2, 1))],
        &[2, 1, 3],
    ),
    // Paths of one link and of two: the shorter wins, though its label is greater.
    (
        "book 1 dim 2 rule r left a <> hook b <> c <> \
         a -0- b a -2- c b -1- c c -0- c a -1- a b -2- b right",
        &[None, Some((0, 0)), Some((0, 2))],
        &[1, 2],
    ),
    // Paths of one length from two hooks: that with the lesser label wins, though its hook is later.
    (
        "book 2 dim 1 rule r left a <> hook b <> hook c <> \
         a -1- c b -0- c a -0- a b -1- b right",
        &[None, None, Some((1, 0))],
        &[2],
    ),
    // Two nodes at the end of one label, each from its own hook. What lies beyond both is nearest by
    // the lesser second label, though it leads from the later node.
    (
        "book 2 dim 2 rule r left a <> hook b <> hook c <> d <> e <> \
         a -0- c b -0- d c -2- e d -1- e a -1- a a -2- a b -1- b b -2- b c -1- c d -2- d e -0- e \
         right",
        &[None, None, Some((0, 0)), Some((1, 0)), Some((3, 1))],
        &[2, 3, 4],
    ),
];

fn judge(rt: &impl Abort, alloc: Global, row: &Row<'_>) {
    let (text, from, order) = row;
    let book = read_book(alloc, text.as_bytes()).expect(rt, "a book");
    let plan = plan(rt, alloc, &book);
    expect_from(rt, &plan, *from);
    expect_order(rt, plan.paths(), *order);
}

/// The least paths to the left nodes have these ends.
fn expect_from(rt: &impl Abort, plan: &Plan<'_>, from: &[Option<(u8, u8)>]) {
    expect_number(rt, from.len(), plan.left_nodes() as usize);
    for node in 0..plan.left_nodes() {
        let wanted = from.get(node as usize).expect(rt, "a left node");
        expect_same(rt, &plan.from(node), wanted);
    }
}

/// The paths lead to these nodes.
fn expect_order(rt: &impl Abort, paths: &[Link], order: &[u8]) {
    expect_number(rt, paths.len(), order.len());
    for (link, to) in paths.iter().zip(order) {
        expect_same(rt, &link.to, to);
    }
}

#[test]
fn plans(rt: HostRuntime) {
    for row in &ROWS {
        judge(&rt, rt.alloc(), row);
    }
}
