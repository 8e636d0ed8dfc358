//! A map of the second version that is printed in the first, which no command does.

use crate::expect::expect_bytes;
use crate::texts::map;
use gm_arena::{Arena, Steps};
use gm_mapfile::{MapVersion, print_map};
use std::alloc::Global;
use std::process::Abort;
use std::sync::ledger::Ledger;

const SECOND: &str = "gmap 2
dim 1
next 41
darts 2
3 40 3
40 3 40
";

const FIRST: &[u8] = b"gmap 1
dim 1
darts 2
3 40 3
40 3 40
";

/// The map that is read in the second version is printed in the first.
pub(crate) fn print_back<L: Ledger>(rt: &impl Abort, alloc: Global, steps: &mut Steps<L>) {
    let arena = map(rt, alloc, SECOND, steps);
    expect_printed(rt, alloc, &arena, FIRST, steps);
}

/// The map is printed so in the first version.
fn expect_printed<L: Ledger>(
    rt: &impl Abort,
    alloc: Global,
    arena: &Arena,
    text: &[u8],
    steps: &mut Steps<L>,
) {
    let printed = print_map(alloc, arena, MapVersion::One, steps).expect(rt, "memory");
    expect_bytes(rt, printed.as_slice(), text);
}
