//! The tests whose calls count steps, over one counter.
ghost use Rattle.std.specs.Prelude.{◌≡◌, ◌<◌};

use crate::{arena, matching, pending, versions, walks};
use gm_arena::Steps;
use std::alloc::Global;
use std::marker::Brand;
use std::process::Abort;
use std::sync::ledger::{Blank, Ledger};

fn check_each<L: Ledger>(rt: &impl Abort, alloc: Global, handle: &HostRuntime, blank: Blank)
    requires name { blank.name ≡ L.name }
    requires parts { blank.parts ≡ L.parts }
    requires some { 0 < blank.parts }
{
    let mut steps: Steps<L> = Steps::start(handle, blank);
    arena::check_slots(rt, alloc, &mut steps);
    walks::walk_square(rt, alloc, &mut steps);
    matching::match_each(rt, alloc, &mut steps);
    pending::create_each(rt, alloc, &mut steps);
    versions::print_back(rt, alloc, &mut steps);
}

#[test]
fn calls_that_count_steps(rt: HostRuntime) {
    check_each::<Brand>(&rt, rt.alloc(), &rt, Blank::new(1));
}
