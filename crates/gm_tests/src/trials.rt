//! Lines that are run over files in memory, where a load, a save or a put fails or nothing does: commands on
//! one file, runs, migrations, and grids, for which nothing is loaded and nothing saved.

use crate::commands::{expect_end, expect_held};
use gm_host::{MemSink, MemStore};
use std::process::Abort;

const SQUARE: &str =
    "gmap 1\ndim 2\ndarts 8\n0 1 7 0\n1 0 2 1\n2 3 1 2\n3 2 4 3\n4 5 3 4\n5 4 6 5\n6 7 5 6\n7 6 0 7\n";

/// The square with a point at each corner.
const POINTS: &str =
    "gmap 1\ndim 2\nembed pos <1 2> vec3\ndarts 8\n0 1 7 0 (0 0 0)\n1 0 2 1 (4 0 0)\n2 3 1 2 (4 0 0)\n3 2 4 3 (4 4 0)\n4 5 3 4 (4 4 0)\n5 4 6 5 (0 4 0)\n6 7 5 6 (0 4 0)\n7 6 0 7 (0 0 0)\n";

/// The square with points in the second version.
const MIGRATED: &str =
    "gmap 2\ndim 2\nembed pos <1 2> vec3\nnext 8\ndarts 8\n0 1 7 0 (0 0 0)\n1 0 2 1 (4 0 0)\n2 3 1 2 (4 0 0)\n3 2 4 3 (4 4 0)\n4 5 3 4 (4 4 0)\n5 4 6 5 (0 4 0)\n6 7 5 6 (0 4 0)\n7 6 0 7 (0 0 0)\n";

/// The square with points, triangulated.
const TRIANGULATED_POINTS: &str =
    "gmap 1\ndim 2\nembed pos <1 2> vec3\ndarts 24\n0 1 8 0 (0 0 0)\n1 0 9 1 (4 0 0)\n2 3 11 2 (4 0 0)\n3 2 13 3 (4 4 0)\n4 5 15 4 (4 4 0)\n5 4 14 5 (0 4 0)\n6 7 12 6 (0 4 0)\n7 6 10 7 (0 0 0)\n8 16 0 10 (0 0 0)\n9 17 1 11 (4 0 0)\n10 18 7 8 (0 0 0)\n11 19 2 9 (4 0 0)\n12 20 6 14 (0 4 0)\n13 21 3 15 (4 4 0)\n14 22 5 12 (0 4 0)\n15 23 4 13 (4 4 0)\n16 8 17 18 (2 2 0)\n17 9 16 19 (2 2 0)\n18 10 20 16 (2 2 0)\n19 11 21 17 (2 2 0)\n20 12 18 22 (2 2 0)\n21 13 19 23 (2 2 0)\n22 14 23 20 (2 2 0)\n23 15 22 21 (2 2 0)\n";

const DROP: &str = "book 1\ndim 2\nrule drop\nleft\na <0 1> hook\na -2- a\nright\n";

/// A rule that gives the new vertex the middle of the corners.
const POINTS_T: &str =
    "book 1\ndim 2\nembed pos <1 2> vec3\nrule T\nleft\na <0 1> hook\nright\na <0 _>\nb <_ 2>\nc <1 2> with pos = sum<0 1>(a.pos) / count<0 1>(a)\na -1- b\nb -0- c\n";

/// The files that each line finds, by name.
static FILES: [(&str, &str); 5] = [
    ("SQUARE", SQUARE),
    ("DROP", DROP),
    ("MAP", POINTS),
    ("BOOK", POINTS_T),
    ("SCRIPT", "apply T 0"),
];

/// What fails: a load by its number, or the first save or put, which keeps some bytes or none.
enum Failure {
    Nothing,
    Load(u32),
    Save(Option<usize>),
    Put(usize),
    LoadAndPut(u32, usize),
}

/// A line, what fails, the status and the text that it ends with, and a file and what it then holds.
type Trial<'a> = (&'a str, Failure, u8, &'a str, &'a str, Option<&'a str>);

/// Commands on one file.
static COMMANDS: [Trial; 24] = [
    // Files that are not there.
    (
        "show A",
        Failure::Nothing,
        3,
        "refused load MAP\n",
        "OUT",
        None,
    ),
    (
        "book A",
        Failure::Nothing,
        3,
        "refused load BOOK\n",
        "OUT",
        None,
    ),
    (
        "check A",
        Failure::Nothing,
        3,
        "refused load BOOK\n",
        "OUT",
        None,
    ),
    (
        "cells A",
        Failure::Nothing,
        3,
        "refused load MAP\n",
        "OUT",
        None,
    ),
    // Loads that fail.
    (
        "show SQUARE",
        Failure::Load(0),
        3,
        "refused load MAP\n",
        "OUT",
        None,
    ),
    (
        "book DROP",
        Failure::Load(0),
        3,
        "refused load BOOK\n",
        "OUT",
        None,
    ),
    (
        "check DROP",
        Failure::Load(0),
        3,
        "refused load BOOK\n",
        "OUT",
        None,
    ),
    (
        "cells SQUARE",
        Failure::Load(0),
        3,
        "refused load MAP\n",
        "OUT",
        None,
    ),
    // Loads that fail, and puts after them.
    (
        "show SQUARE",
        Failure::LoadAndPut(0, 9),
        6,
        "refused l",
        "OUT",
        None,
    ),
    (
        "book DROP",
        Failure::LoadAndPut(0, 9),
        6,
        "refused l",
        "OUT",
        None,
    ),
    (
        "check DROP",
        Failure::LoadAndPut(0, 9),
        6,
        "refused l",
        "OUT",
        None,
    ),
    (
        "cells SQUARE",
        Failure::LoadAndPut(0, 9),
        6,
        "refused l",
        "OUT",
        None,
    ),
    // Puts that fail, and keep nothing or some of the bytes.
    ("show SQUARE", Failure::Put(0), 6, "", "OUT", None),
    ("book DROP", Failure::Put(0), 6, "", "OUT", None),
    ("check DROP", Failure::Put(0), 6, "", "OUT", None),
    ("cells SQUARE", Failure::Put(0), 6, "", "OUT", None),
    ("show SQUARE", Failure::Put(2), 6, "gm", "OUT", None),
    ("book DROP", Failure::Put(2), 6, "bo", "OUT", None),
    ("check DROP", Failure::Put(2), 6, "ru", "OUT", None),
    ("cells SQUARE", Failure::Put(2), 6, "da", "OUT", None),
    ("show SQUARE", Failure::Put(5), 6, "gmap ", "OUT", None),
    ("book DROP", Failure::Put(5), 6, "book ", "OUT", None),
    ("check DROP", Failure::Put(5), 6, "rule ", "OUT", None),
    ("cells SQUARE", Failure::Put(5), 6, "darts", "OUT", None),
];

const RUN: &str = "run MAP BOOK SCRIPT OUT";

/// Loads that fail, files that are not there, saves that fail and keep nothing, some of the bytes or all,
/// and puts that fail after a load that fails and after a save.
static RUNS: [Trial; 13] = [
    (RUN, Failure::Load(0), 3, "refused load MAP\n", "OUT", None),
    (RUN, Failure::Load(1), 3, "refused load BOOK\n", "OUT", None),
    (
        RUN,
        Failure::Load(2),
        3,
        "refused load SCRIPT\n",
        "OUT",
        None,
    ),
    (
        "run A BOOK SCRIPT OUT",
        Failure::Nothing,
        3,
        "refused load MAP\n",
        "OUT",
        None,
    ),
    (
        "run MAP A SCRIPT OUT",
        Failure::Nothing,
        3,
        "refused load BOOK\n",
        "OUT",
        None,
    ),
    (
        "run MAP BOOK A OUT",
        Failure::Nothing,
        3,
        "refused load SCRIPT\n",
        "OUT",
        None,
    ),
    (
        RUN,
        Failure::Save(None),
        5,
        "refused save OUT\n",
        "OUT",
        None,
    ),
    (
        RUN,
        Failure::Save(Some(0)),
        5,
        "refused save OUT\n",
        "OUT",
        Some(""),
    ),
    (
        RUN,
        Failure::Save(Some(4)),
        5,
        "refused save OUT\n",
        "OUT",
        Some("gmap"),
    ),
    (
        RUN,
        Failure::Save(Some(TRIANGULATED_POINTS.len())),
        5,
        "refused save OUT\n",
        "OUT",
        Some(TRIANGULATED_POINTS),
    ),
    (RUN, Failure::LoadAndPut(0, 0), 6, "", "OUT", None),
    (
        RUN,
        Failure::Put(0),
        6,
        "",
        "OUT",
        Some(TRIANGULATED_POINTS),
    ),
    (
        RUN,
        Failure::Put(5),
        6,
        "1 T d",
        "OUT",
        Some(TRIANGULATED_POINTS),
    ),
];

const MIGRATION: &str = "migrate MAP OUT";

const MIGRATION_DONE: &str = "migrated darts 8 next 8\n";

/// A load that fails, a file that is not there, and saves and puts that fail.
static MIGRATIONS: [Trial; 8] = [
    (
        MIGRATION,
        Failure::Load(0),
        3,
        "refused load MAP\n",
        "OUT",
        None,
    ),
    // No second file is loaded.
    (
        MIGRATION,
        Failure::Load(1),
        0,
        MIGRATION_DONE,
        "OUT",
        Some(MIGRATED),
    ),
    (
        "migrate A OUT",
        Failure::Nothing,
        3,
        "refused load MAP\n",
        "OUT",
        None,
    ),
    (
        "migrate MAP MAP",
        Failure::Save(None),
        5,
        "refused save OUT\n",
        "MAP",
        Some(POINTS),
    ),
    (
        MIGRATION,
        Failure::Save(None),
        5,
        "refused save OUT\n",
        "OUT",
        None,
    ),
    (
        MIGRATION,
        Failure::Save(Some(4)),
        5,
        "refused save OUT\n",
        "OUT",
        Some("gmap"),
    ),
    (
        MIGRATION,
        Failure::Save(Some(6)),
        5,
        "refused save OUT\n",
        "OUT",
        Some("gmap 2"),
    ),
    (MIGRATION, Failure::Put(3), 6, "mig", "OUT", Some(MIGRATED)),
];

/// A load or a save that would fail shows nothing, since there is none.
static GRIDS: [Trial; 3] = [
    ("grid 2", Failure::LoadAndPut(0, 4), 6, "grid", "OUT", None),
    (
        "grid 2",
        Failure::Load(0),
        0,
        "grid 2 applied 4 darts 96 next 96 cells 13 28 16\n",
        "OUT",
        None,
    ),
    (
        "grid 100",
        Failure::Save(None),
        0,
        "grid 100 applied 10000 darts 240000 next 240000 cells 20201 60200 40000\n",
        "OUT",
        None,
    ),
];

fn hold_files(rt: &impl Abort, store: &mut MemStore) {
    for (name, text) in &FILES {
        store.hold(*name, text.as_bytes()).expect(rt, "memory");
    }
}

fn fail_load(rt: &impl Abort, store: &mut MemStore, call: u32) {
    store.fail_load(call).expect(rt, "memory");
}

fn fail_put(rt: &impl Abort, out: &mut MemSink, kept: usize) {
    out.fail_put(0, kept).expect(rt, "memory");
}

/// The failure is set for a store and a sink.
fn set_failure(rt: &impl Abort, store: &mut MemStore, out: &mut MemSink, failure: &Failure) {
    match failure {
        Failure::Nothing => {}
        Failure::Load(call) => fail_load(rt, store, *call),
        Failure::Save(kept) => store.fail_save(0, *kept).expect(rt, "memory"),
        Failure::Put(kept) => fail_put(rt, out, *kept),
        Failure::LoadAndPut(call, kept) => {
            fail_load(rt, store, *call);
            fail_put(rt, out, *kept);
        }
    }
}

fn expect_trial(rt: &impl Abort, host: &HostRuntime, trial: &Trial) {
    let mut store = MemStore::new(host.alloc());
    let mut out = MemSink::new(host.alloc());
    expect_trial_over(rt, host, &mut store, &mut out, trial);
}

/// The line is run over the empty store and sink, for which the failure is set.
fn expect_trial_over(
    rt: &impl Abort,
    host: &HostRuntime,
    store: &mut MemStore,
    out: &mut MemSink,
    trial: &Trial,
) {
    let (line, failure, status, put, file, holds) = trial;
    hold_files(rt, store);
    set_failure(rt, store, out, failure);
    expect_end(rt, host, *line, store, out, &(*status, *put));
    expect_held(rt, store, *file, *holds, *line);
}

fn try_each(rt: &impl Abort, host: &HostRuntime, trials: &[Trial]) {
    for trial in trials {
        expect_trial(rt, host, trial);
    }
}

#[test]
fn lines_where_something_fails(rt: HostRuntime) {
    try_each(&rt, &rt, &COMMANDS);
    try_each(&rt, &rt, &RUNS);
    try_each(&rt, &rt, &MIGRATIONS);
    try_each(&rt, &rt, &GRIDS);
}
