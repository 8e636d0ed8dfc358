//! What a command does over a store and a sink in memory, and the assertions on it. Whoever owns the store
//! and the sink calls one that borrows them.
ghost use Rattle.std.specs.Prelude.{◌≡◌, ◌<◌};

use crate::expect::expect_same_at;
use gm_arena::Steps;
use gm_host::{MemSink, MemStore};
use gm_tool::tool;
use std::alloc::Global;
use std::marker::Brand;
use std::process::Abort;
use std::sync::ledger::{Blank, Ledger};

/// The words of a line, between single blanks.
fn words_of(rt: &impl Abort, alloc: Global, line: &str) -> Vec<String> {
    let mut owned = Vec::new(alloc);
    for word in line.split_whitespace() {
        let word = String::from_str(alloc, word).expect(rt, "memory");
        owned.push(word).expect(rt, "memory");
    }
    owned
}

/// The status with which the program ends on the words, run over a step counter of their own.
fn run<L: Ledger>(
    host: &HostRuntime,
    words: &[String],
    store: &mut MemStore,
    out: &mut MemSink,
    blank: Blank,
) -> u8
    requires name { blank.name ≡ L.name }
    requires parts { blank.parts ≡ L.parts }
    requires some { 0 < blank.parts }
{
    let mut steps: Steps<L> = Steps::start(host, blank);
    tool(host.alloc(), words, store, out, &mut steps)
}

/// How a line ends: its status, and the text that it prints.
pub(crate) type End<'a> = (u8, &'a str);

/// The line ends so over the store and the sink. A message shows the line.
pub(crate) fn expect_end(
    rt: &impl Abort,
    host: &HostRuntime,
    line: &str,
    store: &mut MemStore,
    out: &mut MemSink,
    end: &End,
) {
    let words = words_of(rt, host.alloc(), line);
    let (status, put) = *end;
    let ended = run::<Brand>(host, words.as_slice(), store, out, Blank::new(1));
    expect_same_at(rt, &ended, &status, &line);
    expect_same_at(rt, &out.bytes(), &put.as_bytes(), &line);
}

/// The store holds this text under the name, or none. A message shows the line.
pub(crate) fn expect_held(
    rt: &impl Abort,
    store: &MemStore,
    name: &str,
    text: Option<&str>,
    line: &str,
) {
    let held = text.map(|text| text.as_bytes());
    expect_same_at(rt, &store.bytes(name), &held, &line);
}
