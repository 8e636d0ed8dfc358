//! The store and the sink that never fail, over which no command runs.
use crate::expect::{expect_bytes, expect_word};
use gm_host::{LoadFault, Sink, Store, SureSink, SureStore};
use std::alloc::Global;
use std::process::Abort;

/// What is loaded under a name with a limit: a word, and the bytes that it carries.
type Load<'a> = (&'a str, usize, &'a str, &'a [u8]);

static LOADS: [Load; 4] = [
    ("m", 3, "ok", b"abc"),
    ("m", 2, "too long", b"abc"),
    ("m", 0, "too long", b"a"),
    ("n", 5, "absent", b""),
];

fn expect_load<S: Store>(rt: &impl Abort, alloc: Global, store: &mut S, load: &Load<'_>) {
    let (name, limit, word, bytes) = load;
    match store.load(alloc, name, *limit) {
        Ok(loaded) => expect_answer(rt, "ok", loaded.as_slice(), *word, *bytes),
        Err(LoadFault::TooLong { seen }) => {
            expect_answer(rt, "too long", seen.as_slice(), *word, *bytes);
        }
        Err(_) => expect_answer(rt, "absent", b"", *word, *bytes),
    }
}

fn expect_answer(rt: &impl Abort, answer: &str, carried: &[u8], word: &str, bytes: &[u8]) {
    expect_word(rt, answer, word);
    expect_bytes(rt, carried, bytes);
}

fn save<S: Store>(rt: &impl Abort, store: &mut S, bytes: &[u8]) {
    store.save("m", bytes).expect(rt, "memory");
}

#[test]
fn sure_store(rt: HostRuntime) {
    let mut store = SureStore::new(rt.alloc());
    save(&rt, &mut store, b"defg");
    save(&rt, &mut store, b"abc");
    for load in &LOADS {
        expect_load(&rt, rt.alloc(), &mut store, load);
    }
}

fn put<O: Sink>(rt: &impl Abort, sink: &mut O, bytes: &[u8]) {
    sink.put(bytes).expect(rt, "memory");
}

#[test]
fn sure_sink(rt: HostRuntime) {
    let mut sink = SureSink::new(rt.alloc());
    put(&rt, &mut sink, b"abc");
    put(&rt, &mut sink, b"de");
    expect_bytes(&rt, sink.bytes(), b"abcde");
}
