//! `gmr`, a proved rule modeller on generalised maps: the program over the real files and the
//! terminal.
#![tactic(auto)]

ghost use Rattle.std.specs.Prelude.{◌≡◌, ◌≢◌, ◌⊎◌, ◌<◌, IfOk, IfErr, IsOk, drop};
ghost use Rattle.std.specs.IoError.{error_kind};
ghost use Rattle.std.specs.Process.{exit_status};
ghost use Rattle.std.specs.Vec.Iter.{into_iter_items};
ghost use Rattle.gm_host.specs.Count.{counted, Rises};
ghost use Rattle.gm_tool.specs.Loads.{OneAtMost};
ghost use Rattle.gm_tool.specs.Tool.{words_of, EndsAs};
ghost use Rattle.gmr.specs.inner.Seen.{seen_of};

use gm_arena::Steps;
use gm_host::{FileStore, StdSink};
pub use gm_tool::tool;
use std::alloc::Global;
use std::env::{self, Args};
use std::io::{self, ErrorKind};
use std::marker::Brand;
use std::process::ExitCode;
use std::sync::ledger::{Blank, Ledger};

/// The end of a program that can't have the words of its command line: status 7 where memory ran
/// out, else 9, which the program gives for nothing else.
fn without_words(error: &io::Error) -> ExitCode
    ensures statuses { (exit_status result ≡ 7) ⊎ (exit_status result ≡ 9) }
    ensures no_memory { error_kind error.now ≡ ErrorKind.OutOfMemory → exit_status result ≡ 7 }
    ensures no_words { error_kind error.now ≢ ErrorKind.OutOfMemory → exit_status result ≡ 9 }
{
    match error.kind() {
        ErrorKind::OutOfMemory => ExitCode::from(7),
        _ => ExitCode::from(9),
    }
}

/// The words after the first one, which is the program's name.
fn behind_name(mut args: Args, alloc: Global) -> io::Result<Vec<String>>
    ensures { IfOk result (λ words. words.items ≡ drop 1 (into_iter_items args)) }
{
    let mut words = Vec::new(alloc);
    args.next();
    while let Some(word) = args.next() {
        words.push(word)?;
    }
    Ok(words)
}

/// The words after the program's name, or why they can't be had.
fn words_behind(args: io::Result<Args>, alloc: Global) -> io::Result<Vec<String>>
    ensures behind { IfOk args (λ all. IfOk result (λ words. words.items ≡ drop 1 (into_iter_items all))) }
    ensures refused { IfErr args (λ error. IfErr result (λ answer. answer ≡ error)) }
    ensures never { IfOk result (λ _. IsOk args) }
{
    behind_name(args?, alloc)
}

/// Runs the command that the words ask for over this store and this sink, with a counter of steps that
/// the blank ledger makes, and ends with its status. It is run once: a run saves once, and prints once.
fn run_over_files<L: Ledger>(
    rt: &HostRuntime,
    words: &[String],
    store: &mut FileStore<'_, HostRuntime>,
    out: &mut StdSink<'_, HostRuntime>,
    blank: Blank,
) -> ExitCode
    requires name { blank.name ≡ L.name }
    requires parts { blank.parts ≡ L.parts }
    requires some { 0 < blank.parts }
    ensures ends { EndsAs (words_of words.now) (seen_of store.old) (seen_of store.new) (exit_status result) }
    ensures one_put { OneAtMost out.old.puts out.new.puts }
    ensures put { exit_status result ≢ 7 → out.new.puts ≡ counted out.old.puts }
    ensures put_failed { exit_status result ≡ 6 → Rises out.old.faults out.new.faults }
    ensures no_put_failed { exit_status result ≢ 6 → out.new.faults ≡ out.old.faults }
    ensures none_put { exit_status result ≡ 7 → out.new.puts ≡ out.old.puts }
{
    let mut steps: Steps<L> = Steps::start(rt, blank);
    ExitCode::from(tool(rt.alloc(), words, store, out, &mut steps))
}

fn main(rt: HostRuntime) -> ExitCode {
    let mut store = FileStore::new(&rt);
    let mut out = StdSink::new(&rt);
    match words_behind(env::args(&rt), rt.alloc()) {
        Ok(words) => run_over_files::<Brand>(
            &rt,
            words.as_slice(),
            &mut store,
            &mut out,
            Blank::new(1),
        ),
        Err(error) => without_words(&error),
    }
}
