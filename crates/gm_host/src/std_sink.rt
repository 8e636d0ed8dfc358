//! The sink over the standard output of the process.

ghost use Rattle.std.specs.Prelude.{◌≡◌, ◌≤◌, true, IsTrue, OnOk, is_err, if◌then◌else◌};
ghost use Rattle.std.specs.Io.KnownBytes.{Appends};
ghost use Rattle.gm_host.specs.Count.{counted, Rises};
ghost use Rattle.gm_host.specs.inner.Sink.{untold, extended, ExtendsInPart, OnFailed, IsOutOfMemory, OnOutOfMemory};

use crate::fault::PutFault;
use crate::limit::output_may_take;
use crate::sink::Sink;
use crate::whole::write_whole;
use std::fs::Files;
use std::io;
use std::io::{ErrorKind, Print, Write};
use std::marker::Model;

/// The standard output. It does not tell what was written, and contracts see its counts of puts and of
/// faults. A put takes no memory.
#[derive(Drop)]
pub struct StdSink<'r, R> {
    rt: &'r R,
    puts: u64,
    faults: u64,
}

impl<'r, R> Model for StdSink<'r, R> {
    ghost use Rattle.gm_host.specs.inner.StdSink.{Counts};

    ghost Value = { Counts };

    ghost view = { λ sink. record { puts = sink.puts; faults = sink.faults } };
}

impl<'r, R: Print> StdSink<'r, R> {
    /// The standard output of this runtime.
    pub fn new(rt: &'r R) -> StdSink<'r, R>
        ensures { result ≡ record { puts = 0; faults = 0 } }
    {
        StdSink {
            rt,
            puts: 0,
            faults: 0,
        }
    }
}

impl<'r, R: Print + Files> Sink for StdSink<'r, R> {
    ghost written = { λ _. untold };

    ghost puts = { λ sink. sink.puts };

    ghost faults = { λ sink. sink.faults };

    ghost never_wants_memory = { true };

    fn put(&mut self, bytes: &[u8]) -> Result<(), PutFault>
        ensures each_put_counts { self.new.puts ≡ counted self.old.puts }
        ensures faults_never_fall { self.old.faults ≤ self.new.faults }
        ensures ok { OnOk result (untold ≡ extended untold bytes.now) }
        ensures failed { OnFailed result (Rises self.old.faults self.new.faults) }
        ensures kept { OnFailed result (ExtendsInPart untold bytes.now untold) }
        ensures out_of_memory { OnOutOfMemory result (untold ≡ untold) }
        ensures no_fault { OnOutOfMemory result (self.new.faults ≡ self.old.faults) }
        ensures enough_memory { IsTrue true → ¬ IsOutOfMemory result }
        ensures ok_no_fault { OnOk result (self.new.faults ≡ self.old.faults) }
        ensures each_fault_counts { self.new.faults ≡ (if is_err result then counted self.old.faults else self.old.faults) }
    {
        self.puts = self.puts.saturating_add(1);
        let mut output = Output { rt: self.rt };
        put_whole(&mut output, bytes, &mut self.faults)
    }
}

/// The standard output as a writer.
#[derive(Drop)]
struct Output<'r, R> {
    rt: &'r R,
}

impl<'r, R: Print + Files> Write for Output<'r, R> {
    fn write(&mut self, bytes: &[u8]) -> io::Result<usize> {
        if !output_may_take(self.rt, bytes.len() as u64) {
            return Err(ErrorKind::FileTooLarge.into());
        }
        self.rt.write_some(bytes)
    }

    fn flush(&mut self) -> io::Result<()> {
        Ok(())
    }
}

/// Writes all of the bytes, and raises the count of faults where that fails.
fn put_whole<W: Write>(writer: &mut W, bytes: &[u8], faults: &mut u64) -> Result<(), PutFault>
    ensures all_bytes { OnOk result (Appends (W.contents writer.old) (W.contents writer.new) bytes.now) }
    ensures enough_memory { ¬ IsOutOfMemory result }
    ensures faults_never_fall { faults.old ≤ faults.new }
    ensures each_fault_counts { faults.new ≡ (if is_err result then counted faults.old else faults.old) }
{
    match write_whole(writer, bytes) {
        Ok(()) => Ok(()),
        Err(_) => {
            *faults = faults.saturating_add(1);
            Err(PutFault::Failed)
        }
    }
}
