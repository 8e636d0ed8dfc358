//! A sink in memory that keeps all that is written to it.

ghost use Rattle.std.specs.Prelude.{◌≡◌, ◌≤◌, [], false, IsTrue, OnOk, Some};
ghost use Rattle.gm_host.specs.Count.{counted, Rises};
ghost use Rattle.gm_host.specs.inner.Sink.{extended, ExtendsInPart, IsFailed, OnFailed, IsOutOfMemory, OnOutOfMemory};
ghost use Rattle.gm_host.specs.inner.SureStore.{no_faults};

use crate::fault::PutFault;
use crate::sink::Sink;
use std::alloc::Global;
use std::marker::Model;

/// A sink in memory that never fails.
#[derive(Drop)]
pub struct SureSink {
    written: Vec<u8>,
    puts: u64,
}

impl Model for SureSink {
    ghost use Rattle.gm_host.specs.inner.SureSink.{SinkState, state_code};

    ghost Value = { SinkState };

    ghost coded = { state_code };

    ghost view = { λ sink. record { written = sink.written.items; puts = sink.puts } };
}

impl SureSink {
    /// A sink to which nothing was written.
    pub fn new(alloc: Global) -> SureSink
        ensures { result ≡ record { written = []; puts = 0 } }
    {
        SureSink {
            written: Vec::new(alloc),
            puts: 0,
        }
    }

    /// The bytes that were written, in order.
    pub fn bytes(&self) -> &[u8]
        ensures { result.now ≡ self.now.written }
    {
        self.written.as_slice()
    }
}

impl Sink for SureSink {
    ghost written = { λ sink. Some sink.written };

    ghost puts = { λ sink. sink.puts };

    ghost faults = { λ _. no_faults };

    ghost never_wants_memory = { false };

    fn put(&mut self, bytes: &[u8]) -> Result<(), PutFault>
        ensures each_put_counts { self.new.puts ≡ counted self.old.puts }
        ensures faults_never_fall { no_faults ≤ no_faults }
        ensures ok { OnOk result (Some self.new.written ≡ extended (Some self.old.written) bytes.now) }
        ensures failed { OnFailed result (Rises no_faults no_faults) }
        ensures kept { OnFailed result (ExtendsInPart (Some self.old.written) bytes.now (Some self.new.written)) }
        ensures out_of_memory { OnOutOfMemory result (Some self.new.written ≡ Some self.old.written) }
        ensures no_fault { OnOutOfMemory result (no_faults ≡ no_faults) }
        ensures enough_memory { IsTrue false → ¬ IsOutOfMemory result }
        ensures ok_no_fault { OnOk result (no_faults ≡ no_faults) }
        ensures never_fails { ¬ IsFailed result }
    {
        self.puts = self.puts.saturating_add(1);
        self.written.extend_from_slice(bytes)?;
        Ok(())
    }
}
