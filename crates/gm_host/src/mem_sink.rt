//! A sink in memory for tests, whose puts fail where a test says so.

ghost use Rattle.std.specs.Prelude.{◌≡◌, ◌<◌, ◌≤◌, [], false, IsTrue, OnOk, OnErr, Some};
ghost use Rattle.std.specs.FinMap as map;
ghost use Rattle.gm_host.specs.Count.{counted, Rises};
ghost use Rattle.gm_host.specs.inner.Sink.{extended, ExtendsInPart, OnFailed, IsOutOfMemory, OnOutOfMemory};
ghost use Rattle.gm_host.specs.inner.MemSink.{IsPutAsPlanned};

use crate::bytes::first;
use crate::fault::PutFault;
use crate::sink::Sink;
use gm_model::OutOfMemory;
use std::alloc::Global;
use std::collections::BTreeMap;
use std::marker::Model;

/// A sink in memory, whose puts fail where a test names them.
///
/// Puts are numbered from 0 in the order in which they come, whatever they answer. A put fails
/// exactly where its number was named by [`MemSink::fail_put`], unless memory runs out for the
/// bytes that it keeps.
#[derive(Drop)]
pub struct MemSink {
    written: Vec<u8>,
    planned: BTreeMap<u64, usize>,
    puts: u64,
    faults: u64,
}

impl Model for MemSink {
    ghost use Rattle.std.specs.FinMap.{from_entries};
    ghost use Rattle.gm_host.specs.inner.MemSink.{SinkState, state_code};

    ghost Value = { SinkState };

    ghost coded = { state_code };

    ghost view = { λ sink. record {
      written = sink.written.items;
      planned = from_entries sink.planned.entries;
      puts = sink.puts;
      faults = sink.faults;
    } };
}

impl MemSink {
    /// A sink to which nothing was written, and of which no put is to fail.
    pub fn new(alloc: Global) -> MemSink
        ensures { result ≡ record { written = []; planned = map.empty; puts = 0; faults = 0 } }
    {
        MemSink {
            written: Vec::new(alloc),
            planned: BTreeMap::new(alloc),
            puts: 0,
            faults: 0,
        }
    }

    /// Makes the put of this number fail and append the first `kept` of its bytes, at most all. The
    /// later naming of a number counts. A number that has passed has no effect.
    pub fn fail_put(&mut self, call: u32, kept: usize) -> Result<(), OutOfMemory>
        ensures passed { call < self.old.puts → self.new ≡ self.old }
        ensures ok { self.old.puts ≤ call → OnOk result (self.new ≡ record self.old { planned = map.insert self.old.planned call kept }) }
        ensures err { OnErr result (self.new ≡ self.old) }
    {
        let call = u64::from(call);
        if call >= self.puts {
            self.planned.insert(call, kept)?;
        }
        Ok(())
    }

    /// The bytes that were written, in order.
    pub fn bytes(&self) -> &[u8]
        ensures { result.now ≡ self.now.written }
    {
        self.written.as_slice()
    }
}

impl Sink for MemSink {
    ghost written = { λ sink. Some sink.written };

    ghost puts = { λ sink. sink.puts };

    ghost faults = { λ sink. sink.faults };

    ghost never_wants_memory = { false };

    fn put(&mut self, bytes: &[u8]) -> Result<(), PutFault>
        ensures each_put_counts { self.new.puts ≡ counted self.old.puts }
        ensures faults_never_fall { self.old.faults ≤ self.new.faults }
        ensures ok { OnOk result (Some self.new.written ≡ extended (Some self.old.written) bytes.now) }
        ensures failed { OnFailed result (Rises self.old.faults self.new.faults) }
        ensures kept { OnFailed result (ExtendsInPart (Some self.old.written) bytes.now (Some self.new.written)) }
        ensures out_of_memory { OnOutOfMemory result (Some self.new.written ≡ Some self.old.written) }
        ensures no_fault { OnOutOfMemory result (self.new.faults ≡ self.old.faults) }
        ensures enough_memory { IsTrue false → ¬ IsOutOfMemory result }
        ensures ok_no_fault { OnOk result (self.new.faults ≡ self.old.faults) }
        ensures as_planned { IsPutAsPlanned self.old bytes.now result self.new }
    {
        let call = self.puts;
        self.puts = self.puts.saturating_add(1);
        match self.planned.get(&call).copied() {
            Some(kept) => {
                self.written.extend_from_slice(first(bytes, kept))?;
                self.faults = self.faults.saturating_add(1);
                Err(PutFault::Failed)
            }
            None => {
                self.written.extend_from_slice(bytes)?;
                Ok(())
            }
        }
    }
}
