// A sink in memory.
ghost use Rattle.std.specs.Prelude.{◌≡◌, ◌++◌, [], ◌∷◌, ◌+◌, ◌≤◌, Some, length, IfOk, OnOk, OnErr, IsErrOf, vec_len};
ghost use Rattle.npf_outside.specs.Calls.{planned};
ghost use Rattle.npf_outside.specs.Sink.{Appends, AppendsFront};

use crate::calls::Calls;
use crate::sink::{Sink, SinkFault};
use npf_types::NoMemory;
use std::alloc::Global;

/// A sink in memory. Calls, of puts and flushes together, are numbered from 1, and those that were named to `fail` do so and
/// put nothing. What was put waits until it is flushed.
#[derive(Drop)]
pub struct MemSink {
    bytes: Vec<u8>,
    /// How many of the bytes were flushed.
    flushed: usize,
    calls: Calls,
    faults: u64,
    ghost within: { flushed ≤ vec_len bytes },
}

impl MemSink {
    ghost use Rattle.npf_outside.specs.MemSink.{bytes_of, IsNewSink};

    /// Nothing put, no faults and no calls that are to fail.
    pub fn new(alloc: Global) -> Result<MemSink, NoMemory>
        ensures { IfOk result IsNewSink }
    {
        Ok(MemSink {
            bytes: Vec::new(alloc),
            flushed: 0,
            calls: Calls::new(alloc),
            faults: 0,
        })
    }

    /// Makes the call of this number fail.
    pub fn fail(&mut self, call: u64) -> Result<(), NoMemory>
        ensures planned { OnOk result (planned self.new.calls ≡ planned self.old.calls ++ call ∷ []) }
        ensures err { OnErr result (planned self.new.calls ≡ planned self.old.calls) }
        ensures bytes { bytes_of self.new ≡ bytes_of self.old }
        ensures faults { self.new.faults ≡ self.old.faults }
        ensures calls { self.new.calls.made ≡ self.old.calls.made }
    {
        self.calls.plan(call)
    }

    /// What was put.
    pub fn bytes(&self) -> &[u8]
        ensures { result.now ≡ bytes_of self.now }
    {
        self.bytes.as_slice()
    }
}

impl Sink for MemSink {
    ghost use Rattle.npf_outside.specs.MemSink.{bytes_of, sink_moment, IsCall};

    ghost moment = { sink_moment };

    fn put(&mut self, bytes: &[u8]) -> Result<(), SinkFault>
        ensures call { IsCall self.old self.new result }
        ensures whole { OnOk result (Appends (Some (bytes_of self.old)) (Some (bytes_of self.new)) bytes.now) }
        ensures front { AppendsFront (Some (bytes_of self.old)) (Some (bytes_of self.new)) bytes.now }
        ensures memory { IsErrOf result SinkFault.NoMemory
            → Appends (Some (bytes_of self.old)) (Some (bytes_of self.new)) [] }
        ensures waits { OnOk result
            ((sink_moment self.new).waiting ≡ (sink_moment self.old).waiting + length bytes.now) }
        ensures nothing { OnErr result (bytes_of self.new ≡ bytes_of self.old) }
        ensures unmoved { OnErr result ((sink_moment self.new).waiting ≡ (sink_moment self.old).waiting) }
    {
        if self.calls.begin() {
            self.faults = self.faults.saturating_add(1);
            return Err(SinkFault::Failed);
        }
        match self.bytes.extend_from_slice(bytes) {
            Ok(()) => Ok(()),
            Err(_) => Err(SinkFault::NoMemory),
        }
    }

    fn flush(&mut self) -> Result<(), SinkFault>
        ensures call { IsCall self.old self.new result }
        ensures flushed { OnOk result ((sink_moment self.new).waiting ≡ 0) }
        ensures stays { Appends (Some (bytes_of self.old)) (Some (bytes_of self.new)) [] }
        ensures memory { IsErrOf result SinkFault.NoMemory → ⊥ }
    {
        if self.calls.begin() {
            self.faults = self.faults.saturating_add(1);
            return Err(SinkFault::Failed);
        }
        self.flushed = self.bytes.len();
        Ok(())
    }
}
