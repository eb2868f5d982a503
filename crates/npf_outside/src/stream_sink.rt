// A sink over a stream, behind a buffer of its own, since `BufWriter` drops its stream where memory for a buffer is wanted.
ghost use Rattle.std.specs.Prelude.{◌≡◌, ◌⊎◌, ◌+◌, ◌<◌, ◌≤◌, [], length, drop, OnOk, IsErrOf, vec_len, vec_capacity};
ghost use Rattle.npf_outside.specs.Sink.{Appends, AppendsFront};

use crate::sink::{Sink, SinkFault};
use crate::stream::Stream;
use crate::write_front::write_front;
use std::alloc::Global;
use std::io::Result as IoResult;

/// A sink over a stream, behind a buffer of `room` bytes, which is made at the first put that goes into it. Where the stream tells
/// what it holds, the sink tells that and what waits. What the stream refuses is `Failed`; `NoMemory` speaks of the buffer alone.
/// What waits is passed on when the sink is dropped.
pub struct StreamSink<W: Stream> {
    stream: W,
    buffer: Vec<u8>,
    room: usize,
    faults: u64,
}

impl<W: Stream> StreamSink<W> {
    ghost use Rattle.npf_outside.specs.StreamSink.{sink_contents};

    /// A sink over this stream, behind a buffer of so many bytes. No faults yet, and nothing waits.
    pub fn over(alloc: Global, stream: W, room: usize) -> StreamSink<W>
        ensures stream { result.stream ≡ stream }
        ensures empty { result.buffer.items ≡ [] }
        ensures room { result.room ≡ room }
        ensures faults { result.faults ≡ 0 }
    {
        StreamSink {
            stream,
            buffer: Vec::new(alloc),
            room,
            faults: 0,
        }
    }

    /// Passes on what waits. After an error a front of it was, and the rest waits.
    fn pass_on(&mut self) -> IoResult<()>
        ensures empty { OnOk result (self.new.buffer.items ≡ []) }
        ensures stays { Appends (sink_contents W.contents self.old) (sink_contents W.contents self.new) [] }
        ensures capacity { vec_capacity self.new.buffer ≡ vec_capacity self.old.buffer }
        ensures room { self.new.room ≡ self.old.room }
        ensures faults { self.new.faults ≡ self.old.faults }
    {
        let (taken, passed) = write_front(&mut self.stream, self.buffer.as_slice());
        drop_front(&mut self.buffer, taken);
        passed
    }

    /// Passes on what waits, and has the stream pass on what it keeps itself.
    fn pass_all_on(&mut self) -> IoResult<()>
        ensures empty { OnOk result (self.new.buffer.items ≡ []) }
        ensures stays { Appends (sink_contents W.contents self.old) (sink_contents W.contents self.new) [] }
        ensures faults { self.new.faults ≡ self.old.faults }
    {
        self.pass_on()?;
        self.stream.flush()
    }

    /// Passes on what waits where so many bytes more have no room.
    fn make_room(&mut self, count: usize) -> IoResult<()>
        ensures room { OnOk result
            ((length self.new.buffer.items + count ≤ self.new.room) ⊎ (self.new.buffer.items ≡ [])) }
        ensures stays { Appends (sink_contents W.contents self.old) (sink_contents W.contents self.new) [] }
        ensures capacity { vec_capacity self.new.buffer ≡ vec_capacity self.old.buffer }
        ensures same { self.new.room ≡ self.old.room }
        ensures faults { self.new.faults ≡ self.old.faults }
    {
        match self.buffer.len().checked_add(count) {
            Some(all) if all <= self.room => Ok(()),
            _ => self.pass_on(),
        }
    }

    /// Puts bytes that have room into the buffer.
    fn keep(&mut self, bytes: &[u8]) -> Result<(), SinkFault>
        requires { length self.old.buffer.items + length bytes.now ≤ self.old.room }
        ensures whole { OnOk result
            (Appends (sink_contents W.contents self.old) (sink_contents W.contents self.new) bytes.now) }
        ensures memory { IsErrOf result SinkFault.NoMemory
            → Appends (sink_contents W.contents self.old) (sink_contents W.contents self.new) [] }
        ensures wants { IsErrOf result SinkFault.NoMemory → vec_capacity self.old.buffer < self.old.room }
        ensures failed { IsErrOf result SinkFault.Failed → ⊥ }
        ensures faults { self.new.faults ≡ self.old.faults }
    {
        if self.buffer.is_empty() && self.buffer.reserve_exact(self.room).is_err() {
            return Err(SinkFault::NoMemory);
        }
        match self.buffer.extend_from_slice(bytes) {
            Ok(()) => Ok(()),
            Err(_) => Err(SinkFault::NoMemory),
        }
    }

    /// Writes bytes at once, where none wait.
    fn write_at_once(&mut self, bytes: &[u8]) -> Result<(), SinkFault>
        requires { self.old.buffer.items ≡ [] }
        ensures whole { OnOk result
            (Appends (sink_contents W.contents self.old) (sink_contents W.contents self.new) bytes.now) }
        ensures front { AppendsFront (sink_contents W.contents self.old) (sink_contents W.contents self.new) bytes.now }
        ensures memory { IsErrOf result SinkFault.NoMemory → ⊥ }
        ensures faults { self.new.faults ≡ self.old.faults }
    {
        match write_front(&mut self.stream, bytes) {
            (_, Ok(())) => Ok(()),
            (_, Err(_)) => Err(SinkFault::Failed),
        }
    }

    /// Puts the bytes into the buffer, or writes them at once where they are longer than it.
    fn append(&mut self, bytes: &[u8]) -> Result<(), SinkFault>
        ensures whole { OnOk result
            (Appends (sink_contents W.contents self.old) (sink_contents W.contents self.new) bytes.now) }
        ensures front { AppendsFront (sink_contents W.contents self.old) (sink_contents W.contents self.new) bytes.now }
        ensures memory { IsErrOf result SinkFault.NoMemory
            → Appends (sink_contents W.contents self.old) (sink_contents W.contents self.new) [] }
        ensures wants { IsErrOf result SinkFault.NoMemory → vec_capacity self.old.buffer < self.old.room }
        ensures faults { self.new.faults ≡ self.old.faults }
    {
        if self.make_room(bytes.len()).is_err() {
            return Err(SinkFault::Failed);
        }
        if bytes.len() > self.room {
            return self.write_at_once(bytes);
        }
        self.keep(bytes)
    }
}

impl<W: Stream> Sink for StreamSink<W> {
    ghost use Rattle.npf_outside.specs.StreamSink.{moment_by};

    ghost moment = { moment_by W.contents };

    fn put(&mut self, bytes: &[u8]) -> Result<(), SinkFault> {
        match self.append(bytes) {
            Ok(()) => Ok(()),
            Err(fault) => {
                self.faults = self.faults.saturating_add(1);
                Err(fault)
            }
        }
    }

    fn flush(&mut self) -> Result<(), SinkFault> {
        match self.pass_all_on() {
            Ok(()) => Ok(()),
            Err(_) => {
                self.faults = self.faults.saturating_add(1);
                Err(SinkFault::Failed)
            }
        }
    }
}

impl<W: Stream> Drop for StreamSink<W> {
    fn drop(mut self) {
        let _ = self.pass_on();
        let StreamSink {
            stream: _stream,
            buffer: _,
            room: _,
            faults: _,
        } = self;
    }
}

/// Drops so many bytes in front. Where they are all, none is moved, as `drain` would.
fn drop_front(bytes: &mut Vec<u8>, count: usize)
    requires { count ≤ length bytes.old.items }
    ensures items { bytes.new.items ≡ drop count bytes.old.items }
    ensures capacity { vec_capacity bytes.new ≡ vec_capacity bytes.old }
{
    if count == bytes.len() {
        bytes.clear();
    } else {
        bytes.drain(..count);
    }
}
