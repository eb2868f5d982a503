// The streams of the system as sinks. Standard error is made of the host's runtime: the library has no writer over any runtime that can
// print errors.
ghost use Rattle.std.specs.Prelude.{◌≡◌, []};

use crate::stream_sink::StreamSink;
use std::io::{self, Printer, Stderr};

/// How many bytes of standard output wait at most before they are written.
const BUFFER: usize = 65_536;

/// Standard output, behind a buffer. It tells nothing of what was put.
pub type StdoutSink<'a, P> = StreamSink<Printer<'a, P>>;

/// Standard error, without a buffer. It tells nothing of what was put.
pub type StderrSink = StreamSink<Stderr>;

impl<'a, P: Print + AllocGlobal> StreamSink<Printer<'a, P>> {
    /// No faults yet, and nothing put.
    pub fn new(rt: &'a P) -> StdoutSink<'a, P>
        ensures faults { result.faults ≡ 0 }
        ensures empty { result.buffer.items ≡ [] }
    {
        StreamSink::over(rt.alloc(), io::writer(rt), BUFFER)
    }
}

impl StreamSink<Stderr> {
    /// No faults yet.
    pub fn new(rt: &HostRuntime) -> StderrSink
        ensures faults { result.faults ≡ 0 }
        ensures empty { result.buffer.items ≡ [] }
    {
        StreamSink::over(rt.alloc(), rt.stderr(), 0)
    }
}
