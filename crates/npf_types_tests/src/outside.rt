ghost use Rattle.std.specs.Prelude.{refl};

use crate::comparison::same;
use npf_outside::{
    FileFault, Files, FolderFiles, MemFiles, MemSink, Parts, Sink, SinkFault, StderrSink,
    StdoutSink, Stream, StreamSink,
};
use std::io::{Error, ErrorKind, Result as IoResult, Write};
use std::process::Abort;
use std::test::Fail;

#[test]
fn memory_files_hold_what_was_put_and_written(rt: HostRuntime) -> Result<(), Fail> {
    let mut files = MemFiles::new(rt.alloc())?;
    files.put_file("a.conf", b"pass all")?;
    files.fail(3)?;
    reads(&rt, &mut files, "a.conf", 8, Ok(b"pass all"));
    writes(&rt, &mut files, "b.conf", b"x", Ok(()));
    writes(&rt, &mut files, "b.conf", b"y", Err(FileFault::Failed));
    reads(&rt, &mut files, "b.conf", 1, Ok(b"x"));
    reads(&rt, &mut files, "a.conf", 7, Err(FileFault::Long));
    reads(&rt, &mut files, "none", 7, Err(FileFault::Failed));
    Ok(())
}

#[test]
fn folder_files_are_those_of_the_current_folder(rt: HostRuntime) -> Result<(), Fail> {
    let mut files = FolderFiles::new(&rt);
    reads(&rt, &mut files, "no such file", 10, Err(FileFault::Failed));
    writes(&rt, &mut files, "npf_outside.test", b"0123456789", Ok(()));
    reads(&rt, &mut files, "npf_outside.test", 10, Ok(b"0123456789"));
    reads(&rt, &mut files, "npf_outside.test", 9, Err(FileFault::Long));
    writes(&rt, &mut files, "npf_outside.test", b"01", Ok(()));
    reads(&rt, &mut files, "npf_outside.test", 10, Ok(b"01"));
    reads(&rt, &mut files, ".", 10, Err(FileFault::Failed));
    writes(
        &rt,
        &mut files,
        "no such folder/file",
        b"x",
        Err(FileFault::Failed),
    );
    std::fs::remove_file(&rt, "npf_outside.test")?;
    Ok(())
}

#[test]
fn files_are_written_in_parts(rt: HostRuntime) -> Result<(), Fail> {
    let mut files = MemFiles::new(rt.alloc())?;
    files.fail(3)?;
    writes_parts(&rt, &mut files, "a.pcap", b"one by one", Ok(()));
    reads(&rt, &mut files, "a.pcap", 10, Ok(b"one by one"));
    writes_parts(&rt, &mut files, "a.pcap", b"two", Err(FileFault::Failed));
    reads(&rt, &mut files, "a.pcap", 10, Ok(b"one by one"));
    Ok(())
}

#[test]
fn a_file_of_the_folder_is_replaced_by_parts(rt: HostRuntime) -> Result<(), Fail> {
    let mut files = FolderFiles::new(&rt);
    writes(&rt, &mut files, "npf_outside.parts", b"0123456789", Ok(()));
    writes_parts(&rt, &mut files, "npf_outside.parts", b"abc", Ok(()));
    reads(&rt, &mut files, "npf_outside.parts", 10, Ok(b"abc"));
    std::fs::remove_file(&rt, "npf_outside.parts")?;
    Ok(())
}

/// Bytes of which each is a part.
#[derive(Drop)]
struct OneByOne<'a> {
    left: &'a [u8],
}

impl<'a> Parts for OneByOne<'a> {
    ghost rest = { λ bytes. bytes.left.now };

    fn next(&mut self, part: &mut Vec<u8>) {
        if let Some((first, left)) = self.left.split_first() {
            part.push_reserved(*first);
            self.left = left;
        }
    }
}

fn writes_parts(
    rt: &(impl Abort + AllocGlobal),
    files: &mut impl Files,
    name: &str,
    bytes: &[u8],
    wanted: Result<(), FileFault>,
) {
    let mut parts = OneByOne { left: bytes };
    let given = files.write_parts(rt.alloc(), name, &mut parts);
    same(rt, name, given, wanted);
}

fn reads(
    rt: &(impl Abort + AllocGlobal),
    files: &mut impl Files,
    name: &str,
    most: u64,
    wanted: Result<&[u8], FileFault>,
) {
    match files.read(rt.alloc(), name, most) {
        Ok(bytes) => same(rt, name, Ok(bytes.as_slice()), wanted),
        Err(fault) => same(rt, name, Err(fault), wanted),
    }
}

fn writes(
    rt: &impl Abort,
    files: &mut impl Files,
    name: &str,
    bytes: &[u8],
    wanted: Result<(), FileFault>,
) {
    same(rt, name, files.write(name, bytes), wanted);
}

#[test]
fn a_memory_sink_holds_what_was_put(rt: HostRuntime) -> Result<(), Fail> {
    let mut sink = MemSink::new(rt.alloc())?;
    sink.fail(2)?;
    sink.fail(4)?;
    puts(&rt, &mut sink, "one\n", Ok(()));
    puts(&rt, &mut sink, "two\n", Err(SinkFault::Failed));
    puts(&rt, &mut sink, "three\n", Ok(()));
    flushes(&rt, &mut sink, Err(SinkFault::Failed));
    flushes(&rt, &mut sink, Ok(()));
    same(
        &rt,
        "what was put",
        sink.bytes(),
        b"one\nthree\n".as_slice(),
    );
    Ok(())
}

#[test]
fn standard_output_takes_bytes(rt: HostRuntime) {
    let mut out = StdoutSink::new(&rt);
    puts(&rt, &mut out, "npf_outside: standard output\n", Ok(()));
    flushes(&rt, &mut out, Ok(()));
}

#[test]
fn standard_error_takes_bytes(rt: HostRuntime) {
    let mut err = StderrSink::new(&rt);
    puts(&rt, &mut err, "npf_outside: standard error\n", Ok(()));
    flushes(&rt, &mut err, Ok(()));
}

/// A stream that takes four bytes a write, and refuses each write once it has so many bytes. It can't pass on what it took.
#[derive(Drop)]
struct Narrow {
    room: usize,
}

impl Write for Narrow {
    fn write(&mut self, bytes: &[u8]) -> IoResult<usize> {
        if self.room == 0 {
            return Err(Error::from(ErrorKind::BrokenPipe));
        }
        let count = bytes.len().min(4).min(self.room);
        self.room -= count;
        Ok(count)
    }

    fn flush(&mut self) -> IoResult<()> {
        Err(Error::from(ErrorKind::StorageFull))
    }
}

impl Stream for Narrow {
    ghost steady = { λ one other. refl };
}

#[test]
fn a_flush_that_the_stream_refuses_fails(rt: HostRuntime) {
    let mut sink = StreamSink::over(rt.alloc(), Narrow { room: 100 }, 8);
    puts(&rt, &mut sink, "one\n", Ok(()));
    puts(&rt, &mut sink, "longer than the buffer\n", Ok(()));
    flushes(&rt, &mut sink, Err(SinkFault::Failed));
}

#[test]
fn a_put_that_the_stream_cuts_fails(rt: HostRuntime) {
    let mut sink = StreamSink::over(rt.alloc(), Narrow { room: 6 }, 0);
    puts(&rt, &mut sink, "one\n", Ok(()));
    puts(&rt, &mut sink, "two\n", Err(SinkFault::Failed));
    puts(&rt, &mut sink, "three\n", Err(SinkFault::Failed));
}

fn puts(rt: &impl Abort, sink: &mut impl Sink, text: &str, wanted: Result<(), SinkFault>) {
    same(rt, text, sink.put(text.as_bytes()), wanted);
}

fn flushes(rt: &impl Abort, sink: &mut impl Sink, wanted: Result<(), SinkFault>) {
    same(rt, "flush", sink.flush(), wanted);
}
