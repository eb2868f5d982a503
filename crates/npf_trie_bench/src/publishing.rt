// How long a read takes of a published number while none is published: by this project's reader, and by `left_right`'s own handle.
ghost use Rattle.std.specs.Prelude.{◌<◌, length};

use anyhow::Error;
use left_right::{Absorb, ReadHandle, new_from_empty};
use npf_fixtures::work::{Work, or_few};
use npf_publish::{ConfReader, Publisher};
use std::alloc::{AllocError, Global};
use std::sync::Wait;
use std::thread::{Threads, for_each_mut};
use std::time::Instant;

/// What is read.
trait Source: Send + Drop {
    fn number<R: Wait>(&mut self, rt: &R) -> u64;
}

impl Source for ConfReader {
    fn number<R: Wait>(&mut self, rt: &R) -> u64 {
        self.read(rt)
    }
}

// The value under `left_right`'s own handles.
#[derive(Clone, Copy, Drop)]
struct Number(u64);

impl Absorb<u64> for Number {
    type State = u64;

    ghost state = { λ number. number.0 };

    ghost applied = { λ _ number. number };

    ghost never_fails = { Unit {0} };

    fn absorb_first(&mut self, operation: &u64, _other: &Number) -> Result<(), AllocError> {
        self.0 = *operation;
        Ok(())
    }
}

impl Source for ReadHandle<Number> {
    fn number<R: Wait>(&mut self, _rt: &R) -> u64 {
        match self.enter() {
            Some(guard) => guard.0,
            None => 0,
        }
    }
}

// The reads of one thread, and the sum of what was read.
#[derive(Drop)]
struct Job<S: Source> {
    source: S,
    sum: u64,
}

impl<S: Source> Job<S> {
    fn run<R: Wait>(&mut self, rt: &R, reads: u64) {
        for _ in 0..reads {
            self.sum = self.sum.wrapping_add(self.source.number(rt));
        }
    }
}

/// So many reads of each of so many threads, by a reader and by a handle each. The host has the clock and the output, and the other handle
/// the threads.
pub fn time_reads<R: Threads + Wait + Sync>(
    host: &HostRuntime,
    rt: &R,
    threads: u32,
    reads: u64,
) -> Result<(), Error> {
    time_readers(host, rt, threads, reads)?;
    time_handles(host, rt, threads, reads)
}

fn time_readers<R: Threads + Wait + Sync>(
    host: &HostRuntime,
    rt: &R,
    threads: u32,
    reads: u64,
) -> Result<(), Error> {
    let (publisher, readers) = Publisher::new(rt, host.alloc(), threads.clamp(1, 64), 1, 2)?;
    let timed = time_jobs(host, rt, "threads, published number", readers, reads);
    publisher.close(rt);
    timed
}

fn time_handles<R: Threads + Wait + Sync>(
    host: &HostRuntime,
    rt: &R,
    threads: u32,
    reads: u64,
) -> Result<(), Error> {
    let threads = threads.clamp(1, 64);
    let (_writer, first) = new_from_empty::<Number, u64, _, _>(
        host.alloc(),
        rt,
        Number(1),
        threads as usize,
    )?;
    let handles = handles(host.alloc(), first, threads)?;
    time_jobs(host, rt, "threads, left_right", handles, reads)
}

fn handles(
    alloc: Global,
    first: ReadHandle<Number>,
    count: u32,
) -> Result<Vec<ReadHandle<Number>>, AllocError> {
    let mut handles = Vec::new(alloc);
    for _ in 1..count {
        handles.push(first.clone()?)?;
    }
    handles.push(first)?;
    Ok(handles)
}

// Reads from each source in a thread of its own.
fn time_jobs<S: Source, R: Threads + Wait + Sync>(
    host: &HostRuntime,
    rt: &R,
    name: &'static str,
    sources: Vec<S>,
    reads: u64,
) -> Result<(), Error> {
    let mut jobs = jobs_of(host.alloc(), sources)?;
    let work = Work {
        size: jobs.len() as u64,
        name,
        pieces: reads,
    };
    let start = Instant::now(host)?;
    let sum = run_all(rt, jobs.as_mut_slice(), or_few(reads, 1000));
    work.say(host, start, sum)
}

fn jobs_of<S: Source>(alloc: Global, sources: Vec<S>) -> Result<Vec<Job<S>>, AllocError> {
    let mut jobs = Vec::new(alloc);
    for source in sources {
        jobs.push(Job { source, sum: 0 })?;
    }
    Ok(jobs)
}

// Does each job in a thread of its own, and answers the sum of all.
fn run_all<S: Source, R: Threads + Wait + Sync>(rt: &R, jobs: &mut [Job<S>], reads: u64) -> u64 {
    let threads = jobs.len();
    if threads == 0 {
        return 0;
    }
    for_each_mut(rt, jobs, threads, &|_, job: &mut Job<S>| job.run(rt, reads));
    let mut sum = 0u64;
    for job in &*jobs {
        sum = sum.wrapping_add(job.sum);
    }
    sum
}
