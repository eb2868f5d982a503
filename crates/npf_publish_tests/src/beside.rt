// Numbers that are read in threads of their own while a publisher publishes.
ghost use Rattle.std.specs.Prelude.{◌≡◌, ◌+◌, ◌<◌, ◌≤◌, All, IfOk, length};
ghost use Rattle.npf_publish.specs.ConfReader.{reader_range};
ghost use Rattle.npf_publish.specs.Publisher.{published_number, publisher_range};
ghost use Rattle.npf_publish.specs.Told.{told_number};

use crate::answers::{put, same};
use npf_publish::{ConfReader, Publisher, Told};
use npf_types::NoMemory;
use std::alloc::{AllocError, Global};
use std::sync::Wait;
use std::test::Fail;
use std::thread::{Threads, for_each_mut, join_mut};

// The reads of a thread while fifty numbers are published.
const READS: u32 = 2000;

// A reader, the greatest number that it read or was told, and whether it then read one below.
#[derive(Drop)]
struct Watch {
    reader: ConfReader,
    greatest: u64,
    fell: bool,
    ghost to_last: { (reader_range reader).last ≡ 101 },
}

impl Watch {
    fn over(reader: ConfReader) -> Watch
        requires { (reader_range reader).last ≡ 101 }
    {
        Watch {
            reader,
            greatest: 1,
            fell: false,
        }
    }

    fn look<R: Wait>(&mut self, rt: &R) {
        let number = self.reader.read(rt);
        if number < self.greatest {
            self.fell = true;
        }
        self.greatest = number;
    }

    fn learn(&mut self, told: &Told, number: u64)
        requires { told_number told.now ≤ 101 }
    {
        self.reader.learn(told);
        self.greatest = number;
    }
}

fn look_often<R: Wait>(rt: &R, watch: &mut Watch) {
    for _ in 0..READS {
        watch.look(rt);
    }
}

fn look_all<R: Threads + Wait + Sync>(rt: &R, watches: &mut [Watch])
    requires { 0 < length watches.old }
{
    let threads = watches.len();
    for_each_mut(
        rt,
        watches,
        threads,
        &|_, watch: &mut Watch| look_often(rt, watch),
    );
}

// Publishes the next fifty numbers. The last of them is told.
fn publish_fifty<R: Wait>(rt: &R, publisher: &mut Publisher) -> Result<Told, NoMemory>
    requires { published_number publisher.old + 50 ≤ (publisher_range publisher.old).last }
    ensures range { publisher_range publisher.new ≡ publisher_range publisher.old }
    ensures number { IfOk result (λ _. published_number publisher.new ≡ published_number publisher.old + 50) }
    ensures told { IfOk result (λ told. told_number told ≡ published_number publisher.old + 50) }
{
    for _ in 0u64..49 {
        publisher.publish(rt)?;
    }
    publisher.publish(rt)
}

// Publishes in one thread while each reader reads in one of its own.
fn publish_beside<R: Threads + Wait + Sync>(
    rt: &R,
    publisher: &mut Publisher,
    watches: &mut [Watch],
) -> Result<Told, NoMemory>
    requires room { published_number publisher.old + 50 ≤ (publisher_range publisher.old).last }
    requires some { 0 < length watches.old }
    ensures range { publisher_range publisher.new ≡ publisher_range publisher.old }
    ensures number { IfOk result (λ _. published_number publisher.new ≡ published_number publisher.old + 50) }
    ensures told { IfOk result (λ told. told_number told ≡ published_number publisher.old + 50) }
    ensures some { 0 < length watches.new }
{
    let (told, _looked) = join_mut(
        rt,
        &mut || publish_fifty(rt, publisher),
        &mut ||
            requires { 0 < length watches.now }
            ensures { 0 < length watches.exit.now }
        { look_all(rt, watches) },
    );
    told
}

// Publishes a hundred numbers, and tells each reader the fiftieth and the last.
fn publish_hundred<R: Threads + Wait + Sync>(
    rt: &R,
    publisher: &mut Publisher,
    watches: &mut [Watch],
) -> Result<(), NoMemory>
    requires number { published_number publisher.old ≡ 1 }
    requires range { (publisher_range publisher.old).last ≡ 101 }
    requires some { 0 < length watches.old }
{
    let told = publish_beside(rt, publisher, watches)?;
    for watch in &mut *watches {
        watch.learn(&told, 51);
    }
    let told = publish_beside(rt, publisher, watches)?;
    for watch in &mut *watches {
        watch.learn(&told, 101);
        watch.look(rt);
    }
    Ok(())
}

// A watch over each reader.
fn watches_over(alloc: Global, readers: Vec<ConfReader>) -> Result<Vec<Watch>, AllocError>
    requires { All (λ reader. (reader_range reader).last ≡ 101) readers.items }
{
    let mut watches = Vec::new(alloc);
    for reader in readers {
        watches.push(Watch::over(reader))?;
    }
    Ok(watches)
}

// Publishes a hundred numbers. Tells of each reader the greatest number, and whether it then read one below.
fn tell_watches<R: Threads + Wait + Sync>(
    rt: &R,
    alloc: Global,
    publisher: &mut Publisher,
    readers: Vec<ConfReader>,
    told: &mut String,
) -> Result<(), Fail>
    requires number { published_number publisher.old ≡ 1 }
    requires range { (publisher_range publisher.old).last ≡ 101 }
    requires readers { All (λ reader. (reader_range reader).last ≡ 101) readers.items }
{
    let mut watches = watches_over(alloc, readers)?;
    if watches.is_empty() {
        return Err("no reader".into());
    }
    publish_hundred(rt, publisher, &mut watches)?;
    for watch in &watches {
        put(told, &(watch.greatest, watch.fell))?;
    }
    Ok(())
}

#[test]
fn numbers_do_not_fall_beside_a_publisher(rt: HostRuntime) -> Result<(), Fail> {
    let mut told = String::new(rt.alloc());
    let (mut publisher, readers) = Publisher::new(&rt, rt.alloc(), 2, 1, 101)?;
    let watched = tell_watches(&rt, rt.alloc(), &mut publisher, readers, &mut told);
    publisher.close(&rt);
    watched?;
    same(&rt, told.as_str(), "(101, false)\n(101, false)\n");
    Ok(())
}
