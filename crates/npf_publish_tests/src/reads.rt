// What each call is answered.
ghost use Rattle.std.specs.Prelude.{◌≡◌, ◌+◌, ◌<◌, ◌≤◌, ◌^◌};
ghost use Rattle.npf_publish.specs.ConfReader.{reader_range};
ghost use Rattle.npf_publish.specs.Publisher.{published_number, publisher_range};

use crate::answers::{put, same};
use npf_publish::{ConfReader, Publisher};
use std::alloc::Global;
use std::sync::Wait;
use std::test::Fail;

// What one reader reads at first, after the next number is published, and after it was told that number.
fn tell_three<R: Wait>(
    rt: &R,
    publisher: &mut Publisher,
    reader: &mut ConfReader,
    told: &mut String,
) -> Result<(), Fail>
    requires room { published_number publisher.old < (publisher_range publisher.old).last }
    requires same { (reader_range reader.old).last ≡ (publisher_range publisher.old).last }
{
    let first = reader.read(rt);
    let news = publisher.publish(rt)?;
    let second = reader.read(rt);
    reader.learn(&news);
    put(told, &(first, second, reader.read(rt)))
}

// How many readers a publisher has, and what the last of them reads while the second of two numbers is published.
fn tell_readers<R: Wait>(
    rt: &R,
    alloc: Global,
    readers: u32,
    first: u64,
    told: &mut String,
) -> Result<(), Fail>
    requires readers { (0 < readers) × (readers ≤ 64) }
    requires next { first + 1 < 2 ^ 64 }
{
    let (mut publisher, mut made) = Publisher::new(rt, alloc, readers, first, first + 1)?;
    let count = made.len();
    let read = match made.pop() {
        Some(mut reader) => tell_three(rt, &mut publisher, &mut reader, told),
        None => Err("no reader".into()),
    };
    publisher.close(rt);
    read?;
    put(told, &count)
}

// What each reader reads, twice.
fn tell_twice<R: Wait>(rt: &R, readers: &mut [ConfReader], told: &mut String) -> Result<(), Fail> {
    for reader in readers {
        put(told, &(reader.read(rt), reader.read(rt)))?;
    }
    Ok(())
}

// What two readers of one number read.
fn tell_one_number<R: Wait>(rt: &R, alloc: Global, told: &mut String) -> Result<(), Fail> {
    let (publisher, mut readers) = Publisher::new(rt, alloc, 2, 7, 7)?;
    let read = tell_twice(rt, &mut readers, told);
    publisher.close(rt);
    read
}

#[test]
fn every_call_is_answered(rt: HostRuntime) -> Result<(), Fail> {
    let mut told = String::new(rt.alloc());
    tell_readers(&rt, rt.alloc(), 1, 0, &mut told)?;
    tell_readers(&rt, rt.alloc(), 64, 0, &mut told)?;
    tell_readers(&rt, rt.alloc(), 3, u64::MAX - 1, &mut told)?;
    tell_one_number(&rt, rt.alloc(), &mut told)?;
    same(
        &rt,
        told.as_str(),
        "(0, 1, 1)
1
(0, 1, 1)
64
(18446744073709551614, 18446744073709551615, 18446744073709551615)
3
(7, 7)
(7, 7)
",
    );
    Ok(())
}
