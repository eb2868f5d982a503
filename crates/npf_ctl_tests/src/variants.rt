// Runs of npfctl over variants of one file. An answer is printed once for all variants that follow one another and have it.
use crate::runs::tell_run;
use crate::setting::Setting;
use anyhow::{Context, Result};
use std::alloc::Global;
use std::sync::Wait;
use std::thread::Threads;

/// What makes a file's variant of a number, from 0.
#[derive(Clone, Copy)]
pub enum Change {
    /// It has so many bytes at most.
    Cut,
    /// Its byte at this place is 0xff.
    Spoil,
}

/// Runs npfctl over the variants of a file, `NAME COUNT WORDS`, and prints each answer behind the first and the last number that have it.
pub fn run_variants<R: Print + AllocGlobal + Threads + Wait + Sync>(
    rt: &R,
    setting: &mut Setting,
    change: Change,
    text: &str,
) -> Result<()> {
    let (name, rest) = text.split_once(' ').context("no COUNT WORDS")?;
    let (count, words) = rest.split_once(' ').context("no WORDS")?;
    let count: usize = count.parse()?;
    let whole = setting.folder.bytes(name)?.to_vec(rt.alloc())?;
    let mut first = 0;
    let mut last = String::new(rt.alloc());
    for number in 0..count {
        let bytes = variant(rt.alloc(), &whole, change, number)?;
        setting.folder.begin(name, bytes)?;
        let told = tell_run(rt, setting, words)?;
        if told != last {
            print_numbers(rt, first, number, &last)?;
            first = number;
            last = told;
        }
    }
    print_numbers(rt, first, count, &last)?;
    setting.folder.begin(name, whole)
}

/// The variant of this number.
fn variant(alloc: Global, whole: &[u8], change: Change, number: usize) -> Result<Vec<u8>> {
    let mut bytes = whole.to_vec(alloc)?;
    match change {
        Change::Cut => bytes.truncate(number),
        Change::Spoil => spoil(&mut bytes, number),
    }
    Ok(bytes)
}

fn spoil(bytes: &mut Vec<u8>, place: usize) {
    if let Some(byte) = bytes.get_mut(place) {
        *byte = 0xff;
    }
}

/// Prints what is told of the variants from `first` on, below `end`, if there are any.
fn print_numbers(rt: &impl Print, first: usize, end: usize, told: &str) -> Result<()> {
    if first < end {
        print!(rt; "{first} to {}{told}", end.saturating_sub(1))?;
    }
    Ok(())
}
