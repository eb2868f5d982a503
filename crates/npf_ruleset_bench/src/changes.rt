// How long it takes to make, change and copy a table of 131,072 prefixes.
use crate::draws::{Draws, PREFIXES, SEED, Sort};
use anyhow::Error;
use npf_fixtures::work::Work;
use npf_lpm::Lpm;
use npf_types::{NoMemory, Prefix};
use std::time::Instant;

/// A table made once, and so many changes of each kind.
pub fn time_changes(rt: &HostRuntime, changes: u64) -> Result<(), Error> {
    let mut draws = Draws { state: !SEED };
    let prefixes = draws.prefixes(rt.alloc(), Sort::RandomV4, PREFIXES)?;
    let count = u32::try_from(changes.max(1)).unwrap_or(u32::MAX);
    let more = draws.prefixes(rt.alloc(), Sort::RandomV4, count)?;
    let mut table = time_making(rt, &prefixes, changes)?;
    time_insertions(rt, &mut table, &more, changes)?;
    time_removals(rt, &mut table, &more, changes)?;
    time_copies(rt, &table, changes)
}

fn time_making(rt: &HostRuntime, prefixes: &[Prefix], changes: u64) -> Result<Lpm, Error> {
    let start = Instant::now(rt)?;
    let table = Lpm::of_prefixes(rt.alloc(), prefixes)?;
    let work = Work {
        size: PREFIXES.into(),
        name: "prefixes, a table made",
        pieces: changes.min(1),
    };
    work.say(rt, start, table.len())?;
    Ok(table)
}

fn time_insertions(
    rt: &HostRuntime,
    table: &mut Lpm,
    more: &[Prefix],
    changes: u64,
) -> Result<(), Error> {
    let work = Work {
        size: table.len(),
        name: "prefixes, one put in",
        pieces: changes,
    };
    let start = Instant::now(rt)?;
    insert(table, more)?;
    work.say(rt, start, table.len())
}

fn insert(table: &mut Lpm, more: &[Prefix]) -> Result<(), NoMemory> {
    for prefix in more {
        let _added = table.insert(*prefix)?;
    }
    Ok(())
}

fn time_removals(
    rt: &HostRuntime,
    table: &mut Lpm,
    more: &[Prefix],
    changes: u64,
) -> Result<(), Error> {
    let work = Work {
        size: table.len(),
        name: "prefixes, one taken out",
        pieces: changes,
    };
    let start = Instant::now(rt)?;
    for prefix in more {
        let _removed = table.remove(*prefix);
    }
    work.say(rt, start, table.len())
}

fn time_copies(rt: &HostRuntime, table: &Lpm, changes: u64) -> Result<(), Error> {
    let work = Work {
        size: table.len(),
        name: "prefixes, a copy",
        pieces: changes,
    };
    let start = Instant::now(rt)?;
    let copied = copied(table, changes.max(1))?;
    work.say(rt, start, copied)
}

// The prefixes of so many copies.
fn copied(table: &Lpm, copies: u64) -> Result<u64, NoMemory> {
    let mut copied = 0u64;
    for _ in 0..copies {
        copied = copied.wrapping_add(table.copy()?.len());
    }
    Ok(copied)
}
