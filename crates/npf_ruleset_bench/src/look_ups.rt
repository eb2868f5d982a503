// How long look-ups take in tables of 131,072 prefixes.
use crate::draws::{Draws, PREFIXES, SEED, Sort};
use anyhow::Error;
use npf_fixtures::work::Work;
use npf_lpm::Lpm;
use npf_types::{Addr, NoMemory, Prefix};
use std::alloc::Global;
use std::time::Instant;

// So many addresses are looked up in turn, half of them in listed prefixes.
const ADDRESSES: u64 = 65_536;

/// So many look-ups in a table of each sort.
pub fn time_look_ups(rt: &HostRuntime, look_ups: u64) -> Result<(), Error> {
    for sort in [
        Sort::RandomV4,
        Sort::RoutesV4,
        Sort::RandomV6,
        Sort::ClusteredV6,
    ] {
        time_sort(rt, sort, look_ups)?;
    }
    Ok(())
}

fn time_sort(rt: &HostRuntime, sort: Sort, look_ups: u64) -> Result<(), Error> {
    let Listed { table, addrs } = Listed::of(rt.alloc(), sort)?;
    let rounds = look_ups.div_ceil(ADDRESSES);
    let work = Work {
        size: table.len(),
        name: sort.name(),
        pieces: rounds.saturating_mul(ADDRESSES),
    };
    let start = Instant::now(rt)?;
    let found = found(&table, &addrs, rounds.max(1));
    work.say(rt, start, found)
}

// A table, and addresses to be looked up in it.
#[derive(Drop)]
struct Listed {
    table: Lpm,
    addrs: Vec<Addr>,
}

impl Listed {
    fn of(alloc: Global, sort: Sort) -> Result<Listed, NoMemory> {
        let mut draws = Draws { state: SEED };
        let blocks = draws.prefixes(alloc, sort, PREFIXES)?;
        let table = Lpm::of_prefixes(alloc, &blocks)?;
        let addrs = addresses(alloc, &mut draws, sort, &blocks)?;
        Ok(Listed { table, addrs })
    }
}

fn addresses(
    alloc: Global,
    draws: &mut Draws,
    sort: Sort,
    blocks: &[Prefix],
) -> Result<Vec<Addr>, NoMemory> {
    let mut addrs = Vec::new(alloc);
    for at in 0..ADDRESSES {
        let place = draws.next() >> 8;
        match blocks.get(place as usize % blocks.len().max(1)) {
            Some(block) if at % 2 == 0 => addrs.push(draws.inside(block))?,
            _ => addrs.push(draws.addr(sort))?,
        }
    }
    Ok(addrs)
}

// How many of the addresses are found, each as often.
fn found(table: &Lpm, addrs: &[Addr], rounds: u64) -> u64 {
    let mut found = 0u64;
    for _ in 0..rounds {
        for addr in addrs {
            found = found.wrapping_add(u64::from(table.contains(*addr)));
        }
    }
    found
}
