// How long a look takes in a hash map of the library, under no lock on one thread, and under a read-write lock on one and on four.
ghost use Rattle.std.specs.Prelude.{◌<◌};
ghost use Rattle.std.specs.Thread.{IsSync};

use crate::drawn::{Draws, KEYS, Order, key};
use anyhow::Error;
use npf_core::{ConnId, Found};
use npf_fixtures::work::{Work, or_few};
use npf_types::{Key, Way};
use std::alloc::{AllocError, Global};
use std::collections::HashMap;
use std::sync::{RwLock, Wait};
use std::thread::{Threads, join};
use std::time::Instant;

// How many look-ups there are for a count of one, as in a stay of the trie's.
const STAY: u64 = 100;

// How many threads look beside the first.
const OTHERS: u64 = 3;

/// So many hundred look-ups of keys that are held, on one thread and each behind the answer to the one before, under no lock.
pub fn time_map(rt: &HostRuntime, stays: u64) -> Result<(), Error> {
    let map = map_of(rt.alloc())?;
    time_looks(rt, &map, Order::Free, stays)?;
    time_looks(rt, &map, Order::Chained, stays)
}

fn time_looks(
    rt: &HostRuntime,
    map: &HashMap<Key, Found>,
    order: Order,
    stays: u64,
) -> Result<(), Error> {
    let work = Work {
        size: map.len() as u64,
        name: match order {
            Order::Free => "keys, a look in a hash map",
            Order::Chained => "keys, a look in a hash map behind an answer",
        },
        pieces: stays.saturating_mul(STAY),
    };
    let start = Instant::now(rt)?;
    let found = read_some(map, or_few(stays, 10), order);
    work.say(rt, start, found)
}

/// So many hundred look-ups under a read-write lock, on one thread and on four. The host has the clock and the output, and the handle
/// the threads.
pub fn time_locked_map<R: Threads + Wait + Sync>(
    host: &HostRuntime,
    rt: &R,
    stays: u64,
) -> Result<(), Error> {
    let map = RwLock::new(map_of(host.alloc())?);
    time_locked_looks(host, rt, &map, 0, stays)?;
    time_locked_looks(host, rt, &map, OTHERS, stays)
}

fn time_locked_looks<R: Threads + Wait + Sync>(
    host: &HostRuntime,
    rt: &R,
    map: &RwLock<HashMap<Key, Found>>,
    others: u64,
    stays: u64,
) -> Result<(), Error> {
    let work = Work {
        size: KEYS.into(),
        name: if others == 0 {
            "keys, a look under a lock"
        } else {
            "keys, a look of one of four threads under a lock"
        },
        pieces: stays.saturating_mul(STAY),
    };
    let start = Instant::now(host)?;
    let found = read_beside(rt, map, others, or_few(stays, 10));
    work.say(host, start, found)
}

// The keys with their holders.
fn map_of(alloc: Global) -> Result<HashMap<Key, Found>, AllocError> {
    let mut map = HashMap::new(alloc);
    for slot in 0..KEYS {
        let found = Found {
            id: ConnId { slot, inc: 1 },
            way: Way::Forward,
        };
        let _before = map.insert(key(slot), found)?;
    }
    Ok(map)
}

// So many hundred look-ups under no lock. Answers how many keys were found.
fn read_some(map: &HashMap<Key, Found>, stays: u64, order: Order) -> u64 {
    let mut draws = Draws::new(0);
    let mut found = 0u64;
    for _ in 0..stays {
        for _ in 0..STAY {
            if let Some(holder) = map.get(&draws.key()) {
                found = found.wrapping_add(1);
                if order == Order::Chained {
                    draws.wait_for(holder);
                }
            }
        }
    }
    found
}

// So many hundred look-ups, each under the lock.
fn read_locked<R: Wait>(rt: &R, map: &RwLock<HashMap<Key, Found>>, seed: u64, stays: u64) -> u64 {
    let mut draws = Draws::new(seed);
    let mut found = 0u64;
    for _ in 0..stays {
        for _ in 0..STAY {
            if map.read(rt).get(&draws.key()).is_some() {
                found = found.wrapping_add(1);
            }
        }
    }
    found
}

// Look-ups under the lock, beside those of so many other threads. Answers how many keys were found by all.
fn read_beside<R: Threads + Wait + Sync>(
    rt: &R,
    map: &RwLock<HashMap<Key, Found>>,
    others: u64,
    stays: u64,
) -> u64 {
    if others == 0 {
        return read_locked(rt, map, 0, stays);
    }
    let (found, more) = join(
        rt,
        move || read_locked(rt, map, others, stays),
        move ||
            requires { IsSync R.row × (0 < others) }
        { read_beside(rt, map, others - 1, stays) },
    );
    found.wrapping_add(more)
}
