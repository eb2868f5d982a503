// Rows of stores: the connections of a run as one value, by the law `Datagrams`.
ghost use Rattle.std.specs.Prelude.{◌≡◌, IfOk};
ghost use Rattle.npf_oneturn_store.specs.Store.{phase_of};
ghost use Rattle.npf_oneturn_store.specs.declared.phase.SlotPhase.{SlotPhase};

use crate::datagrams::{Datagrams, Talk};
use crate::replies::Told;
use crate::words::{parse_id, parse_way};
use anyhow::{Context, Result, anyhow};
use npf_core::{ConnId, Found, Held, Reply, Stepped};
use npf_oneturn_store::{SlotPhase, Store, step};
use npf_types::{Key, Way};
use std::alloc::Global;

/// The flow of a connection that starts at second 100.
const FIRST: Talk = Talk {
    answered: false,
    last: 100,
};

pub fn answer(alloc: Global, store: &mut Store<Talk>, words: &[&str]) -> Result<String> {
    match *words {
        ["new", slots] => {
            *store = is_sent(Store::new(alloc, slots.parse()?)?);
            told(alloc, &Reply::Nothing)
        }
        ["fill", many] => Ok(format!(in alloc; "{} in order", fill(store, many.parse()?)?)?),
        ["find", many] => Ok(format!(in alloc; "{} found", find(store, many.parse()?))?),
        ["claim"] => match store.claim() {
            Some(id) => told(alloc, &Reply::ToClaim(id)),
            None => Ok(format!(in alloc; "full")?),
        },
        _ => told(alloc, &reply(store, words)?),
    }
}

// A store goes to another thread where its flows may.
fn is_sent<T: Send>(sent: T) -> T {
    sent
}

fn told(alloc: Global, reply: &Reply<bool>) -> Result<String> {
    Ok(format!(in alloc; "{}", Told(reply))?)
}

fn reply(store: &mut Store<Talk>, words: &[&str]) -> Result<Reply<bool>> {
    match *words {
        ["open", port] => Ok(Reply::ToClaim(open(store, port.parse()?)?)),
        ["holder", key] => Ok(Reply::ToLook(store.holder(parse_key(key)?))),
        ["hold", id, key, way] => {
            let held = hold(store, parse_id(id)?, parse_key(key)?, parse_way(way)?)?;
            Ok(Reply::ToHold(held))
        }
        ["step", id, way, now] => {
            let now = now.parse()?;
            Ok(Reply::ToStep(step::<Datagrams>(store, parse_id(id)?, parse_way(way)?, &now)))
        }
        ["kill", id] => kill(store, parse_id(id)?),
        ["unhold", id, way] => {
            store.unhold(parse_id(id)?, parse_way(way)?);
            Ok(Reply::Nothing)
        }
        _ => Err(anyhow!("no such row of a store")),
    }
}

/// A key, `there:PORT` or `back:PORT`: that of a connection from this port to the name server at 192.0.2.1.
fn parse_key(word: &str) -> Result<Key> {
    match word.split_once(':') {
        Some(("there", port)) => Ok(there(port.parse()?)),
        Some(("back", port)) => Ok(back(port.parse()?)),
        _ => Err(anyhow!("a key is there:PORT or back:PORT")),
    }
}

fn there(port: u64) -> Key {
    Key([17, port, 53, 0x0a00_0001, 0xc000_0201])
}

fn back(port: u64) -> Key {
    Key([17, 53, port, 0xc000_0201, 0x0a00_0001])
}

/// A connection with its keys, started at second 100.
fn open(store: &mut Store<Talk>, port: u64) -> Result<ConnId> {
    let id = store.claim().context("each slot is claimed")?;
    let _forward = store.hold(id, there(port), Way::Forward);
    let _backward = store.hold(id, back(port), Way::Backward);
    store.start(id, FIRST);
    Ok(id)
}

fn hold(store: &mut Store<Talk>, id: ConnId, key: Key, way: Way) -> Result<Held> {
    match (store.phase(id), store.held(id, way)) {
        (SlotPhase::Vacant, _) => Err(anyhow!("not claimed")),
        (_, Some(_)) => Err(anyhow!("it holds a key of that way")),
        (_, None) => Ok(store.hold(id, key, way)),
    }
}

fn kill(store: &mut Store<Talk>, id: ConnId) -> Result<Reply<bool>> {
    match store.phase(id) {
        SlotPhase::Vacant | SlotPhase::Dead => Err(anyhow!("neither building nor live")),
        SlotPhase::Building | SlotPhase::Live { .. } => {
            store.kill(id);
            Ok(Reply::Nothing)
        }
    }
}

/// The port of the connection in this slot of a store that is filled. An odd factor visits each port once, in no order.
fn port_of(slot: u32) -> u64 {
    u64::from(slot.wrapping_mul(40_503) % 65_536)
}

/// Opens so many connections, and counts those that have the next slot.
fn fill(store: &mut Store<Talk>, many: u32) -> Result<u32> {
    let mut in_order = 0u32;
    for slot in 0..many {
        if open(store, port_of(slot))? == (ConnId { slot, inc: 1 }) {
            in_order = in_order.wrapping_add(1);
        }
    }
    Ok(in_order)
}

/// Steps the first of so many connections in order, and counts those whose keys are found, and whose step is the first.
fn find(store: &mut Store<Talk>, many: u32) -> u32 {
    let mut found = 0u32;
    for slot in 0..many {
        if is_found(store, ConnId { slot, inc: 1 }) {
            found = found.wrapping_add(1);
        }
    }
    found
}

fn is_found(store: &mut Store<Talk>, id: ConnId) -> bool {
    let port = port_of(id.slot);
    let forward = Found {
        id,
        way: Way::Forward,
    };
    let backward = Found {
        id,
        way: Way::Backward,
    };
    let first = Stepped::Done {
        reply: false,
        place: 1,
    };
    store.holder(there(port)) == Some(forward)
        && store.holder(back(port)) == Some(backward)
        && step::<Datagrams>(store, id, Way::Backward, &101) == first
}
