// The flows of the keys' connections, and how long a packet's step takes of flows in a hash map of the library.
use crate::drawn::{Draws, KEYS, key};
use anyhow::Error;
use npf_core::Law;
use npf_fixtures::work::{Work, or_few};
use npf_flow::{Flow, FlowArg, FlowLaw, FlowSettings, open_flow};
use npf_types::{Action, Change, Key, Way};
use std::alloc::{AllocError, Global};
use std::collections::HashMap;
use std::time::Instant;

/// What each packet brings.
pub const PACKET: FlowArg = FlowArg {
    now: 1,
    seg: None,
    peek: false,
};

const UNCHANGED: Change = Change {
    src: None,
    dst: None,
    neutral: false,
};

const NOTHING: Action = Action {
    min_ttl: None,
    max_mss: None,
    no_df: false,
    log: None,
};

/// The flow of a key's connection.
pub fn flow(number: u32) -> Flow {
    open_flow(
        PACKET,
        FlowSettings::DEFAULT,
        u64::from(number),
        UNCHANGED,
        UNCHANGED,
        NOTHING,
    )
}

/// Steps a flow for each of so many packets.
pub fn time_flows(rt: &HostRuntime, packets: u64) -> Result<(), Error> {
    let mut flows = flows_of(rt.alloc())?;
    let work = Work {
        size: KEYS.into(),
        name: "flows in a hash map",
        pieces: packets,
    };
    let start = Instant::now(rt)?;
    let passed = step_flows(&mut flows, or_few(packets, KEYS.into()));
    work.say(rt, start, passed)
}

fn flows_of(alloc: Global) -> Result<HashMap<Key, Flow>, AllocError> {
    let mut flows = HashMap::new(alloc);
    for number in 0..KEYS {
        let _before = flows.insert(key(number), flow(number))?;
    }
    Ok(flows)
}

// How many packets pass.
fn step_flows(flows: &mut HashMap<Key, Flow>, packets: u64) -> u64 {
    let mut draws = Draws::new(0);
    let mut passed = 0u64;
    for _ in 0..packets {
        if let Some(flow) = flows.get_mut(&draws.key()) {
            let (next, reply) = FlowLaw::step(flow, Way::Forward, &PACKET);
            *flow = next;
            if reply.pass {
                passed = passed.wrapping_add(1);
            }
        }
    }
    passed
}
