// How long a packet's walk takes over 1 to 4,096 rules, where the first rule is the one that matches, the last one, or none.
use crate::loaded::loaded;
use crate::packet::{self, Record};
use crate::text::{self, Match};
use anyhow::Error;
use npf_fixtures::work::Work;
use npf_packet::{Decoded, decode, decoded_is_packet};
use npf_ruleset::{Config, walk};
use npf_types::limits::MAX_PACKET_BYTES;
use npf_types::{Dir, IfId, Link};
use std::time::Instant;

/// So many rounds of 64 packets under each number of rules.
pub fn time_walks(rt: &HostRuntime, rounds: u64) -> Result<(), Error> {
    for count in [1u32, 10, 100, 1000, 4096] {
        let text = text::walked(rt.alloc(), count)?;
        let config = loaded(rt.alloc(), text.as_bytes())?;
        time_matches(rt, &config, count, rounds)?;
    }
    Ok(())
}

fn time_matches(rt: &HostRuntime, config: &Config, count: u32, rounds: u64) -> Result<(), Error> {
    for matched in [Match::First, Match::Last, Match::Nowhere] {
        let records = packet::walked(rt.alloc(), matched)?;
        let work = Work {
            size: count.into(),
            name: matched.name(),
            pieces: rounds.saturating_mul(64),
        };
        let start = Instant::now(rt)?;
        let sum = walked(config, &records, rounds.max(1));
        work.say(rt, start, sum)?;
    }
    Ok(())
}

// The places of the rules that decide, counted from 1, summed over so many walks of each packet.
fn walked(config: &Config, records: &[Record], rounds: u64) -> u64 {
    let mut sum = 0u64;
    for record in records {
        sum = sum.wrapping_add(walked_often(config, record.as_slice(), rounds));
    }
    sum
}

fn walked_often(config: &Config, record: &[u8], rounds: u64) -> u64 {
    if record.len() > MAX_PACKET_BYTES {
        return 0;
    }
    let Decoded::Ip(facts) = decode(Link::Raw, record) else {
        return 0;
    };
    decoded_is_packet();
    if facts.ip_at > facts.end || facts.end as usize > record.len() {
        return 0;
    }
    let ip = &record[facts.ip_at as usize..facts.end as usize];
    let mut sum = 0u64;
    for _ in 0..rounds {
        let place = walk(config, &facts, ip, IfId(0), Dir::In);
        sum = sum.wrapping_add(place.map_or(0, |place| u64::from(place) + 1));
    }
    sum
}
