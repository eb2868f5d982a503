// How long compiled rules take on packets of UDP, each of which is asked by every rule.
ghost use Rattle.std.specs.Prelude.{false};

use crate::loaded::loaded;
use crate::packet::{self, Record};
use crate::text;
use anyhow::Error;
use npf_bpfvm::{Cop, run};
use npf_fixtures::work::Work;
use npf_ruleset::{Config, FlatRule};
use std::time::Instant;

// What the coprocessor tells of each of the packets; there are no tables.
struct Udp;

impl Cop for Udp {
    ghost tells = { λ packet. record { header = (4, 20, 17); member = λ table source. false } };

    fn header(&self) -> (u32, u32, u32) {
        (4, 20, 17)
    }

    fn member(&self, _table: u32, _source: bool) -> bool {
        false
    }
}

/// So many rounds of 128 packets under 1, 10 and 100 rules.
pub fn time_programs(rt: &HostRuntime, rounds: u64) -> Result<(), Error> {
    for count in [1u32, 10, 100] {
        let text = text::run(rt.alloc(), count)?;
        let config = loaded(rt.alloc(), text.as_bytes())?;
        time_rules(rt, &config, count, rounds)?;
    }
    Ok(())
}

fn time_rules(rt: &HostRuntime, config: &Config, count: u32, rounds: u64) -> Result<(), Error> {
    let packets = packet::run(rt.alloc())?;
    let work = Work {
        size: count.into(),
        name: "rules, compiled",
        pieces: rounds.saturating_mul(128).saturating_mul(count.into()),
    };
    let start = Instant::now(rt)?;
    let accepted = accepted(config.rules(), &packets, rounds.max(1));
    work.say(rt, start, accepted)
}

// How often a rule describes a packet.
fn accepted(rules: &[FlatRule], packets: &[Record], rounds: u64) -> u64 {
    let mut accepted = 0u64;
    for _ in 0..rounds {
        for packet in packets {
            accepted = accepted.wrapping_add(accepting(rules, packet));
        }
    }
    accepted
}

// How many rules describe the packet.
fn accepting(rules: &[FlatRule], packet: &Record) -> u64 {
    let mut accepting = 0u64;
    for rule in rules {
        if run(rule.program(), packet, &Udp) != 0 {
            accepting = accepting.wrapping_add(1);
        }
    }
    accepting
}
