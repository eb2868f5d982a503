// What is held against each other.
use crate::packets::Packet;
use anyhow::Result;
use npf_explain::explain;
use npf_judge::Deciders;
use npf_products::CellPacket;
use npf_ruleset::Config;
use std::alloc::Global;

/// The rules that an answer names, and none, each with its packet.
#[derive(Drop)]
pub struct Found {
    pairs: Vec<(Option<usize>, Packet)>,
}

impl Found {
    pub fn of(alloc: Global, answer: &Deciders) -> Result<Found> {
        let mut pairs = Vec::new(alloc);
        for (place, found) in answer.rules.iter().enumerate() {
            if let Some(packet) = found {
                pairs.push((Some(place), packet_of(packet)))?;
            }
        }
        if let Some(packet) = &answer.none {
            pairs.push((None, packet_of(packet)))?;
        }
        Ok(Found { pairs })
    }

    pub fn pairs(&self) -> &[(Option<usize>, Packet)] {
        self.pairs.as_slice()
    }

    pub fn has(&self, rule: Option<usize>) -> bool {
        self.pairs.iter().any(|pair| pair.0 == rule)
    }
}

fn packet_of(packet: &CellPacket) -> Packet {
    Packet {
        facts: packet.facts,
        ifid: packet.ifid,
        dir: packet.dir,
    }
}

/// The place of the rule that decides on the packet.
pub fn decider(alloc: Global, config: &Config, packet: &Packet) -> Result<Option<usize>> {
    let told = explain(alloc, config, &packet.facts, packet.ifid, packet.dir)?;
    Ok(told.decider)
}
