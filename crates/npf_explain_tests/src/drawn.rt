// Packets and configurations that are drawn: the rule that is told to decide is the one that a walk through the compiled rules comes to, by the
// packet's bytes, and the map that is told to apply the one that is found for it.
use crate::configs::drawn_config;
use crate::draws::Draws;
use crate::loads::load_text;
use anyhow::{Context, Result, bail, ensure};
use npf_explain::{Explanation, MapTold, RuleTold, explain};
use npf_packet::{Decoded, decode, decoded_is_packet};
use npf_ruleset::{Config, map_for, walk};
use npf_types::limits::MAX_PACKET_BYTES;
use npf_types::{Dir, IfId, Link};
use std::alloc::Global;

/// Asks about so many packets, each under a configuration of its own.
pub fn ask_drawn(alloc: Global, words: &str) -> Result<u64> {
    let (seed, count) = words.split_once(' ').context("no count")?;
    let mut draws = Draws::new(seed.parse::<u64>()?);
    let count = count.parse::<u64>()?;
    for number in 0..count {
        let text = drawn_config(alloc, &mut draws)?;
        ask(alloc, &mut draws, text.as_str()).context(format_args!("draw {number}: {text}"))?;
    }
    Ok(count)
}

fn ask(alloc: Global, draws: &mut Draws, text: &str) -> Result<()> {
    let config = load_text(alloc, text.as_bytes())?;
    let bytes = drawn_packet(alloc, draws)?;
    let dir = if draws.one_in(2) { Dir::In } else { Dir::Out };
    let ifid = IfId(u16::try_from(draws.below(3)).unwrap_or(0));
    compare(alloc, &config, bytes.as_slice(), ifid, dir)
}

fn compare(alloc: Global, config: &Config, bytes: &[u8], ifid: IfId, dir: Dir) -> Result<()> {
    ensure!(bytes.len() <= MAX_PACKET_BYTES, "too long a packet");
    let Decoded::Ip(facts) = decode(Link::Raw, bytes) else {
        bail!("no packet");
    };
    decoded_is_packet();
    if facts.ip_at > facts.end || facts.end as usize > bytes.len() {
        bail!("no places");
    }
    let ip = &bytes[facts.ip_at as usize..facts.end as usize];
    let verdict = walk(config, &facts, ip, ifid, dir);
    let told = explain(alloc, config, &facts, ifid, dir)?;
    ensure!(
        told.decider == verdict.map(|place| place as usize),
        "another decider"
    );
    ensure!(
        deciders(alloc, &told)?.as_slice() == some_place(alloc, told.decider)?.as_slice(),
        "another rule is told"
    );
    let map = map_for(config, &facts, ip, ifid, dir).map(|place| place as usize);
    ensure!(
        appliers(alloc, &told)?.as_slice() == some_place(alloc, map)?.as_slice(),
        "another map is told"
    );
    Ok(())
}

fn some_place(alloc: Global, place: Option<usize>) -> Result<Vec<usize>> {
    let mut places = Vec::new(alloc);
    if let Some(place) = place {
        places.push(place)?;
    }
    Ok(places)
}

/// The places of the rules that are told to decide.
fn deciders(alloc: Global, told: &Explanation) -> Result<Vec<usize>> {
    let mut places = Vec::new(alloc);
    let mut place = 0usize;
    for group in told.groups.as_slice() {
        for rule in group.rules.as_slice() {
            if *rule == RuleTold::Decides {
                places.push(place)?;
            }
            place = place.saturating_add(1);
        }
    }
    Ok(places)
}

fn appliers(alloc: Global, told: &Explanation) -> Result<Vec<usize>> {
    let mut places = Vec::new(alloc);
    for (at, map) in told.maps.as_slice().iter().enumerate() {
        if *map == MapTold::Applies {
            places.push(at)?;
        }
    }
    Ok(places)
}

/// A packet of TCP, UDP or ICMP over IPv4.
fn drawn_packet(alloc: Global, draws: &mut Draws) -> Result<Vec<u8>> {
    let src = drawn_addr(draws);
    let dst = drawn_addr(draws);
    let (protocol, carried) = drawn_carried(alloc, draws)?;
    let len = 20 + (carried.len() % 200) as u8;
    let mut bytes = Vec::new(alloc);
    bytes.extend_from_slice(&[0x45, 0, 0, len, 0, 0, 0, 0, 64, protocol, 0, 0])?;
    bytes.extend_from_slice(&src)?;
    bytes.extend_from_slice(&dst)?;
    bytes.extend_from_slice(carried.as_slice())?;
    Ok(bytes)
}

fn drawn_addr(draws: &mut Draws) -> [u8; 4] {
    match draws.below(6) {
        0 => [10, 0, 0, 1],
        1 => [10, 1, 2, 3],
        2 => [192, 0, 2, 1],
        3 => [192, 0, 2, 200],
        4 => [198, 51, 100, 7],
        _ => [203, 0, 113, 9],
    }
}

fn drawn_carried(alloc: Global, draws: &mut Draws) -> Result<(u8, Vec<u8>)> {
    let mut bytes = Vec::new(alloc);
    if draws.one_in(4) {
        bytes.extend_from_slice(&[draws.byte(&[0, 3, 8]), 0, 0, 0, 0, 0, 0, 0])?;
        return Ok((1, bytes));
    }
    for _ in 0..2 {
        bytes.extend_from_slice(&[draws.byte(&[0, 4]), draws.byte(&[0, 22, 80])])?;
    }
    if draws.one_in(3) {
        bytes.extend_from_slice(&[0, 8, 0, 0])?;
        return Ok((17, bytes));
    }
    let flags = draws.byte(&[2, 16, 18, 4, 1]);
    bytes.extend_from_slice(&[0, 0, 0, 0, 0, 0, 0, 0, 0x50, flags, 0, 0, 0, 0, 0, 0])?;
    Ok((6, bytes))
}
