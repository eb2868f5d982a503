// The packet of a row: `DIR INTERFACE tcp SRC PORT DST PORT FLAGS`, `.. udp SRC PORT DST PORT`, `.. icmp SRC DST TYPE CODE`, `.. icmp6` alike, or
// `.. NUMBER SRC DST` of another protocol. Flags are the sum of their bits, as F is 1, S 2, R 4 and A 16.
use anyhow::{Context, Result, bail};
use npf_types::{Addr, Dir, Facts, IfId, L4, Segment};
use std::alloc::Global;

/// A packet by its facts, and where it passes.
#[derive(Clone, Copy)]
pub struct Packet {
    pub facts: Facts,
    pub ifid: IfId,
    pub dir: Dir,
}

impl Packet {
    pub fn none() -> Packet {
        Packet {
            facts: facts_of(Addr::V4(0), Addr::V4(0), 255, L4::Other),
            ifid: IfId::UNKNOWN,
            dir: Dir::In,
        }
    }
}

pub fn read_packet(alloc: Global, text: &str) -> Result<Packet> {
    let words: Vec<&str> = text.split_whitespace().collect(alloc)?;
    let [dir, interface, protocol, ends @ ..] = words.as_slice() else {
        bail!("too few words");
    };
    Ok(Packet {
        facts: read_facts(protocol, ends)?,
        ifid: interface_number(interface),
        dir: read_dir(dir)?,
    })
}

fn read_dir(word: &str) -> Result<Dir> {
    match word {
        "in" => Ok(Dir::In),
        "out" => Ok(Dir::Out),
        _ => bail!("no direction"),
    }
}

/// The number of wm0 and wm1, which are the run's interfaces.
fn interface_number(name: &str) -> IfId {
    match name {
        "wm0" => IfId(1),
        "wm1" => IfId(2),
        _ => IfId::UNKNOWN,
    }
}

fn read_facts(protocol: &str, ends: &[&str]) -> Result<Facts> {
    match (protocol, ends) {
        ("tcp", [src, sport, dst, dport, flags]) => {
            let l4 = tcp(
                sport.parse::<u16>()?,
                dport.parse::<u16>()?,
                flags.parse::<u8>()?,
            );
            Ok(facts_of(read_addr(src)?, read_addr(dst)?, 6, l4))
        }
        ("udp", [src, sport, dst, dport]) => {
            let l4 = L4::Udp {
                sport: sport.parse::<u16>()?,
                dport: dport.parse::<u16>()?,
            };
            Ok(facts_of(read_addr(src)?, read_addr(dst)?, 17, l4))
        }
        ("icmp", [src, dst, kind, code]) => {
            let l4 = L4::Icmp {
                kind: kind.parse::<u8>()?,
                code: code.parse::<u8>()?,
                echo: None,
            };
            Ok(facts_of(read_addr(src)?, read_addr(dst)?, 1, l4))
        }
        ("icmp6", [src, dst, kind, code]) => {
            let l4 = L4::Icmp6 {
                kind: kind.parse::<u8>()?,
                code: code.parse::<u8>()?,
                echo: None,
            };
            Ok(facts_of(read_addr(src)?, read_addr(dst)?, 58, l4))
        }
        (number, [src, dst]) => {
            let proto = number.parse::<u8>()?;
            Ok(facts_of(read_addr(src)?, read_addr(dst)?, proto, L4::Other))
        }
        _ => bail!("no such packet"),
    }
}

fn read_addr(text: &str) -> Result<Addr> {
    Addr::parse_ascii(text.as_bytes()).context("no address")
}

/// A segment with these ports and flags.
pub fn tcp(sport: u16, dport: u16, flags: u8) -> L4 {
    L4::Tcp {
        sport,
        dport,
        seg: Segment {
            flags,
            seq: 0,
            ack: 0,
            win: 0,
            len: 0,
            scale: None,
        },
        mss_at: None,
    }
}

fn facts_of(src: Addr, dst: Addr, proto: u8, l4: L4) -> Facts {
    Facts {
        src,
        dst,
        proto,
        ip_at: 0,
        l4_at: 20,
        end: 40,
        l4,
    }
}
