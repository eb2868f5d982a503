// Rows of keys: those of packets, of their answers, and of the ports that a translation draws.

use crate::words::parse_addr;
use anyhow::{Context, Result, anyhow};
use npf_key::{fitting, key_between, key_of, keys_of, named_port, port_key, shares_family};
use npf_types::{Addr, Change, End, Facts, IfId, Key, L4, Segment};
use std::alloc::Global;

pub fn answer(alloc: Global, words: &[&str]) -> Result<String> {
    match *words {
        ["packet", ifid, ref packet @ ..] => {
            key_text(alloc, key_of(&parse_packet(packet)?, IfId(ifid.parse()?)))
        }
        ["answers", ifid, source, destination, ref packet @ ..] => {
            let there = Change {
                src: parse_end(source)?,
                dst: parse_end(destination)?,
                neutral: false,
            };
            let (_, backward) = keys_of(&parse_packet(packet)?, IfId(ifid.parse()?), &there);
            key_text(alloc, backward)
        }
        ["between", ifid, proto, src, sport, dst, dport] => {
            let ifid = IfId(ifid.parse()?);
            let (src, dst) = (parse_addr(src)?, parse_addr(dst)?);
            let (sport, dport) = (sport.parse()?, dport.parse()?);
            key_text(
                alloc,
                key_between(proto.parse()?, src, sport, dst, dport, ifid),
            )
        }
        ["named", addr, end] => named_text(alloc, parse_addr(addr)?, &parse_end(end)?),
        ["port", addr, port] => key_text(alloc, port_key(parse_addr(addr)?, port.parse()?)),
        _ => Err(anyhow!("no such row of a key")),
    }
}

/// A key's five numbers in hexadecimal digits, the first one with all sixteen.
fn key_text(alloc: Global, key: Key) -> Result<String> {
    let Key([first, a, b, c, d]) = key;
    Ok(format!(in alloc; "{first:016x} {a:x} {b:x} {c:x} {d:x}")?)
}

/// What a change names by this end for a packet of the family of `addr`.
fn named_text(alloc: Global, addr: Addr, end: &Option<End>) -> Result<String> {
    match (fitting(addr, end), named_port(end)) {
        (Some(end), Some(port)) if shares_family(addr, end.addr) => {
            Ok(format!(in alloc; "its address and the port {port}")?)
        }
        (Some(end), None) if shares_family(end.addr, addr) => {
            Ok(format!(in alloc; "its address")?)
        }
        (None, _) => Ok(format!(in alloc; "nothing")?),
        _ => Err(anyhow!("an end of another family")),
    }
}

/// A packet, `PROTOCOL SOURCE DESTINATION` and what it carries.
fn parse_packet(words: &[&str]) -> Result<Facts> {
    let [proto, src, dst, ref l4 @ ..] = *words else {
        return Err(anyhow!("a packet is PROTOCOL SOURCE DESTINATION .."));
    };
    Ok(Facts {
        src: parse_addr(src)?,
        dst: parse_addr(dst)?,
        proto: proto.parse()?,
        ip_at: 0,
        l4_at: 20,
        end: 48,
        l4: parse_l4(l4)?,
    })
}

/// What a packet carries: ports, a message of ICMP with an echo's identifier or `-`, or nothing that is known.
fn parse_l4(words: &[&str]) -> Result<L4> {
    match *words {
        ["tcp", sport, dport] => Ok(L4::Tcp {
            sport: sport.parse()?,
            dport: dport.parse()?,
            seg: SYN,
            mss_at: None,
        }),
        ["udp", sport, dport] => Ok(L4::Udp {
            sport: sport.parse()?,
            dport: dport.parse()?,
        }),
        ["icmp", kind, echo] => Ok(L4::Icmp {
            kind: kind.parse()?,
            code: 0,
            echo: parse_echo(echo)?,
        }),
        ["icmp6", kind, echo] => Ok(L4::Icmp6 {
            kind: kind.parse()?,
            code: 0,
            echo: parse_echo(echo)?,
        }),
        [] => Ok(L4::Other),
        _ => Err(anyhow!("no such packet")),
    }
}

const SYN: Segment = Segment {
    flags: 2,
    seq: 1,
    ack: 0,
    win: 1000,
    len: 0,
    scale: None,
};

fn parse_echo(word: &str) -> Result<Option<u16>> {
    match word {
        "-" => Ok(None),
        identifier => Ok(Some(identifier.parse()?)),
    }
}

/// What a translation makes of an end: `-` for nothing, an address, or `ADDRESS,PORT`.
fn parse_end(word: &str) -> Result<Option<End>> {
    if word == "-" {
        return Ok(None);
    }
    let (addr, port) = match word.split_once(',') {
        Some((addr, port)) => (addr, Some(port.parse()?)),
        None => (word, None),
    };
    Ok(Some(End {
        addr: parse_addr(addr)?,
        port,
    }))
}
