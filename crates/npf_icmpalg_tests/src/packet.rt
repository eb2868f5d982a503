// Packets by their hexadecimal digits, and the changes that are made in them.
ghost use Rattle.std.specs.Prelude.{◌≡◌, ◌≤◌, length, IfOk};
ghost use Rattle.npf_rewrite.specs.Room.{HasRoom};

use anyhow::{Result, anyhow, ensure};
use npf_icmpalg::{Inner, inner_of, translate_error};
use npf_packet::{Decoded, decode};
use npf_rewrite::decoded_has_room;
use npf_types::limits::MAX_PACKET_BYTES;
use npf_types::{Addr, Change, End, Facts, Link};
use std::alloc::Global;

/// 198.51.100.7 tells 203.0.113.1 that its port 53 is unreachable, of a datagram from port 40000.
pub const UNREACHABLE_UDP: &str = concat!(
    "450000380000000040011489c6336407cb0071010303635300000000",
    "4500001c0000000040111495cb007101c63364079c4000350008fd2b",
);

/// 192.0.2.9 tells 203.0.113.1 that a segment to 198.51.100.7 lived too long.
pub const TIME_EXCEEDED: &str = concat!(
    "450000440000000040017caec0000209cb0071010b005b5700000000",
    "450000280000000040061494cb007101c6336407040001bb000003e800000000500203e83c1b0000",
);

/// 198.51.100.7 tells 203.0.113.1 that it is unreachable, of an echo with the identifier 1024.
pub const UNREACHABLE_ECHO: &str = concat!(
    "450000380000000040011489c6336407cb0071010301fcfe00000000",
    "4500001c00000000400114a5cb007101c63364070800f3fe04000001",
);

/// 2001:db8:9::1 tells 2001:db8:1::2 that a datagram to 2001:db8:9::7 is too big.
pub const TOO_BIG_UDP6: &str = concat!(
    "6000000000383a4020010db8000900000000000000000001",
    "20010db8000100000000000000000002",
    "020030df000000006000000000081140",
    "20010db800010000000000000000000220010db8000900000000000000000007",
    "040000350008a024",
);

/// The bytes that the digits write.
pub fn parse_packet(alloc: Global, digits: &str) -> Result<Vec<u8>>
    ensures { IfOk result (λ packet. length packet.items ≤ MAX_PACKET_BYTES) }
{
    let packet = hex::decode(alloc, digits)?;
    ensure!(packet.len() <= MAX_PACKET_BYTES, "too long for a packet");
    Ok(packet)
}

/// The facts of a packet.
pub fn facts_of(link: Link, bytes: &[u8]) -> Result<Facts>
    requires { length bytes.now ≤ MAX_PACKET_BYTES }
    ensures { IfOk result (HasRoom (length bytes.now)) }
{
    decoded_has_room();
    match decode(link, bytes) {
        Decoded::Ip(facts) => Ok(facts),
        _ => Err(anyhow!("no packet that is looked into")),
    }
}

/// What the packet quotes.
pub fn quoted(alloc: Global, digits: &str) -> Result<Option<Inner>> {
    let bytes = parse_packet(alloc, digits)?;
    let facts = facts_of(Link::Raw, &bytes)?;
    Ok(inner_of(&bytes, &facts))
}

/// Whether the packet quotes one where this byte is put at a place.
pub fn quotes_with(alloc: Global, digits: &str, at: usize, value: u8) -> Result<bool> {
    let mut bytes = parse_packet(alloc, digits)?;
    match bytes.get_mut(at) {
        Some(byte) => *byte = value,
        None => return Err(anyhow!("no such place")),
    }
    let facts = facts_of(Link::Raw, &bytes)?;
    Ok(inner_of(&bytes, &facts).is_some())
}

/// The digits of the error once the change is made.
pub fn translated(alloc: Global, digits: &str, change: &Change) -> Result<String> {
    let mut bytes = parse_packet(alloc, digits)?;
    let facts = facts_of(Link::Raw, &bytes)?;
    let Some(inner) = inner_of(&bytes, &facts) else {
        return Err(anyhow!("no error that quotes a packet"));
    };
    translate_error(&mut bytes, &facts, &inner, change);
    Ok(hex::encode(alloc, &bytes)?)
}

/// An end with a port or an identifier.
pub fn end(addr: Addr, port: u16) -> Option<End> {
    Some(End {
        addr,
        port: Some(port),
    })
}

/// A change of the destination.
pub fn to(dst: Option<End>) -> Change {
    Change {
        src: None,
        dst,
        neutral: false,
    }
}
