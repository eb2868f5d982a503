// Packets as rows write them, from their IP header on. Sums are right (RFC 1071).
use crate::folder::Folder;
use anyhow::{Context, Result, bail};
use std::alloc::{AllocError, Global};
use std::net::{Ipv4Addr, SocketAddrV4};

/// The bytes of a packet: `udp FROM TO`, without payload; `tcp FROM TO FLAGS SEQ ACK WINDOW LEN`, and maybe SHIFT; `echo FROM TO TYPE
/// IDENTIFIER`; or `bytes FILE`, of a file.
pub fn packet(folder: &Folder, alloc: Global, text: &str) -> Result<Vec<u8>> {
    let words: Vec<&str> = text.split_whitespace().collect(alloc)?;
    match *words.as_slice() {
        ["udp", from, to] => Ok(udp(alloc, from.parse()?, to.parse()?)?),
        ["tcp", from, to, ref segment @ ..] => tcp(alloc, from.parse()?, to.parse()?, segment),
        ["echo", from, to, kind, identifier] => {
            let message = echo(alloc, kind.parse()?, identifier.parse()?)?;
            Ok(ipv4(alloc, from.parse()?, to.parse()?, 1, &message)?)
        }
        ["bytes", file] => Ok(folder.bytes(file)?.to_vec(alloc)?),
        _ => bail!("no such packet"),
    }
}

fn udp(alloc: Global, from: SocketAddrV4, to: SocketAddrV4) -> Result<Vec<u8>, AllocError> {
    let mut upper = ports(alloc, from, to)?;
    upper.extend_from_slice(&[0, 8, 0, 0])?;
    summed(alloc, from, to, 17, upper, 6)
}

fn ports(alloc: Global, from: SocketAddrV4, to: SocketAddrV4) -> Result<Vec<u8>, AllocError> {
    let mut bytes = from.port().to_be_bytes().to_vec(alloc)?;
    bytes.extend_from_slice(&to.port().to_be_bytes())?;
    Ok(bytes)
}

/// A segment with so many bytes of payload, whose window is to be scaled by SHIFT, if it is there.
fn tcp(alloc: Global, from: SocketAddrV4, to: SocketAddrV4, segment: &[&str]) -> Result<Vec<u8>> {
    let [flags, seq, ack, window, len, ref shift @ ..] = *segment else {
        bail!("a segment has FLAGS SEQ ACK WINDOW LEN");
    };
    let (seq, ack): (u32, u32) = (seq.parse()?, ack.parse()?);
    let window: u16 = window.parse()?;
    let mut upper = ports(alloc, from, to)?;
    upper.extend_from_slice(&seq.to_be_bytes())?;
    upper.extend_from_slice(&ack.to_be_bytes())?;
    upper.push(if shift.is_empty() { 0x50 } else { 0x60 })?;
    upper.push(parse_flags(flags)?)?;
    upper.extend_from_slice(&window.to_be_bytes())?;
    upper.extend_from_slice(&[0, 0, 0, 0])?;
    if let Some(shift) = shift.first() {
        upper.extend_from_slice(&[3, 3, shift.parse()?, 0])?;
    }
    for _ in 0..len.parse::<u16>()? {
        upper.push(0)?;
    }
    Ok(summed(alloc, from, to, 6, upper, 16)?)
}

/// The control bits that these letters name (RFC 9293 section 3.1).
fn parse_flags(letters: &str) -> Result<u8> {
    let mut flags = 0;
    for letter in letters.chars() {
        flags |= match letter {
            'F' => 0x01,
            'S' => 0x02,
            'R' => 0x04,
            'P' => 0x08,
            'A' => 0x10,
            _ => bail!("no such flag"),
        };
    }
    Ok(flags)
}

/// An echo message of ICMP, of this type.
fn echo(alloc: Global, kind: u8, identifier: u16) -> Result<Vec<u8>, AllocError> {
    let mut upper = vec![in alloc; kind, 0, 0, 0]?;
    upper.extend_from_slice(&identifier.to_be_bytes())?;
    upper.extend_from_slice(&[0, 1])?;
    let sum = checksum(&[upper.as_slice()]);
    put_sum(&mut upper, 2, sum);
    Ok(upper)
}

/// A packet of IPv4 with what it carries, whose sum has its place there and is over the pseudo-header too.
fn summed(
    alloc: Global,
    from: SocketAddrV4,
    to: SocketAddrV4,
    protocol: u8,
    mut upper: Vec<u8>,
    place: usize,
) -> Result<Vec<u8>, AllocError> {
    let [high, low] = ((upper.len() % 65536) as u16).to_be_bytes();
    let (from, to) = (*from.ip(), *to.ip());
    let pseudo = [0, protocol, high, low];
    let sum = checksum(&[&from.octets(), &to.octets(), &pseudo, upper.as_slice()]);
    put_sum(&mut upper, place, if sum == 0 { 0xffff } else { sum });
    ipv4(alloc, from, to, protocol, upper.as_slice())
}

fn ipv4(
    alloc: Global,
    from: Ipv4Addr,
    to: Ipv4Addr,
    protocol: u8,
    upper: &[u8],
) -> Result<Vec<u8>, AllocError> {
    let [high, low] = ((upper.len().saturating_add(20) % 65536) as u16).to_be_bytes();
    let mut bytes = Vec::new(alloc);
    bytes.extend_from_slice(&[0x45, 0, high, low, 0, 0, 0, 0, 64, protocol, 0, 0])?;
    bytes.extend_from_slice(&from.octets())?;
    bytes.extend_from_slice(&to.octets())?;
    let sum = checksum(&[bytes.as_slice()]);
    put_sum(&mut bytes, 10, sum);
    bytes.extend_from_slice(upper)?;
    Ok(bytes)
}

fn put_sum(bytes: &mut Vec<u8>, place: usize, sum: u16) {
    let [high, low] = sum.to_be_bytes();
    if let Some(byte) = bytes.get_mut(place) {
        *byte = high;
    }
    if let Some(byte) = bytes.get_mut(place.saturating_add(1)) {
        *byte = low;
    }
}

/// The Internet checksum of pieces of an even length, but for the last.
fn checksum(pieces: &[&[u8]]) -> u16 {
    let mut total = 0u64;
    for piece in pieces {
        for (place, byte) in piece.iter().enumerate() {
            let shifted = if place % 2 == 0 {
                u64::from(*byte) * 256
            } else {
                u64::from(*byte)
            };
            total = total.wrapping_add(shifted);
        }
    }
    let once = total % 65536 + total / 65536 % 65536;
    let twice = once % 65536 + once / 65536;
    !((twice % 65536) as u16)
}
