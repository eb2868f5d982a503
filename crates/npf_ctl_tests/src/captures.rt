// The records of captures, and what else of files is made and not written out.
use crate::folder::Folder;
use crate::packets::packet;
use anyhow::{Context, Result, bail};
use std::alloc::Global;

/// The header of a capture, the lowest byte first: of raw packets or Ethernet frames in microseconds, or as it is written of what
/// passed, of raw packets in nanoseconds.
pub fn capture_header(kind: &str) -> Result<[u8; 24]> {
    match kind {
        "raw" => Ok(header(0xd4, 0xc3, 101)),
        "ethernet" => Ok(header(0xd4, 0xc3, 1)),
        "written" => Ok(header(0x4d, 0x3c, 101)),
        _ => bail!("no such capture"),
    }
}

/// A header whose magic number begins with these bytes, of version 2.4, with packets of up to 262,144 bytes of this link.
fn header(first: u8, second: u8, link: u8) -> [u8; 24] {
    [
        first, second, 0xb2, 0xa1, 2, 0, 4, 0, 0, 0, 0, 0, 0, 0, 0, 0, 0, 0, 4, 0, link, 0, 0, 0,
    ]
}

/// The record of a packet: `TIME PACKET`.
pub fn record(folder: &Folder, alloc: Global, text: &str) -> Result<Vec<u8>> {
    let (time, packet_text) = text.split_once(' ').context("> has TIME PACKET")?;
    stamped(alloc, time, packet(folder, alloc, packet_text)?.as_slice())
}

/// The record of an Ethernet frame of at least 60 bytes: `TIME TYPE PACKET`.
pub fn frame(folder: &Folder, alloc: Global, text: &str) -> Result<Vec<u8>> {
    let (time, rest) = text.split_once(' ').context("frame has TIME TYPE PACKET")?;
    let (kind, packet_text) = rest.split_once(' ').context("frame has TYPE PACKET")?;
    let mut frame = vec![in alloc; 2; 12]?;
    frame.extend_from_slice(&u16::from_str_radix(kind, 16)?.to_be_bytes())?;
    frame.extend_from_slice(packet(folder, alloc, packet_text)?.as_slice())?;
    for _ in frame.len()..60 {
        frame.push(0)?;
    }
    stamped(alloc, time, &frame)
}

/// A record at so many seconds, and maybe parts of one: `7` or `7+5`.
fn stamped(alloc: Global, time: &str, packet: &[u8]) -> Result<Vec<u8>> {
    let (seconds, parts) = time.split_once('+').unwrap_or((time, "0"));
    let seconds: u32 = seconds.parse()?;
    let parts: u32 = parts.parse()?;
    let len = ((packet.len() % 65536) as u32).to_le_bytes();
    let mut bytes = seconds.to_le_bytes().to_vec(alloc)?;
    bytes.extend_from_slice(&parts.to_le_bytes())?;
    bytes.extend_from_slice(&len)?;
    bytes.extend_from_slice(&len)?;
    bytes.extend_from_slice(packet)?;
    Ok(bytes)
}

/// So many addresses from 10.0.0.0 on, a line each.
pub fn addresses(alloc: Global, count: &str) -> Result<Vec<u8>> {
    let mut bytes = Vec::new(alloc);
    for i in 0..count.parse::<u32>()? {
        let [_, high, middle, low] = i.to_be_bytes();
        let line = format!(in alloc; "10.{high}.{middle}.{low}\n")?;
        bytes.extend_from_slice(line.as_bytes())?;
    }
    Ok(bytes)
}

/// So many spaces.
pub fn spaces(alloc: Global, count: &str) -> Result<Vec<u8>> {
    Ok(vec![in alloc; b' '; count.parse()?]?)
}
