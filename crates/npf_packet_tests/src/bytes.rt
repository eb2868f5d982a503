// Words of rows.
ghost use Rattle.std.specs.Prelude.{◌≤◌, length, IfOk};

use anyhow::{Result, anyhow, ensure};
use npf_types::Link;
use npf_types::limits::MAX_PACKET_BYTES;
use std::alloc::Global;

pub fn parse_link(word: &str) -> Result<Link> {
    match word {
        "raw" => Ok(Link::Raw),
        "ethernet" => Ok(Link::Ethernet),
        _ => Err(anyhow!("a link is raw or ethernet")),
    }
}

/// The bytes that the hexadecimal digits of all words write.
pub fn parse_bytes(alloc: Global, words: &[&str]) -> Result<Vec<u8>> {
    Ok(hex::decode(alloc, words.concat(alloc)?)?)
}

/// The same of a packet.
pub fn parse_packet(alloc: Global, words: &[&str]) -> Result<Vec<u8>>
    ensures { IfOk result (λ packet. length packet.items ≤ MAX_PACKET_BYTES) }
{
    let packet = parse_bytes(alloc, words)?;
    ensure!(packet.len() <= MAX_PACKET_BYTES, "too long for a packet");
    Ok(packet)
}
