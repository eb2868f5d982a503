// Packets of the tests, from the IP header on. Their checksums of TCP and UDP are none, since nothing reads them. Their bytes are never let
// go: no capture has them.
use npf_runner::{Packet, PacketBytes};
use npf_types::{Dir, IfId, Link};
use std::alloc::{AllocError, Global};

// IPv4 from 10.0.0.1 to 192.0.2.1, with TCP from port 1024 to port 80: a SYN with the sequence number 1.
const SYN: [u8; 40] = [
    0x45, 0, 0, 40, 0, 0, 0, 0, 64, 6, 0, 0, 10, 0, 0, 1, 192, 0, 2, 1, // IPv4
    4, 0, 0, 80, 0, 0, 0, 1, 0, 0, 0, 0, 0x50, 0x02, 0xff, 0xff, 0, 0, 0, 0, // TCP
];

// IPv4 from 10.0.0.1 to 192.0.2.1, with UDP from port 1024 to port 53, and the same from 10.0.0.2.
const DATAGRAM: [u8; 28] = [
    0x45, 0, 0, 28, 0, 0, 0, 0, 64, 17, 0, 0, 10, 0, 0, 1, 192, 0, 2, 1, // IPv4
    4, 0, 0, 53, 0, 8, 0, 0, // UDP
];

const OTHER_DATAGRAM: [u8; 28] = [
    0x45, 0, 0, 28, 0, 0, 0, 0, 64, 17, 0, 0, 10, 0, 0, 2, 192, 0, 2, 1, // IPv4
    4, 0, 0, 53, 0, 8, 0, 0, // UDP
];

/// The same SYN twice.
pub fn syns<'a>(alloc: Global) -> Result<Vec<Packet<'a>>, AllocError> {
    both(alloc, &SYN, &SYN)
}

/// Datagrams of two flows.
pub fn datagrams<'a>(alloc: Global) -> Result<Vec<Packet<'a>>, AllocError> {
    both(alloc, &DATAGRAM, &OTHER_DATAGRAM)
}

/// The first of these datagrams.
pub fn one_datagram<'a>(alloc: Global) -> Result<Vec<Packet<'a>>, AllocError> {
    let mut packets = Vec::new(alloc);
    packets.push(incoming(1, DATAGRAM.to_vec(alloc)?))?;
    Ok(packets)
}

/// Datagrams of so many flows, each from an address of its own.
pub fn datagrams_of<'a>(alloc: Global, flows: u8) -> Result<Vec<Packet<'a>>, AllocError> {
    let mut packets = Vec::new(alloc);
    for flow in 0..flows {
        let mut bytes = DATAGRAM;
        bytes[15] = flow;
        packets.push(incoming(1, bytes.to_vec(alloc)?))?;
    }
    Ok(packets)
}

fn both<'a>(alloc: Global, first: &[u8], second: &[u8]) -> Result<Vec<Packet<'a>>, AllocError> {
    let mut packets = Vec::new(alloc);
    packets.push(incoming(1, first.to_vec(alloc)?))?;
    packets.push(incoming(2, second.to_vec(alloc)?))?;
    Ok(packets)
}

fn incoming<'a>(time: u64, bytes: Vec<u8>) -> Packet<'a> {
    Packet {
        time,
        link: Link::Raw,
        ifid: IfId(1),
        dir: Dir::In,
        held: None,
        bytes: PacketBytes::of(bytes.leak()),
    }
}
