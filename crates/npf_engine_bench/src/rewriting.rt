// How long a source translation takes of a segment of TCP over IPv4 and of a datagram of UDP over IPv6, each forth and back in turn.
ghost use Rattle.std.specs.Prelude.{◌≤◌, length, IfSome};
ghost use Rattle.npf_rewrite.specs.Room.{HasRoom};

use anyhow::Error;
use npf_packet::{Decoded, decode};
use npf_rewrite::{decoded_has_room, translate};
use npf_types::limits::MAX_PACKET_BYTES;
use npf_types::{Addr, Change, End, Facts, Link};
use std::time::Instant;

// A segment of 40 bytes from 10.0.0.2:1025 to 198.51.100.7:80.
const SEGMENT: [u8; 40] = [
    0x45, 0, 0, 40, 0, 0, 0, 0, 64, 6, 0, 0, 10, 0, 0, 2, 198, 51, 100, 7, 4, 1, 0, 80, 0, 0, 0, 1,
    0, 0, 0, 0, 0x50, 0x10, 3, 0xe8, 0, 0, 0, 0,
];

// A datagram of 48 bytes from 2001:db8::2 port 5000 to 2001:db8:1::7 port 53.
const DATAGRAM: [u8; 48] = [
    0x60, 0, 0, 0, 0, 8, 17, 64, 0x20, 0x01, 0x0d, 0xb8, 0, 0, 0, 0, 0, 0, 0, 0, 0, 0, 0, 2, 0x20,
    0x01, 0x0d, 0xb8, 0, 1, 0, 0, 0, 0, 0, 0, 0, 0, 0, 7, 0x13, 0x88, 0, 53, 0, 8, 0x12, 0x34,
];

/// So many translations of each; 0 stands for a thousand, with no times told.
pub fn time_rewriting(rt: &HostRuntime, packets: u64) -> Result<(), Error> {
    let (mut segment, mut datagram) = (SEGMENT, DATAGRAM);
    let four = [
        from(Addr::V4(0xcb00_7101), 40_001),
        from(Addr::V4(0x0a00_0002), 1025),
    ];
    let six = [
        from(Addr::V6(0x2001_0db8_ffff_0000_0000_0000_0000_0001), 1024),
        from(Addr::V6(0x2001_0db8_0000_0000_0000_0000_0000_0002), 5000),
    ];
    time_translations(rt, "TCP over IPv4", &mut segment, &four, packets)?;
    time_translations(rt, "UDP over IPv6", &mut datagram, &six, packets)
}

// What gives a packet this source.
fn from(addr: Addr, port: u16) -> Change {
    Change {
        src: Some(End {
            addr,
            port: Some(port),
        }),
        dst: None,
        neutral: false,
    }
}

// Says the sum of the bytes after the translations, and how long one took where so many were asked for.
fn time_translations(
    rt: &HostRuntime,
    name: &str,
    bytes: &mut [u8],
    changes: &[Change; 2],
    packets: u64,
) -> Result<(), Error> {
    let Some(facts) = facts_of(bytes) else {
        return Ok(());
    };
    let start = Instant::now(rt)?;
    let sum = translated(
        bytes,
        &facts,
        changes,
        if packets == 0 { 1000 } else { packets },
    );
    let took = start.elapsed(rt)?.as_nanos();
    if packets == 0 {
        println!(rt; "{name}: bytes of {sum}")?;
    } else {
        println!(rt;
            "{name}: bytes of {sum}, {} ns each",
            took / u128::from(packets)
        )?;
    }
    Ok(())
}

// The facts of a packet without a link header.
fn facts_of(bytes: &[u8]) -> Option<Facts>
    ensures { IfSome result (HasRoom (length bytes.now)) }
{
    decoded_has_room();
    if bytes.len() > MAX_PACKET_BYTES {
        return None;
    }
    match decode(Link::Raw, bytes) {
        Decoded::Ip(facts) => Some(facts),
        _ => None,
    }
}

// The sum of the packet's bytes after so many translations, forth and back in turn.
fn translated(bytes: &mut [u8], facts: &Facts, changes: &[Change; 2], packets: u64) -> u64
    requires { HasRoom (length bytes.old) facts.now }
{
    for i in 0..packets {
        translate(bytes, facts, &changes[(i % 2) as usize]);
    }
    let mut sum = 0u64;
    for byte in &*bytes {
        sum = sum.wrapping_add(u64::from(*byte));
    }
    sum
}
