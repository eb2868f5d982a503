// A small space of packets.
use anyhow::Result;
use npf_types::{Addr, Dir, Facts, IfId, L4, Segment};
use std::alloc::Global;

/// A packet by its facts, and where it passes.
#[derive(Clone, Copy)]
pub struct Packet {
    pub facts: Facts,
    pub ifid: IfId,
    pub dir: Dir,
}

const ADDRESSES: [u32; 4] = [0x0a00_0001, 0x0a01_0203, 0xc000_0201, 0xcb00_7109];

/// All of them: each of four addresses to each, over TCP, UDP and ICMP, at each interface and at none, in and out.
pub fn all_packets(alloc: Global) -> Result<Vec<Packet>> {
    let mut packets = Vec::new(alloc);
    for src in &ADDRESSES {
        for dst in &ADDRESSES {
            for (proto, l4) in &carried() {
                let facts = facts_of(*src, *dst, *proto, *l4);
                put_places(&mut packets, facts)?;
            }
        }
    }
    Ok(packets)
}

fn put_places(packets: &mut Vec<Packet>, facts: Facts) -> Result<()> {
    for number in 0..3u16 {
        for dir in [Dir::In, Dir::Out] {
            packets.push(Packet {
                facts,
                ifid: IfId(number),
                dir,
            })?;
        }
    }
    Ok(())
}

fn carried() -> [(u8, L4); 7] {
    [
        (6, tcp(2)),
        (6, tcp(16)),
        (6, tcp(18)),
        (17, udp()),
        (1, icmp(0)),
        (1, icmp(8)),
        (47, L4::Other),
    ]
}

fn tcp(flags: u8) -> L4 {
    L4::Tcp {
        sport: 1024,
        dport: 80,
        seg: Segment {
            flags,
            seq: 0,
            ack: 0,
            win: 0,
            len: 0,
            scale: None,
        },
        mss_at: None,
    }
}

fn udp() -> L4 {
    L4::Udp {
        sport: 1024,
        dport: 80,
    }
}

fn icmp(kind: u8) -> L4 {
    L4::Icmp {
        kind,
        code: 0,
        echo: None,
    }
}

fn facts_of(src: u32, dst: u32, proto: u8, l4: L4) -> Facts {
    Facts {
        src: Addr::V4(src),
        dst: Addr::V4(dst),
        proto,
        ip_at: 0,
        l4_at: 20,
        end: 40,
        l4,
    }
}
