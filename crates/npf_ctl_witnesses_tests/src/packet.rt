// The packet of a row: `DIR NUMBER SRC DST PROTO`, the number of its interface and then what it carries, `tcp PORT PORT FLAGS`, `udp PORT PORT`,
// `icmp TYPE CODE`, `icmp6 TYPE CODE` or nothing.
use anyhow::{Context, Result, bail};
use npf_products::CellPacket;
use npf_types::{Addr, Dir, Facts, IfId, L4, Segment};
use std::alloc::Global;

pub fn read_packet(alloc: Global, text: &str) -> Result<CellPacket> {
    let words: Vec<&str> = text.split_whitespace().collect(alloc)?;
    let [dir, number, src, dst, proto, carried @ ..] = words.as_slice() else {
        bail!("too few words");
    };
    Ok(CellPacket {
        facts: Facts {
            src: Addr::parse_ascii(src.as_bytes()).context("no source")?,
            dst: Addr::parse_ascii(dst.as_bytes()).context("no destination")?,
            proto: proto.parse::<u8>()?,
            ip_at: 0,
            l4_at: 0,
            end: 0,
            l4: read_carried(carried)?,
        },
        ifid: IfId(number.parse::<u16>()?),
        dir: if *dir == "in" { Dir::In } else { Dir::Out },
    })
}

fn read_carried(words: &[&str]) -> Result<L4> {
    match words {
        ["tcp", sport, dport, flags] => Ok(L4::Tcp {
            sport: sport.parse::<u16>()?,
            dport: dport.parse::<u16>()?,
            seg: Segment {
                flags: flags.parse::<u8>()?,
                seq: 7,
                ack: 7,
                win: 7,
                len: 7,
                scale: Some(7),
            },
            mss_at: Some(7),
        }),
        ["udp", sport, dport] => Ok(L4::Udp {
            sport: sport.parse::<u16>()?,
            dport: dport.parse::<u16>()?,
        }),
        ["icmp", kind, code] => Ok(L4::Icmp {
            kind: kind.parse::<u8>()?,
            code: code.parse::<u8>()?,
            echo: Some(7),
        }),
        ["icmp6", kind, code] => Ok(L4::Icmp6 {
            kind: kind.parse::<u8>()?,
            code: code.parse::<u8>()?,
            echo: None,
        }),
        [] => Ok(L4::Other),
        _ => bail!("no such packet"),
    }
}
