// Runs whose fragments are put together: what becomes of each packet, with one worker and with several. Headers are written by
// digits, as RFC 791 section 3.1 and RFC 8200 section 4.5 lay them out, and data are zero bytes; sums of datagrams were reckoned by
// hand. Each test gives the same answers whatever the schedule.
ghost use Rattle.std.specs.Prelude.{◌≤◌, All, IfOk};
ghost use Rattle.npf_traffic.specs.Packet.{IsShortPacket};

use anyhow::Result;
use npf_pieces::DatagramBytes;
use npf_reass_run::reassemble;
use npf_traffic::{FragWhy, Packet, PacketBytes};
use npf_types::limits::MAX_PACKET_BYTES;
use npf_types::{Dir, IfId, Link, NoMemory};
use std::alloc::Global;
use std::fmt::Write;
use std::sync::Wait;
use std::thread::Threads;

/// A packet by the digits in front of so many zero bytes.
#[derive(Clone, Copy)]
struct Given {
    time: u64,
    ifid: IfId,
    dir: Dir,
    link: Link,
    digits: &'static str,
    zeros: usize,
}

/// Packets, and a line for each: why it is held, or its link and its bytes without the zero bytes at their end, and how many those are.
struct Row {
    case: &'static str,
    given: &'static [Given],
    told: &'static str,
}

const SECOND: u64 = 1_000_000_000;

/// The first 16 bytes of data of a UDP datagram from 10.0.0.1:5000 to 192.0.2.1:53 with 16 zero bytes of payload, in its first second.
const A: Given = Given {
    time: SECOND,
    ifid: IfId(0),
    dir: Dir::In,
    link: Link::Raw,
    digits: "450000240000200040118ec70a000001c00002011388003500180001",
    zeros: 8,
};

/// Its other 8.
const B: Given = Given {
    digits: "4500001c000000024011aecd0a000001c0000201",
    ..A
};

const ROWS: &[Row] = &[
    Row {
        case: "two pieces in their order",
        given: &[
            A,
            Given {
                time: 2 * SECOND,
                ..B
            },
        ],
        told: "held\n2000000000 raw 4500002c000000004011aebf0a000001c00002011388003500180001 16\n",
    },
    Row {
        case: "the last piece first",
        given: &[
            B,
            Given {
                time: 2 * SECOND,
                ..A
            },
        ],
        told: "held\n2000000000 raw 4500002c000000004011aebf0a000001c00002011388003500180001 16\n",
    },
    Row {
        case: "a piece that shares 8 bytes",
        given: &[
            A,
            Given {
                digits: "450000240000000140118ec70a000001c0000201",
                zeros: 16,
                ..A
            },
        ],
        told: "overlap\noverlap\n",
    },
    Row {
        case: "30 seconds later",
        given: &[
            A,
            Given {
                time: 31 * SECOND,
                ..B
            },
        ],
        told: "held\nheld\n",
    },
    Row {
        case: "a nanosecond less",
        given: &[
            A,
            Given {
                time: 31 * SECOND - 1,
                ..B
            },
        ],
        told: "held\n30999999999 raw 4500002c000000004011aebf0a000001c00002011388003500180001 16\n",
    },
    Row {
        case: "a late piece begins a set",
        given: &[
            A,
            Given {
                time: 31 * SECOND,
                ..A
            },
            Given {
                time: 32 * SECOND,
                ..B
            },
        ],
        told: "held\nheld\n32000000000 raw 4500002c000000004011aebf0a000001c00002011388003500180001 16\n",
    },
    Row {
        case: "a set behind a refused one",
        given: &[A, A, A, B],
        told: "overlap\noverlap\nheld\n1000000000 raw 4500002c000000004011aebf0a000001c00002011388003500180001 16\n",
    },
    Row {
        case: "a bad fragment touches no set",
        given: &[
            A,
            Given {
                digits: "450000210000200040118eca0a000001c0000201",
                zeros: 13,
                ..A
            },
            B,
        ],
        told: "held\nbad\n1000000000 raw 4500002c000000004011aebf0a000001c00002011388003500180001 16\n",
    },
    Row {
        case: "another identification",
        given: &[
            A,
            Given {
                digits: "4500001c000100024011aecc0a000001c0000201",
                zeros: 8,
                ..A
            },
        ],
        told: "held\nheld\n",
    },
    Row {
        case: "the other way",
        given: &[A, Given { dir: Dir::Out, ..B }],
        told: "held\nheld\n",
    },
    Row {
        case: "another interface",
        given: &[A, Given { ifid: IfId(1), ..B }],
        told: "held\nheld\n",
    },
    Row {
        case: "a second last piece",
        given: &[
            B,
            Given {
                digits: "4500001c000000014011aece0a000001c0000201",
                zeros: 8,
                ..A
            },
        ],
        told: "overlap\noverlap\n",
    },
    Row {
        case: "a piece behind the last one",
        given: &[
            B,
            Given {
                digits: "4500001c0000200340118ecc0a000001c0000201",
                zeros: 8,
                ..A
            },
        ],
        told: "overlap\noverlap\n",
    },
    Row {
        case: "more than 65,535 bytes",
        given: &[
            Given {
                digits: "4500800c0000200040110edf0a000001c0000201",
                zeros: 32_760,
                ..A
            },
            Given {
                digits: "4500800c00000fff40112ee00a000001c0000201",
                zeros: 32_760,
                ..A
            },
        ],
        told: "overlap\noverlap\n",
    },
    Row {
        case: "two datagrams in one another, and a packet that is whole",
        given: &[
            A,
            Given {
                digits: "450000240001200040118ec60a000001c00002011388003500180001",
                zeros: 8,
                ..A
            },
            Given {
                digits: "4500001c000000004011aecf0a000001c00002011388003500080011",
                zeros: 0,
                ..A
            },
            Given {
                digits: "4500001c000100024011aecc0a000001c0000201",
                zeros: 8,
                ..A
            },
            B,
        ],
        told: concat!(
            "held\nheld\n1000000000 raw 4500001c000000004011aecf0a000001c00002011388003500080011 0\n",
            "1000000000 raw 4500002c000100004011aebe0a000001c00002011388003500180001 16\n",
            "1000000000 raw 4500002c000000004011aebf0a000001c00002011388003500180001 16\n",
        ),
    },
    Row {
        case: "options and the bit against fragmentation stay, the frame doesn't",
        given: &[
            Given {
                link: Link::Ethernet,
                digits: concat!(
                    "0200000000010200000000020800",
                    "460000280000600040114bc20a000001c000020101010100",
                    "1388003500180001",
                ),
                zeros: 8,
                ..A
            },
            Given {
                link: Link::Ethernet,
                digits: concat!(
                    "0200000000010200000000020800",
                    "4500001c0000400240116ecd0a000001c0000201",
                ),
                zeros: 8,
                ..A
            },
        ],
        told: "held\n1000000000 raw 460000300000400040116bba0a000001c0000201010101001388003500180001 16\n",
    },
    Row {
        case: "a fragment header over all of a datagram",
        given: &[Given {
            digits: concat!(
                "6000000000202c4020010db800000000000000000000000120010db8000000000000000000000002",
                "1100000000000007",
                "1388003500180001",
            ),
            zeros: 16,
            ..A
        }],
        told: concat!(
            "1000000000 raw 600000000018114020010db800000000000000000000000120010db8000000000000000000000002",
            "1388003500180001 16\n",
        ),
    },
    Row {
        case: "two pieces of IPv6",
        given: &[
            Given {
                digits: concat!(
                    "6000000000182c4020010db800000000000000000000000120010db8000000000000000000000002",
                    "1100000100000007",
                    "1388003500180001",
                ),
                zeros: 8,
                ..A
            },
            Given {
                digits: concat!(
                    "6000000000102c4020010db800000000000000000000000120010db8000000000000000000000002",
                    "1100001000000007",
                ),
                zeros: 8,
                ..A
            },
        ],
        told: concat!(
            "held\n1000000000 raw ",
            "600000000018114020010db800000000000000000000000120010db8000000000000000000000002",
            "1388003500180001 16\n",
        ),
    },
    Row {
        case: "a fragment header without data that isn't all",
        given: &[Given {
            digits: concat!(
                "6000000000082c4020010db800000000000000000000000120010db8000000000000000000000002",
                "1100000100000007",
            ),
            zeros: 0,
            ..A
        }],
        told: "bad\n",
    },
];

fn bytes_of(alloc: Global, given: &[Given]) -> Result<Vec<Vec<u8>>> {
    let mut all = Vec::new(alloc);
    for one in given {
        let mut bytes = hex::decode(alloc, one.digits)?;
        for _ in 0..one.zeros {
            bytes.push(0)?;
        }
        all.push(bytes)?;
    }
    Ok(all)
}

// Puts a packet behind the others, unless it is longer than one may be.
fn add_if_short<'a>(
    packets: &mut Vec<Packet<'a>>,
    packet: Packet<'a>,
) -> std::result::Result<(), NoMemory>
    requires short { All IsShortPacket packets.old.items }
    ensures short { IfOk result (λ _. All IsShortPacket packets.new.items) }
{
    if packet.bytes.as_slice().len() <= MAX_PACKET_BYTES {
        packets.push(packet)?;
    }
    Ok(())
}

// The packets of these bytes.
fn packets_of<'a>(
    alloc: Global,
    bytes: &'a mut [Vec<u8>],
    given: &[Given],
) -> std::result::Result<Vec<Packet<'a>>, NoMemory>
    ensures { IfOk result (λ packets. All IsShortPacket packets.items) }
{
    let mut packets = Vec::new(alloc);
    for (bytes, one) in bytes.iter_mut().zip(given) {
        let packet = Packet {
            time: one.time,
            link: one.link,
            ifid: one.ifid,
            dir: one.dir,
            held: None,
            bytes: PacketBytes::of(bytes.as_mut_slice()),
        };
        add_if_short(&mut packets, packet)?;
    }
    Ok(packets)
}

fn tell_run<R: Threads + Wait + Sync>(
    rt: &R,
    alloc: Global,
    given: &[Given],
    workers: u32,
    told: &mut String,
) -> Result<()>
    requires { (1 ≤ workers) × (workers ≤ 64) }
{
    let mut bytes = bytes_of(alloc, given)?;
    let packets = packets_of(alloc, bytes.as_mut_slice(), given)?;
    let mut keeper = DatagramBytes::new(alloc);
    let whole = reassemble(rt, alloc, packets, workers, &mut keeper)?;
    for packet in &whole {
        tell_packet(alloc, packet, told)?;
    }
    Ok(())
}

fn tell_packet(alloc: Global, packet: &Packet<'_>, told: &mut String) -> Result<()> {
    match packet.held {
        None => tell_bytes(alloc, packet, told),
        Some(why) => {
            let word = match why {
                FragWhy::Held => "held",
                FragWhy::Overlap => "overlap",
                FragWhy::Bad => "bad",
            };
            write!(told, "{word}\n")?;
            Ok(())
        }
    }
}

fn tell_bytes(alloc: Global, packet: &Packet<'_>, told: &mut String) -> Result<()> {
    let bytes = packet.bytes.as_slice();
    let mut zeros: usize = 0;
    for byte in bytes {
        zeros = if *byte == 0 {
            zeros.saturating_add(1)
        } else {
            0
        };
    }
    let digits = hex::encode(alloc, &bytes[..bytes.len().saturating_sub(zeros)])?;
    let link = if packet.link == Link::Raw {
        "raw"
    } else {
        "ethernet"
    };
    write!(told, "{} {link} {digits} {zeros}\n", packet.time)?;
    Ok(())
}

#[test]
fn runs_with_any_number_of_workers(rt: HostRuntime) -> Result<()> {
    for row in ROWS {
        for workers in [1, 2, 4, 64] {
            let mut told = String::new(rt.alloc());
            tell_run(&rt, rt.alloc(), row.given, workers, &mut told)?;
            assert_eq!(rt; told.as_str(), row.told, "{} {workers}", row.case);
        }
    }
    Ok(())
}
