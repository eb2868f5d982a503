use crate::comparison::same;
use crate::packet::{
    TIME_EXCEEDED, TOO_BIG_UDP6, UNREACHABLE_ECHO, UNREACHABLE_UDP, quoted, quotes_with,
};
use npf_icmpalg::{Inner, inner_key};
use npf_types::{Addr, IfId, Key};
use std::test::Fail;

/// 203.0.113.1, the gateway's outer address, and 198.51.100.7, a server.
const OUTSIDE: Addr = Addr::V4(0xcb00_7101);

const SERVER: Addr = Addr::V4(0xc633_6407);

const DATAGRAM: Inner = Inner {
    src: OUTSIDE,
    dst: SERVER,
    proto: 17,
    sport: 40000,
    dport: 53,
    ip_at: 28,
    l4_at: 48,
    sum_at: Some(54),
};

#[test]
fn quoted_packets_are_told(rt: HostRuntime) -> Result<(), Fail> {
    same(
        &rt,
        "UDP",
        quoted(rt.alloc(), UNREACHABLE_UDP)?,
        Some(DATAGRAM),
    );
    let segment = Inner {
        proto: 6,
        sport: 1024,
        dport: 443,
        sum_at: Some(64),
        ..DATAGRAM
    };
    same(
        &rt,
        "TCP",
        quoted(rt.alloc(), TIME_EXCEEDED)?,
        Some(segment),
    );
    let echo = Inner {
        proto: 1,
        sport: 1024,
        dport: 1024,
        sum_at: Some(50),
        ..DATAGRAM
    };
    same(
        &rt,
        "an echo",
        quoted(rt.alloc(), UNREACHABLE_ECHO)?,
        Some(echo),
    );
    Ok(())
}

#[test]
fn key_is_that_of_the_answers(rt: HostRuntime) {
    let words = [0x0411_0002_0035_9c40, 0, 0xc633_6407, 0, 0xcb00_7101];
    same(
        &rt,
        "turned about",
        inner_key(&DATAGRAM, IfId(2)),
        Key(words),
    );
}

// A packet, the place of a byte, what is put there, and whether the packet still quotes one.
const CASES: [(&str, &str, usize, u8, bool); 12] = [
    ("unreachable", UNREACHABLE_UDP, 20, 3, true),
    ("parameter problem", UNREACHABLE_UDP, 20, 12, true),
    ("redirect", UNREACHABLE_UDP, 20, 5, false),
    ("another version", UNREACHABLE_UDP, 28, 0x65, false),
    ("a header of four words", UNREACHABLE_UDP, 28, 0x44, false),
    ("a header of six words", UNREACHABLE_UDP, 28, 0x46, false),
    ("more fragments", UNREACHABLE_UDP, 34, 0x20, true),
    ("a later fragment", UNREACHABLE_UDP, 35, 1, false),
    ("another protocol", UNREACHABLE_UDP, 37, 47, false),
    ("another source", UNREACHABLE_UDP, 43, 9, false),
    ("an error about an error", UNREACHABLE_ECHO, 48, 3, false),
    ("an extension header", TOO_BIG_UDP6, 54, 0, false),
];

#[test]
fn other_packets_quote_none(rt: HostRuntime) -> Result<(), Fail> {
    for (case, digits, at, value, wanted) in CASES {
        same(
            &rt,
            case,
            quotes_with(rt.alloc(), digits, at, value)?,
            wanted,
        );
    }
    let short = concat!(
        "45000037000000004001148ac6336407cb0071010303635300000000",
        "4500001c0000000040111495cb007101c63364079c400035000800",
    );
    same(&rt, "27 bytes", quoted(rt.alloc(), short)?, None);
    Ok(())
}
