// The datagrams that two pieces make, byte for byte. Their headers are written by digits; the sums of those of IPv4 were reckoned
// by hand over the words (RFC 791 section 3.1).
ghost use Rattle.std.specs.Prelude.{◌≤◌, IfOk, length};
ghost use Rattle.npf_types.specs.declared.limits.TheConstants.{MAX_PACKET_BYTES};

use crate::joining::put_together;
use anyhow::{Result, ensure};
use npf_pieces::{Ending, SetAt};
use npf_types::Link;
use npf_types::limits::MAX_PACKET_BYTES;
use std::alloc::Global;
use std::process::Abort;
use std::test::Fail;

/// Two pieces that have so many bytes of data, of which those in front are the first one's. Their headers, and the datagram's if
/// it isn't refused.
struct Row {
    case: &'static str,
    link: Link,
    front: usize,
    size: usize,
    first: &'static str,
    last: &'static str,
    whole: Option<&'static str>,
}

const ROWS: [Row; 9] = [
    Row {
        case: "the sum is adjusted by the total length and by the fragment field",
        link: Link::Raw,
        front: 16,
        size: 24,
        first: "450000240000200040118ec70a000001c0000201",
        last: "4500001c000000024011aecd0a000001c0000201",
        whole: Some("4500002c000000004011aebf0a000001c0000201"),
    },
    Row {
        case: "a wrong sum stays wrong",
        link: Link::Raw,
        front: 16,
        size: 24,
        first: "4500002400002000401100000a000001c0000201",
        last: "4500001c000000024011aecd0a000001c0000201",
        whole: Some("4500002c0000000040111ff80a000001c0000201"),
    },
    Row {
        case: "options and the bit against fragmentation stay, the frame doesn't",
        link: Link::Ethernet,
        front: 16,
        size: 24,
        first: concat!(
            "0200000000010200000000020800",
            "460000280000600040114bc20a000001c000020101010100",
        ),
        last: concat!(
            "0200000000010200000000020800",
            "4500001c0000400240116ecd0a000001c0000201",
        ),
        whole: Some("460000300000400040116bba0a000001c000020101010100"),
    },
    Row {
        case: "a datagram of 65,535 bytes",
        link: Link::Raw,
        front: 32_760,
        size: 65_515,
        first: "4500800c0000200040110edf0a000001c0000201",
        last: "4500800700000fff40111ee50a000001c0000201",
        whole: Some("4500ffff000000004011aeeb0a000001c0000201"),
    },
    Row {
        case: "one byte more than an IPv4 datagram has",
        link: Link::Raw,
        front: 32_760,
        size: 65_516,
        first: "4500800c0000200040110edf0a000001c0000201",
        last: "4500800800000fff40111ee40a000001c0000201",
        whole: None,
    },
    Row {
        case: "the fixed header of IPv6 names what the fragment header did",
        link: Link::Raw,
        front: 16,
        size: 24,
        first: concat!(
            "6000000000182c4020010db800000000000000000000000120010db8000000000000000000000002",
            "1100000100000007",
        ),
        last: concat!(
            "6000000000102c4020010db800000000000000000000000120010db8000000000000000000000002",
            "1100001000000007",
        ),
        whole: Some(
            "600000000018114020010db800000000000000000000000120010db8000000000000000000000002",
        ),
    },
    Row {
        case: "the last extension header in front names what the first piece's fragment header did",
        link: Link::Raw,
        front: 16,
        size: 24,
        first: concat!(
            "600000000028004020010db800000000000000000000000120010db8000000000000000000000002",
            "3c000104000000002c000104000000001100000100000007",
        ),
        last: concat!(
            "600000000020004020010db800000000000000000000000120010db8000000000000000000000002",
            "3c000104000000002c000104000000003a00001000000007",
        ),
        whole: Some(concat!(
            "600000000028004020010db800000000000000000000000120010db8000000000000000000000002",
            "3c000104000000001100010400000000",
        )),
    },
    Row {
        case: "a payload of 65,535 bytes",
        link: Link::Raw,
        front: 32_760,
        size: 65_527,
        first: concat!(
            "600000008008004020010db800000000000000000000000120010db8000000000000000000000002",
            "2c000104000000001100000100000007",
        ),
        last: concat!(
            "60000000800f004020010db800000000000000000000000120010db8000000000000000000000002",
            "2c0001040000000011007ff800000007",
        ),
        whole: Some(concat!(
            "60000000ffff004020010db800000000000000000000000120010db8000000000000000000000002",
            "1100010400000000",
        )),
    },
    Row {
        case: "one byte more than a payload of IPv6 has",
        link: Link::Raw,
        front: 32_760,
        size: 65_528,
        first: concat!(
            "600000008008004020010db800000000000000000000000120010db8000000000000000000000002",
            "2c000104000000001100000100000007",
        ),
        last: concat!(
            "600000008010004020010db800000000000000000000000120010db8000000000000000000000002",
            "2c0001040000000011007ff800000007",
        ),
        whole: None,
    },
];

/// A header, and behind it the bytes of a datagram's data from one place on up to another: each is its place modulo 251.
fn bytes(alloc: Global, header: &str, from: usize, to: usize) -> Result<Vec<u8>>
    ensures { IfOk result (λ bytes. length bytes.items ≤ MAX_PACKET_BYTES) }
{
    let mut bytes = hex::decode(alloc, header)?;
    for place in from..to {
        bytes.push((place % 251) as u8)?;
    }
    ensure!(bytes.len() <= MAX_PACKET_BYTES, "too long for a packet");
    Ok(bytes)
}

/// Compares what two pieces of a row make in this order.
fn check_order(
    rt: &impl Abort,
    alloc: Global,
    row: &Row,
    one: &[u8],
    other: &[u8],
    whole: Option<&[u8]>,
) -> Result<()>
    requires one { length one.now ≤ MAX_PACKET_BYTES }
    requires other { length other.now ≤ MAX_PACKET_BYTES }
{
    let case = row.case;
    let joined = put_together(alloc, row.link, one, other)?;
    let ending = match whole {
        Some(_) => Ending::Complete,
        None => Ending::Refused,
    };
    let set = SetAt {
        first: 0,
        behind: 2,
        ending,
    };
    assert_eq!(rt; joined.sets.as_slice(), [set].as_slice(), "{case}");
    assert_eq!(rt; joined.one.as_slice(), one, "{case}");
    assert_eq!(rt; joined.other.as_slice(), whole.unwrap_or(other), "{case}");
    Ok(())
}

/// Compares what the pieces of a row make in either order.
fn check(rt: &impl Abort, alloc: Global, row: &Row) -> Result<()> {
    let first = bytes(alloc, row.first, 0, row.front)?;
    let last = bytes(alloc, row.last, row.front, row.size)?;
    let made = match row.whole {
        Some(header) => Some(bytes(alloc, header, 0, row.size)?),
        None => None,
    };
    let whole = made.as_ref().map(|bytes| bytes.as_slice());
    check_order(rt, alloc, row, &first, &last, whole)?;
    check_order(rt, alloc, row, &last, &first, whole)
}

#[test]
fn two_pieces_make_a_datagram(rt: HostRuntime) -> Result<(), Fail> {
    for row in &ROWS {
        check(&rt, rt.alloc(), row)?;
    }
    Ok(())
}

#[test]
fn fragment_that_is_all_makes_a_datagram(rt: HostRuntime) -> Result<(), Fail> {
    let fragment = bytes(
        rt.alloc(),
        concat!(
            "6000000000182c4020010db800000000000000000000000120010db8000000000000000000000002",
            "1100000000000007",
        ),
        0,
        16,
    )?;
    let other = bytes(
        rt.alloc(),
        "4500002400000000401100000a000001c0000201",
        0,
        16,
    )?;
    let datagram = bytes(
        rt.alloc(),
        "600000000010114020010db800000000000000000000000120010db8000000000000000000000002",
        0,
        16,
    )?;
    let joined = put_together(rt.alloc(), Link::Raw, &fragment, &other)?;
    assert_eq!(rt; joined.one.as_slice(), datagram.as_slice());
    assert_eq!(rt; joined.other.as_slice(), other.as_slice());
    Ok(())
}
