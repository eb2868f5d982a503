use crate::comparison::same;
use crate::packet::{
    TIME_EXCEEDED, TOO_BIG_UDP6, UNREACHABLE_ECHO, UNREACHABLE_UDP, end, to, translated,
};
use npf_types::{Addr, Change, End};
use std::test::Fail;

/// 10.0.0.2 and fd00::2, inside.
const INSIDE: Addr = Addr::V4(0x0a00_0002);

const INSIDE6: Addr = Addr::V6(0xfd00_0000_0000_0000_0000_0000_0000_0002);

#[test]
fn both_headers_and_four_sums_follow(rt: HostRuntime) -> Result<(), Fail> {
    let wanted = concat!(
        "450000380000000040014689c63364070a0000020303315300000000",
        "4500001c00000000401146950a000002c63364079c40003500082f2c",
    );
    let written = translated(rt.alloc(), UNREACHABLE_UDP, &to(end(INSIDE, 40000)))?;
    same(&rt, "an unreachable port", written.as_str(), wanted);
    Ok(())
}

#[test]
fn router_keeps_its_address(rt: HostRuntime) -> Result<(), Fail> {
    let wanted = concat!(
        "45000044000000004001aeaec00002090a0000020b00295700000000",
        "4500002800000000400646940a000002c63364079c4001bb000003e800000000500203e8d5da0000",
    );
    let written = translated(rt.alloc(), TIME_EXCEEDED, &to(end(INSIDE, 40000)))?;
    same(&rt, "time exceeded on the way", written.as_str(), wanted);
    Ok(())
}

#[test]
fn sum_that_is_not_quoted_is_left(rt: HostRuntime) -> Result<(), Fail> {
    let packet = concat!(
        "450000380000000040017cbac0000209cb0071010b00eb5c00000000",
        "450000280000000040061494cb007101c6336407040001bb000003e8",
    );
    let wanted = concat!(
        "45000038000000004001aebac00002090a0000020b00531c00000000",
        "4500002800000000400646940a000002c63364079c4001bb000003e8",
    );
    let written = translated(rt.alloc(), packet, &to(end(INSIDE, 40000)))?;
    same(&rt, "eight bytes of TCP", written.as_str(), wanted);
    Ok(())
}

#[test]
fn echo_has_one_identifier(rt: HostRuntime) -> Result<(), Fail> {
    let wanted = concat!(
        "450000380000000040014689c63364070a0000020301fcfe00000000",
        "4500001c00000000400146a50a000002c63364070800f7f700070001",
    );
    let written = translated(rt.alloc(), UNREACHABLE_ECHO, &to(end(INSIDE, 7)))?;
    same(&rt, "the destination's", written.as_str(), wanted);
    let both = Change {
        src: end(Addr::V4(0x0a09_0909), 9),
        ..to(end(INSIDE, 7))
    };
    let wanted = concat!(
        "450000380000000040015db20a0909090a0000020301fcfe00000000",
        "4500001c0000000040015dce0a0000020a0909090800f7f500090001",
    );
    let written = translated(rt.alloc(), UNREACHABLE_ECHO, &both)?;
    same(
        &rt,
        "the source's, where both name one",
        written.as_str(),
        wanted,
    );
    Ok(())
}

#[test]
fn absent_sum_stays_absent(rt: HostRuntime) -> Result<(), Fail> {
    let packet = concat!(
        "450000380000000040011489c6336407cb0071010303607f00000000",
        "4500001c0000000040111495cb007101c63364079c40003500080000",
    );
    let wanted = concat!(
        "450000380000000040014689c63364070a0000020303607f00000000",
        "4500001c00000000401146950a000002c63364079c40003500080000",
    );
    let written = translated(rt.alloc(), packet, &to(end(INSIDE, 40000)))?;
    same(&rt, "UDP without a sum", written.as_str(), wanted);
    Ok(())
}

#[test]
fn outer_source_follows_where_it_was_quoted(rt: HostRuntime) -> Result<(), Fail> {
    let packet = concat!(
        "450000380000000040017cbacb007101c00002090303fb2100000000",
        "4500001c0000000040117cc6c0000209cb007101138800350008ee15",
    );
    let wanted = concat!(
        "45000038000000004001ae870a000035c00002090303c95400000000",
        "4500001c000000004011ae93c00002090a000035138814e900080b2f",
    );
    let change = Change {
        src: end(Addr::V4(0x0a00_0035), 5353),
        ..to(None)
    };
    let written = translated(rt.alloc(), packet, &change)?;
    same(
        &rt,
        "a server that answers itself",
        written.as_str(),
        wanted,
    );
    Ok(())
}

#[test]
fn sum_of_icmpv6_counts_outer_addresses(rt: HostRuntime) -> Result<(), Fail> {
    let wanted = concat!(
        "6000000000383a4020010db8000900000000000000000001",
        "fd000000000000000000000000000002",
        "02006198000000006000000000081140",
        "fd00000000000000000000000000000220010db8000900000000000000000007",
        "9c4000350008389d",
    );
    let written = translated(rt.alloc(), TOO_BIG_UDP6, &to(end(INSIDE6, 40000)))?;
    same(&rt, "packet too big", written.as_str(), wanted);
    Ok(())
}

#[test]
fn neutral_change_writes_no_sum(rt: HostRuntime) -> Result<(), Fail> {
    let wanted = concat!(
        "6000000000383a4020010db8000900000000000000000001",
        "fd00aaaabbbb00000000000000000002",
        "020030df000000006000000000081140",
        "fd00aaaabbbb0000000000000000000220010db8000900000000000000000007",
        "040000350008a024",
    );
    let dst = Some(End {
        addr: Addr::V6(0xfd00_aaaa_bbbb_0000_0000_0000_0000_0002),
        port: None,
    });
    let neutral = Change {
        neutral: true,
        ..to(dst)
    };
    let written = translated(rt.alloc(), TOO_BIG_UDP6, &neutral)?;
    same(&rt, "the addresses alone", written.as_str(), wanted);
    Ok(())
}

#[test]
fn end_of_another_family_changes_nothing(rt: HostRuntime) -> Result<(), Fail> {
    let written = translated(rt.alloc(), UNREACHABLE_UDP, &to(end(INSIDE6, 40000)))?;
    same(&rt, "IPv6 in IPv4", written.as_str(), UNREACHABLE_UDP);
    Ok(())
}
