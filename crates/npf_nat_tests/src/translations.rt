use crate::comparison::same;
use crate::packet::{destination, icmp, packet, source, tcp, udp};
use npf_model::{Algo, Arrow, Map, OnIf, Side};
use npf_nat::{MapPlan, drawn, laws, npt66, plan};
use npf_types::{Addr, Dir, IfId, L4, Name, Prefix};
use std::process::Abort;
use std::test::Fail;

/// 10.0.0.7, 198.51.100.9 and 203.0.113.1: inside, a server, and a gateway's outer address.
const INSIDE: Addr = Addr::V4(0x0a00_0007);

const SERVER: Addr = Addr::V4(0xc633_6409);

const OUTSIDE: Addr = Addr::V4(0xcb00_7101);

/// fd01:203:405:1::1234, the address of RFC 6296's example, and 2001:db8:1:d550::1234, its translation.
const INTERNAL: u128 = 0xfd01_0203_0405_0001_0000_0000_0000_1234;

const EXTERNAL: u128 = 0x2001_0db8_0001_d550_0000_0000_0000_1234;

const PEER: Addr = Addr::V6(0x2001_0db8_00ff_0000_0000_0000_0000_0001);

/// What a configuration draws from that says nothing of ports.
const ANY: (u16, u16) = (1024, 65535);

/// The first and the last port of a side.
type Ports = Option<(u16, u16)>;

fn side(addr: Addr, len: u8, ports: Ports) -> Result<Side, Fail> {
    let net = Prefix::of(addr, len).ok_or("a length within the family's")?;
    Ok(Side { net, ports })
}

fn map(
    algo: Algo,
    arrow: Arrow,
    proto: Option<u8>,
    inside: Side,
    outside: Side,
) -> Result<Map, Fail> {
    let name = Name::of(b"wan0").ok_or("a name")?;
    Ok(Map {
        on: OnIf { name, id: IfId(1) },
        algo,
        arrow,
        proto,
        inside,
        outside,
        filter: None,
    })
}

// The port that is drawn: its range, and the first to be tried.
#[test]
fn outward_maps_draw_a_port(rt: HostRuntime) -> Result<(), Fail> {
    let some = Some((100, 109));
    outward(
        &rt,
        "the own port of TCP",
        (6, tcp(40000, 80)),
        None,
        Some((1024, 65535, 40000)),
    )?;
    outward(
        &rt,
        "a low port of UDP",
        (17, udp(53, 53)),
        None,
        Some((1024, 65535, 1077)),
    )?;
    outward(
        &rt,
        "an echo",
        (1, icmp(Some(7))),
        some,
        Some((100, 109, 107)),
    )?;
    outward(
        &rt,
        "the range's end",
        (17, udp(109, 53)),
        some,
        Some((100, 109, 109)),
    )?;
    outward(
        &rt,
        "behind the range",
        (17, udp(110, 53)),
        some,
        Some((100, 109, 100)),
    )?;
    outward(
        &rt,
        "one port",
        (17, udp(9, 53)),
        Some((80, 80)),
        Some((80, 80, 80)),
    )?;
    let down = Some((200, 100));
    outward(
        &rt,
        "a range that goes down",
        (17, udp(150, 53)),
        down,
        Some((200, 100, 200)),
    )?;
    outward(&rt, "no echo", (1, icmp(None)), None, None)?;
    outward(&rt, "another protocol", (47, L4::Other), None, None)
}

// The ports that a configuration draws from where its maps have none, those of the map, and what is drawn for a packet.
#[test]
fn ports_are_those_of_the_configuration(rt: HostRuntime) -> Result<(), Fail> {
    let upper = (49152, 65535);
    outward_from(
        &rt,
        "a port below",
        upper,
        (17, udp(40000, 53)),
        None,
        Some((49152, 65535, 56384)),
    )?;
    outward_from(
        &rt,
        "a port of it",
        upper,
        (6, tcp(50000, 80)),
        None,
        Some((49152, 65535, 50000)),
    )?;
    outward_from(
        &rt,
        "an echo",
        upper,
        (1, icmp(Some(7))),
        None,
        Some((49152, 65535, 49159)),
    )?;
    outward_from(
        &rt,
        "the map's own",
        upper,
        (17, udp(109, 53)),
        Some((100, 109)),
        Some((100, 109, 109)),
    )?;
    outward_from(
        &rt,
        "one port",
        (5000, 5000),
        (17, udp(40000, 53)),
        None,
        Some((5000, 5000, 5000)),
    )
}

/// The same under a configuration that says nothing of ports.
fn outward(
    rt: &impl Abort,
    case: &str,
    packet: (u8, L4),
    ports: Ports,
    numbers: Option<(u16, u16, u16)>,
) -> Result<(), Fail> {
    outward_from(rt, case, ANY, packet, ports, numbers)
}

/// A dynamic map from 10.0.0.0/24 to the outer address draws this port, or changes the address alone; and nothing comes in.
fn outward_from(
    rt: &impl Abort,
    case: &str,
    unsaid: (u16, u16),
    (proto, l4): (u8, L4),
    ports: Ports,
    numbers: Option<(u16, u16, u16)>,
) -> Result<(), Fail> {
    let inside = side(Addr::V4(0x0a00_0000), 24, None)?;
    let map = map(
        Algo::Dynamic,
        Arrow::ToOutside,
        None,
        inside,
        side(OUTSIDE, 32, ports)?,
    )?;
    let facts = packet(INSIDE, SERVER, proto, l4);
    let wanted = match numbers {
        Some((min, max, first)) => MapPlan::Draw {
            addr: OUTSIDE,
            min,
            max,
            first,
        },
        None => MapPlan::Fixed {
            there: source(OUTSIDE, None),
            back: destination(INSIDE, None),
        },
    };
    same(rt, case, plan(unsaid, &map, &facts, Dir::Out), Some(wanted));
    same(rt, case, plan(unsaid, &map, &facts, Dir::In), None);
    Ok(())
}

// The protocol and the ports of both sides that a map asks for, a packet, and the ports that are written there and back.
#[test]
fn inward_maps_give_the_left_side(rt: HostRuntime) -> Result<(), Fail> {
    let web = (Some(6), Some((8080, 8080)), Some((80, 80)));
    let any = (None, None, None);
    inward(
        &rt,
        "a port",
        web,
        (6, tcp(5000, 80)),
        Some((Some(8080), Some(80))),
    )?;
    inward(
        &rt,
        "no ports",
        any,
        (17, udp(5000, 53)),
        Some((None, None)),
    )?;
    inward(&rt, "an echo", any, (1, icmp(Some(7))), Some((None, None)))?;
    inward(&rt, "another port", web, (6, tcp(5000, 81)), None)?;
    inward(
        &rt,
        "another protocol",
        (Some(6), None, None),
        (17, udp(5000, 80)),
        None,
    )?;
    let of_any = (None, Some((8080, 8080)), Some((80, 80)));
    inward(&rt, "no port", of_any, (47, L4::Other), None)
}

/// A dynamic map from the outer address gives the inner address and these ports, or nothing; and nothing goes out.
fn inward(
    rt: &impl Abort,
    case: &str,
    (asked, left, right): (Option<u8>, Ports, Ports),
    (proto, l4): (u8, L4),
    ports: Option<(Option<u16>, Option<u16>)>,
) -> Result<(), Fail> {
    let (inside, outside) = (side(INSIDE, 32, left)?, side(OUTSIDE, 32, right)?);
    let map = map(Algo::Dynamic, Arrow::ToInside, asked, inside, outside)?;
    let facts = packet(SERVER, OUTSIDE, proto, l4);
    let wanted = ports.map(|(there, back)| MapPlan::Fixed {
        there: destination(INSIDE, there),
        back: source(OUTSIDE, back),
    });
    same(rt, case, plan(ANY, &map, &facts, Dir::In), wanted);
    same(rt, case, plan(ANY, &map, &facts, Dir::Out), None);
    Ok(())
}

#[test]
fn blocks_are_exchanged(rt: HostRuntime) -> Result<(), Fail> {
    let inside = side(Addr::V4(0x0a00_0000), 15, None)?;
    let outside = side(Addr::V4(0xc612_0000), 15, None)?;
    let map = map(Algo::Netmap, Arrow::Both, None, inside, outside)?;
    let (own, moved) = (Addr::V4(0x0a01_fffe), Addr::V4(0xc613_fffe));
    let out = MapPlan::Fixed {
        there: source(moved, None),
        back: destination(own, None),
    };
    let leaving = packet(own, SERVER, 6, tcp(5000, 80));
    same(&rt, "out", plan(ANY, &map, &leaving, Dir::Out), Some(out));
    let into = MapPlan::Fixed {
        there: destination(own, None),
        back: source(moved, None),
    };
    let entering = packet(SERVER, moved, 6, tcp(80, 5000));
    same(&rt, "into", plan(ANY, &map, &entering, Dir::In), Some(into));
    let outsider = packet(Addr::V4(0x0a02_0000), SERVER, 6, tcp(5000, 80));
    same(
        &rt,
        "not inside",
        plan(ANY, &map, &outsider, Dir::Out),
        None,
    );
    let ipv6 = packet(PEER, PEER, 6, tcp(5000, 80));
    same(&rt, "IPv6", plan(ANY, &map, &ipv6, Dir::Out), None);
    Ok(())
}

#[test]
fn prefixes_are_translated(rt: HostRuntime) -> Result<(), Fail> {
    laws::npt66_is_neutral();
    laws::static_map_comes_back();
    let internal = Addr::V6(0xfd01_0203_0405_0000_0000_0000_0000_0000);
    let external = Addr::V6(0x2001_0db8_0001_0000_0000_0000_0000_0000);
    let (Some(from), Some(to)) = (Prefix::of(internal, 48), Prefix::of(external, 48)) else {
        return Err(Fail::from("two prefixes"));
    };
    same(&rt, "out", npt66(from, to, INTERNAL), EXTERNAL);
    same(&rt, "into", npt66(to, from, EXTERNAL), INTERNAL);
    Ok(())
}

#[test]
fn drawn_ports_are_written(rt: HostRuntime) {
    laws::answer_is_restored();
    let changes = drawn(&packet(INSIDE, SERVER, 6, tcp(5000, 80)), OUTSIDE, 61000);
    let wanted = (
        source(OUTSIDE, Some(61000)),
        destination(INSIDE, Some(5000)),
    );
    same(&rt, "a port", changes, wanted);
    let changes = drawn(&packet(INSIDE, SERVER, 1, icmp(Some(7))), OUTSIDE, 9);
    let wanted = (source(OUTSIDE, Some(9)), destination(INSIDE, Some(7)));
    same(&rt, "an identifier", changes, wanted);
}
