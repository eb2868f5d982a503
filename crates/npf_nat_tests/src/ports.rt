use crate::comparison::same;
use npf_portmap::{PortDraw, candidates, laws};
use std::process::Abort;
use std::test::Fail;

// A range, the port that is tried first, and the ports in the order in which they are tried, listed by hand.
#[test]
fn ports_come_in_order(rt: HostRuntime) {
    come(&rt, "one port", candidates(80, 80, 80), &[80]);
    let inside = [1026, 1027, 1024, 1025];
    come(
        &rt,
        "the first lies inside",
        candidates(1024, 1027, 1026),
        &inside,
    );
    let beginning = [1024, 1025, 1026, 1027];
    come(
        &rt,
        "the first is the beginning",
        candidates(1024, 1027, 1024),
        &beginning,
    );
    let end = [1027, 1024, 1025, 1026];
    come(
        &rt,
        "the first is the end",
        candidates(1024, 1027, 1027),
        &end,
    );
    come(&rt, "the lowest ports", candidates(0, 2, 1), &[1, 2, 0]);
    let highest = [65534, 65535, 65533];
    come(
        &rt,
        "the highest ports",
        candidates(65533, 65535, 65534),
        &highest,
    );
    come(
        &rt,
        "the highest port",
        candidates(65535, 65535, 65535),
        &[65535],
    );
}

#[test]
fn all_ports_are_drawn(rt: HostRuntime) -> Result<(), Fail> {
    laws::each_port_once();
    let ports = (0u32..65536).map(|tried| ((40000 + tried) % 65536) as u16);
    let ports: Vec<u16> = ports.collect(rt.alloc())?;
    come(&rt, "all ports", candidates(0, 65535, 40000), &ports);
    Ok(())
}

/// These ports are drawn, and then none.
fn come(rt: &impl Abort, case: &str, draw: PortDraw, ports: &[u16]) {
    let mut draw = draw;
    same(rt, case, begins_with(&mut draw, ports), true);
    same(rt, case, (draw.next(), draw.next()), (None, None));
}

fn begins_with(draw: &mut PortDraw, ports: &[u16]) -> bool {
    for port in ports {
        if draw.next() != Some(*port) {
            return false;
        }
    }
    true
}
