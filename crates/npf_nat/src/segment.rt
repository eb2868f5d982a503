// Whether a map applies to a packet.
ghost use Rattle.std.specs.Prelude.{◌≡◌};
ghost use Rattle.npf_model.specs.Describes.{source_of, destination_of};
ghost use Rattle.npf_model.specs.MapOf.{fits_side_port, fits_side, goes_outside, comes_inside, fits_segment, fits_map_protocol};

use npf_model::{Arrow, Map, Side};
use npf_types::{Addr, Dir, Facts, L4};

/// Whether the packet's direction is one of the map's, and its end on that side lies in the map's.
pub fn fits_segment(map: &Map, facts: &Facts, dir: Dir) -> bool
    ensures { result ≡ fits_segment map.now facts.now dir }
{
    match dir {
        Dir::Out => {
            goes_outside(map.arrow) && fits_side(map.inside, facts.src, source_of(&facts.l4))
        }
        Dir::In => {
            comes_inside(map.arrow) && fits_side(map.outside, facts.dst, destination_of(&facts.l4))
        }
    }
}

/// Whether the protocol is the one that the map asks for, where it asks for one.
pub fn fits_protocol(asked: Option<u8>, proto: u8) -> bool
    ensures { result ≡ fits_map_protocol asked proto }
{
    match asked {
        Some(asked) => asked == proto,
        None => true,
    }
}

fn goes_outside(arrow: Arrow) -> bool
    ensures { result ≡ goes_outside arrow }
{
    matches!(arrow, Arrow::ToOutside | Arrow::Both)
}

fn comes_inside(arrow: Arrow) -> bool
    ensures { result ≡ comes_inside arrow }
{
    matches!(arrow, Arrow::ToInside | Arrow::Both)
}

fn fits_side(side: Side, addr: Addr, port: Option<u16>) -> bool
    ensures { result ≡ fits_side side addr port }
{
    side.net.has(addr) && fits_side_port(side.ports, port)
}

fn fits_side_port(ports: Option<(u16, u16)>, port: Option<u16>) -> bool
    ensures { result ≡ fits_side_port ports port }
{
    match (ports, port) {
        (None, _) => true,
        (Some(_), None) => false,
        (Some((first, last)), Some(port)) => first <= port && port <= last,
    }
}

fn source_of(l4: &L4) -> Option<u16>
    ensures { result ≡ source_of l4.now }
{
    match *l4 {
        L4::Tcp { sport, .. } | L4::Udp { sport, .. } => Some(sport),
        _ => None,
    }
}

fn destination_of(l4: &L4) -> Option<u16>
    ensures { result ≡ destination_of l4.now }
{
    match *l4 {
        L4::Tcp { dport, .. } | L4::Udp { dport, .. } => Some(dport),
        _ => None,
    }
}
