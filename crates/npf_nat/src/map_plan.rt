// What a map does with a packet.
ghost use Rattle.std.specs.Prelude.{◌≡◌, ◌≤◌, IfSome};
ghost use Rattle.npf_nat.specs.FirstPort.{drawn_range};
ghost use Rattle.npf_nat.specs.MapPlan.{plan, plan_by, outward, outward_change, inward_change, translated_address, is_neutral, fixed, draw, TriesWithin};
ghost use Rattle.npf_nat.specs.PrefixPair.{IsForward};

use crate::answer::answer_change;
use crate::first_port::{drawn_for, drawn_range, first_candidate};
use crate::netmap::netmap;
use crate::npt::npt66_address;
use crate::segment::{fits_protocol, fits_segment};
use npf_model::{Algo, Map};
use npf_types::{Addr, Change, Dir, End, Facts, Prefix};

/// What a map makes of a packet: the changes of the packet and of its answers; or the address and
/// the range of ports, or of identifiers of echoes, from which one is to be drawn, `first` before
/// all others.
#[derive(Clone, Copy, Debug, PartialEq, Eq)]
pub enum MapPlan {
    Fixed {
        there: Change,
        back: Change,
    },
    Draw {
        addr: Addr,
        min: u16,
        max: u16,
        first: u16,
    },
}

/// What the map makes of a packet that crosses its interface this way, where it draws from the
/// ports `unsaid` if its outside has none. None exactly where the packet's protocol or direction,
/// or its end on the map's side, isn't the map's. Interface and filter are not looked at. Where
/// the ports to draw from are in order, one of them is tried first.
pub fn plan(unsaid: (u16, u16), map: &Map, facts: &Facts, dir: Dir) -> Option<MapPlan>
    ensures value { result ≡ plan unsaid map.now facts.now dir }
    ensures first { IsForward (drawn_range map.now.outside.ports unsaid) → IfSome result TriesWithin }
{
    if !fits_protocol(map.proto, facts.proto) || !fits_segment(map, facts, dir) {
        return None;
    }
    match dir {
        Dir::Out => Some(outward(unsaid, map, facts)),
        Dir::In => Some(fixed(facts, inward_change(map, facts))),
    }
}

fn outward(unsaid: (u16, u16), map: &Map, facts: &Facts) -> MapPlan
    ensures value { result ≡ plan_by unsaid Dir.Out map.now facts.now }
    ensures first { IsForward (drawn_range map.now.outside.ports unsaid) → TriesWithin result }
{
    match drawn_for(map.algo, &facts.l4) {
        Some(number) => {
            let range = drawn_range(map.outside.ports, unsaid);
            draw(map.outside.net.addr, range, number)
        }
        None => fixed(facts, outward_change(map, facts)),
    }
}

fn draw(addr: Addr, range: (u16, u16), number: u16) -> MapPlan
    ensures value { result ≡ draw addr range number }
    ensures first { IsForward range → TriesWithin result }
{
    let (min, max) = range;
    MapPlan::Draw {
        addr,
        min,
        max,
        first: first_candidate(range, number),
    }
}

fn fixed(facts: &Facts, there: Change) -> MapPlan
    ensures value { result ≡ fixed facts.now there }
    ensures first { TriesWithin result }
{
    MapPlan::Fixed {
        there,
        back: answer_change(facts, &there),
    }
}

fn outward_change(map: &Map, facts: &Facts) -> Change
    ensures { result ≡ outward_change map.now facts.now }
{
    let addr = translated_address(map.algo, map.inside.net, map.outside.net, facts.src);
    Change {
        src: Some(End { addr, port: None }),
        dst: None,
        neutral: is_neutral(map.algo),
    }
}

fn inward_change(map: &Map, facts: &Facts) -> Change
    ensures { result ≡ inward_change map.now facts.now }
{
    let addr = translated_address(map.algo, map.outside.net, map.inside.net, facts.dst);
    Change {
        src: None,
        dst: Some(End {
            addr,
            port: map.inside.ports.map(|range| range.0),
        }),
        neutral: is_neutral(map.algo),
    }
}

fn translated_address(algo: Algo, from: Prefix, to: Prefix, addr: Addr) -> Addr
    ensures { result ≡ translated_address algo from to addr }
{
    match algo {
        Algo::Dynamic => to.addr,
        Algo::Netmap => netmap(to, addr),
        Algo::Npt66 => npt66_address(from, to, addr),
    }
}

fn is_neutral(algo: Algo) -> bool
    ensures { result ≡ is_neutral algo }
{
    matches!(algo, Algo::Npt66)
}
