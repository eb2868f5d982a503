// The map that translates a packet.
ghost use Rattle.std.specs.Prelude.{◌≡◌};
ghost use Rattle.npf_model.specs.Configuration.{map_place_of};
ghost use Rattle.npf_model.specs.MapOf.{comes_inside, fits_filter, fits_map_protocol, fits_segment, fits_side, goes_outside, map_applies};
ghost use Rattle.npf_model.specs.Place.{is_on};
ghost use Rattle.npf_ruleset.specs.Configuration.{configuration};
ghost use Rattle.npf_ruleset.specs.Tables.{entries};

use crate::config::Config;
use crate::describes::{describes_packet, destination_of, fits_port, source_of};
use npf_model::{Arrow, Map, OnIf, Rule, Side};
use npf_table::Table;
use npf_types::{Addr, Dir, Facts, IfId};
use std::sync::Arc;

/// The place, counted from 0 in the order of the text, of the first map that applies to a packet, or
/// None exactly where none does. A map's filter is tested as it is written: it has no program, and the
/// packet's bytes aren't read. It takes no memory.
pub fn map_for(config: &Config, facts: &Facts, _ip: &[u8], ifid: IfId, dir: Dir) -> Option<u32>
    ensures { result ≡ map_place_of (configuration config.now) facts.now ifid dir }
{
    for (at, map) in config.model().maps.as_slice().iter().enumerate() {
        if applies(map, config.tables(), facts, ifid, dir) {
            return Some(at as u32);
        }
    }
    None
}

fn applies(map: &Map, tables: &[Arc<Table>], facts: &Facts, ifid: IfId, dir: Dir) -> bool
    ensures { result ≡ map_applies (entries tables.now) facts.now ifid dir map.now }
{
    is_on(&map.on, ifid)
        && fits_protocol(map.proto, facts.proto)
        && fits_filter(&map.filter, tables, facts)
        && fits_segment(map, facts, dir)
}

pub(crate) fn is_on(on: &OnIf, ifid: IfId) -> bool
    ensures { result ≡ is_on on.now ifid }
{
    on.id == ifid && on.id != IfId::UNKNOWN
}

pub(crate) fn fits_protocol(asked: Option<u8>, proto: u8) -> bool
    ensures { result ≡ fits_map_protocol asked proto }
{
    match asked {
        Some(asked) => asked == proto,
        None => true,
    }
}

fn fits_filter(filter: &Option<Rule>, tables: &[Arc<Table>], facts: &Facts) -> bool
    ensures { result ≡ fits_filter filter.now (entries tables.now) facts.now }
{
    match filter {
        Some(rule) => describes_packet(rule, tables, facts),
        None => true,
    }
}

fn fits_segment(map: &Map, facts: &Facts, dir: Dir) -> bool
    ensures { result ≡ fits_segment map.now facts.now dir }
{
    match dir {
        Dir::Out => {
            goes_outside(map.arrow) && fits_side(&map.inside, facts.src, source_of(&facts.l4))
        }
        Dir::In => {
            comes_inside(map.arrow) && fits_side(&map.outside, facts.dst, destination_of(&facts.l4))
        }
    }
}

pub(crate) fn goes_outside(arrow: Arrow) -> bool
    ensures { result ≡ goes_outside arrow }
{
    match arrow {
        Arrow::ToOutside | Arrow::Both => true,
        Arrow::ToInside => false,
    }
}

pub(crate) fn comes_inside(arrow: Arrow) -> bool
    ensures { result ≡ comes_inside arrow }
{
    match arrow {
        Arrow::ToInside | Arrow::Both => true,
        Arrow::ToOutside => false,
    }
}

fn fits_side(side: &Side, addr: Addr, port: Option<u16>) -> bool
    ensures { result ≡ fits_side side.now addr port }
{
    side.net.has(addr) && fits_port(side.ports, port)
}
