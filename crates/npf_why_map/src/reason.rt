// The conditions of a map that can't be, and what is said of each.
ghost use Rattle.std.specs.Prelude.{◌≡◌, ◌||◌, Some, codes};
ghost use Rattle.std.specs.Str.{bytes_eq};
ghost use Rattle.npf_model.specs.Describes.{fits_family, is_v6};
ghost use Rattle.npf_model.specs.MapOf.{comes_inside};
ghost use Rattle.npf_check.specs.Map.{asks_for_ports, fits_npt66, has_ports, is_one_address, is_one_port};
ghost use Rattle.npf_check.specs.Unbuilt.{is_built_kind};
ghost use Rattle.npf_why_map.specs.Reason.{asks_for_length, has_one_port_each, is_dynamic, is_inward_with_ports, is_reason, map_reason, reason_sentence};

use npf_model::{Algo, Arrow, Map, Side};
use npf_syntax::MapKind;
use npf_types::Addr;

/// A condition of a map that can't be (npf.conf(5), "Map").
#[derive(Clone, Copy, Debug, PartialEq, Eq)]
pub enum MapReason {
    TableSide,
    OtherFamilies,
    DynamicRight,
    DynamicLeft,
    StaticPorts,
    OtherLengths,
    Npt66Networks,
    PortsBeforeArrow,
    PortsNotOneEach,
    PortsWithoutProtocol,
    PortsBothWays,
}

/// Why a map with this kind in the text can't be, one of whose sides is a table or none; None exactly where it can.
pub fn map_reason(by_table: bool, kind: &MapKind, map: &Map) -> Option<MapReason>
    ensures { result ≡ map_reason by_table kind.now map.now }
{
    let known = is_known(kind);
    MapReason::ALL
        .iter()
        .copied()
        .find(|reason| reason.is_reason(by_table, known, map))
}

impl MapReason {
    /// All reasons, in the order in which they are told.
    pub const ALL: [MapReason; 11] = [
        MapReason::TableSide,
        MapReason::OtherFamilies,
        MapReason::DynamicRight,
        MapReason::DynamicLeft,
        MapReason::StaticPorts,
        MapReason::OtherLengths,
        MapReason::Npt66Networks,
        MapReason::PortsBeforeArrow,
        MapReason::PortsNotOneEach,
        MapReason::PortsWithoutProtocol,
        MapReason::PortsBothWays,
    ];

    /// Whether this is true of a map, one of whose sides is a table or none, and whose algorithm is known or isn't.
    fn is_reason(self, by_table: bool, known: bool, map: &Map) -> bool
        ensures { result ≡ is_reason by_table known map.now self }
    {
        match self {
            MapReason::TableSide => by_table,
            MapReason::OtherFamilies => !is_of_one_family(
                map.inside.net.addr,
                map.outside.net.addr,
            ),
            MapReason::DynamicRight => is_dynamic(map) && !is_one_address(&map.outside),
            MapReason::DynamicLeft => {
                is_dynamic(map) && comes_inside(map.arrow) && !is_one_address(&map.inside)
            }
            MapReason::StaticPorts => !is_dynamic(map) && has_ports(map),
            MapReason::OtherLengths => {
                asks_for_length(known, map.algo) && map.inside.net.len != map.outside.net.len
            }
            MapReason::Npt66Networks => {
                matches!(map.algo, Algo::Npt66)
                    && !(fits_npt66(&map.inside) && fits_npt66(&map.outside))
            }
            MapReason::PortsBeforeArrow => {
                matches!(map.arrow, Arrow::ToOutside) && map.inside.ports.is_some()
            }
            MapReason::PortsNotOneEach => is_inward_with_ports(map) && !has_one_port_each(map),
            MapReason::PortsWithoutProtocol => {
                is_inward_with_ports(map) && !asks_for_ports(map.proto)
            }
            MapReason::PortsBothWays => matches!(map.arrow, Arrow::Both) && has_ports(map),
        }
    }

    /// What is said of it, which is so of every map.
    pub fn sentence(self) -> &'static str
        ensures { result.now ≡ reason_sentence self }
    {
        match self {
            MapReason::TableSide => "a table can't be a side of a map",
            MapReason::OtherFamilies => "both sides of a map are of IPv4, or both of IPv6",
            MapReason::DynamicRight => "the right side of a dynamic map is one address",
            MapReason::DynamicLeft => {
                "the left side of a dynamic map with `<-` or `<->` is one address"
            }
            MapReason::StaticPorts => "a static map has no ports",
            MapReason::OtherLengths => "the two sides of a static map are networks of one length",
            MapReason::Npt66Networks => {
                "the two sides of a map by npt66 are networks of IPv6 with a length of at most 48"
            }
            MapReason::PortsBeforeArrow => "the left side of a map with `->` has no ports",
            MapReason::PortsNotOneEach => {
                "a map with `<-` has one port on each side, or none at all"
            }
            MapReason::PortsWithoutProtocol => {
                "the ports of a map with `<-` stand beside `proto tcp` or `proto udp`"
            }
            MapReason::PortsBothWays => "a map with `<->` has no ports",
        }
    }
}

fn is_of_one_family(one: Addr, other: Addr) -> bool
    ensures { result ≡ fits_family (Some (is_v6 one)) other }
{
    matches!(
        (one, other),
        (Addr::V4(_), Addr::V4(_)) | (Addr::V6(_), Addr::V6(_))
    )
}

fn is_dynamic(map: &Map) -> bool
    ensures { result ≡ is_dynamic map.now.algo }
{
    matches!(map.algo, Algo::Dynamic)
}

fn is_one_address(side: &Side) -> bool
    ensures { result ≡ is_one_address side.now.net }
{
    side.net.len == side.net.addr.width()
}

fn comes_inside(arrow: Arrow) -> bool
    ensures { result ≡ comes_inside arrow }
{
    !matches!(arrow, Arrow::ToOutside)
}

fn has_ports(map: &Map) -> bool
    ensures { result ≡ has_ports map.now }
{
    let Map {
        inside,
        outside,
        ..
    } = map;
    inside.ports.is_some() || outside.ports.is_some()
}

/// Whether an algorithm, which is known or isn't, asks for blocks of one length.
fn asks_for_length(known: bool, algo: Algo) -> bool
    ensures { result ≡ asks_for_length known algo }
{
    match algo {
        Algo::Dynamic => false,
        Algo::Netmap => known,
        Algo::Npt66 => true,
    }
}

fn fits_npt66(side: &Side) -> bool
    ensures { result ≡ fits_npt66 side.now.net }
{
    matches!(side.net.addr, Addr::V6(_)) && side.net.len <= 48
}

fn is_inward_with_ports(map: &Map) -> bool
    ensures { result ≡ is_inward_with_ports map.now }
{
    matches!(map.arrow, Arrow::ToInside) && has_ports(map)
}

fn asks_for_ports(proto: Option<u8>) -> bool
    ensures { result ≡ asks_for_ports proto }
{
    match proto {
        Some(proto) => proto == 6 || proto == 17,
        None => false,
    }
}

fn has_one_port_each(map: &Map) -> bool
    ensures { result ≡ has_one_port_each map.now }
{
    is_one_port(&map.inside) && is_one_port(&map.outside)
}

fn is_one_port(side: &Side) -> bool
    ensures { result ≡ is_one_port side.now.ports }
{
    match side.ports {
        Some((first, last)) => first == last,
        None => false,
    }
}

/// Whether the kind's algorithm, if it names one, is known.
fn is_known(kind: &MapKind) -> bool
    ensures { result ≡ is_built_kind kind.now }
{
    match kind {
        MapKind::Static {
            algo: Some(word),
            ..
        } => is_known_algo(word.text.as_slice()),
        MapKind::Static { algo: None, .. } => true,
        MapKind::Dynamic { algo, .. } => algo.is_none(),
    }
}

fn is_known_algo(word: &[u8]) -> bool
    ensures { result ≡ (bytes_eq word.now (codes "netmap") || bytes_eq word.now (codes "npt66")) }
{
    word == "netmap".as_bytes() || word == "npt66".as_bytes()
}
