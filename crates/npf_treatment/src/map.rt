// What a map writes.
ghost use Rattle.std.specs.Prelude.{◌≡◌};
ghost use Rattle.npf_treatment.specs.Treatment.{address_effect, inward_port, map_effect, outward_port};

use npf_model::{Algo, Map};
use npf_types::{Addr, Dir, Prefix};

/// What a map writes into a packet that passes one way (npf.conf(5), "Map"): into its source where it goes out, and into its destination
/// where it comes in.
#[derive(Clone, Copy, Debug, PartialEq, Eq)]
pub struct MapEffect {
    pub address: AddressEffect,
    pub port: PortEffect,
}

/// The address that a map writes: one address; that of a block with the packet's own host part; or that of a block for one of another
/// block, so that checksums stay (RFC 6296).
#[derive(Clone, Copy, Debug, PartialEq, Eq)]
pub enum AddressEffect {
    One(Addr),
    Block(Prefix),
    Neutral { from: Prefix, to: Prefix },
}

/// The port that a map writes: none; one of a range for each connection, which is the configuration's where the map gives none; or this
/// one.
#[derive(Clone, Copy, Debug, PartialEq, Eq)]
pub enum PortEffect {
    Kept,
    Drawn(Option<(u16, u16)>),
    Written(u16),
}

/// What the map writes into a packet that passes this way: of its right side going out, and of its left side coming in.
pub fn map_effect(map: &Map, dir: Dir) -> MapEffect
    ensures { result ≡ map_effect map.now dir }
{
    match dir {
        Dir::Out => MapEffect {
            address: address_effect(map.algo, map.inside.net, map.outside.net),
            port: outward_port(map),
        },
        Dir::In => MapEffect {
            address: address_effect(map.algo, map.outside.net, map.inside.net),
            port: inward_port(map),
        },
    }
}

// What is written for an address of the block `from`.
fn address_effect(algo: Algo, from: Prefix, to: Prefix) -> AddressEffect
    ensures { result ≡ address_effect algo from to }
{
    match algo {
        Algo::Dynamic => AddressEffect::One(to.addr),
        Algo::Netmap => AddressEffect::Block(to),
        Algo::Npt66 => AddressEffect::Neutral { from, to },
    }
}

// Only a dynamic map draws ports.
fn outward_port(map: &Map) -> PortEffect
    ensures { result ≡ outward_port map.now }
{
    match map.algo {
        Algo::Dynamic => PortEffect::Drawn(map.outside.ports),
        Algo::Netmap | Algo::Npt66 => PortEffect::Kept,
    }
}

// The first of the left side's ports.
fn inward_port(map: &Map) -> PortEffect
    ensures { result ≡ inward_port map.now }
{
    match map.inside.ports {
        Some((first, _)) => PortEffect::Written(first),
        None => PortEffect::Kept,
    }
}
