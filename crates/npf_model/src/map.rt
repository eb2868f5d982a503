// Maps, which translate.
use crate::rule::{OnIf, Rule};
use npf_types::Prefix;

/// Which way a map translates (npf.conf(5), "Map"): `->`, `<-` and `<->`. The left side is the inside.
#[derive(Clone, Copy, Debug, PartialEq, Eq)]
pub enum Arrow {
    ToOutside,
    ToInside,
    Both,
}

/// How a map chooses the new address: one address and a port drawn for each connection, a block for a block of the same
/// length, or a block for a block in a way that keeps checksums (RFC 6296).
#[derive(Clone, Copy, Debug, PartialEq, Eq)]
pub enum Algo {
    Dynamic,
    Netmap,
    Npt66,
}

/// One side of a map: its block, and its first and last port where it has ports.
#[derive(Clone, Copy, Debug, PartialEq, Eq)]
pub struct Side {
    pub net: Prefix,
    pub ports: Option<(u16, u16)>,
}

/// A map of network address translation. `filter` is the rule `pass` with the map's filter and nothing else.
#[derive(Debug, Drop)]
pub struct Map {
    pub on: OnIf,
    pub algo: Algo,
    pub arrow: Arrow,
    pub proto: Option<u8>,
    pub inside: Side,
    pub outside: Side,
    pub filter: Option<Rule>,
}
