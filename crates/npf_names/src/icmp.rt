// Messages of ICMP and ICMPv6 by their names. The rows of each table stand in the order of their bytes.
ghost use Rattle.std.specs.Prelude.{◌≡◌, true, map};
ghost use Rattle.npf_names.specs.Icmp.{codes_of, icmp6_codes, icmp_codes, names_in, types_of};
ghost use Rattle.npf_names.specs.Names.{number_named, reaches, rises};

use crate::named::octet_named;

static ICMP_TYPES: [(&str, u16); 16] = [
    ("althostaddr", 6),
    ("echo", 8),
    ("echoreply", 0),
    ("ireq", 15),
    ("ireqreply", 16),
    ("maskreply", 18),
    ("maskreq", 17),
    ("paramprob", 12),
    ("redirect", 5),
    ("routeradvert", 9),
    ("routersolicit", 10),
    ("sourcequench", 4),
    ("timxceed", 11),
    ("tstamp", 13),
    ("tstampreply", 14),
    ("unreach", 3),
];

static UNREACH_CODES: [(&str, u16); 6] = [
    ("host", 1),
    ("needfrag", 4),
    ("net", 0),
    ("port", 3),
    ("protocol", 2),
    ("srcfail", 5),
];

static REDIRECT_CODES: [(&str, u16); 4] = [("host", 1), ("net", 0), ("toshost", 3), ("tosnet", 2)];

static TIMXCEED_CODES: [(&str, u16); 2] = [("intrans", 0), ("reass", 1)];

static ICMP6_TYPES: [(&str, u16); 22] = [
    ("echo", 128),
    ("echoreply", 129),
    ("groupqry", 130),
    ("grouprep", 131),
    ("groupterm", 132),
    ("mcastlistendone", 132),
    ("mcastlistenq", 130),
    ("mcastlistenrep", 131),
    ("neighadv", 136),
    ("neighbradv", 136),
    ("neighbrsol", 135),
    ("neighsol", 135),
    ("packet_too_big", 2),
    ("paramprob", 4),
    ("redirect", 137),
    ("routeradv", 134),
    ("routersol", 133),
    ("rtadv", 134),
    ("rtsol", 133),
    ("timxceed", 3),
    ("toobig", 2),
    ("unreach", 1),
];

static UNREACH6_CODES: [(&str, u16); 5] = [
    ("addr", 3),
    ("admin", 1),
    ("beyondscope", 2),
    ("noroute", 0),
    ("port", 4),
];

static TIMXCEED6_CODES: [(&str, u16); 3] = [("intrans", 0), ("reass", 1), ("transit", 0)];

/// Whose names a type and its code are looked up among: those of ICMP, of ICMPv6 or of neither.
#[derive(Clone, Copy, Debug, PartialEq, Eq)]
pub enum IcmpNames {
    OfIcmp,
    OfIcmp6,
    OfNeither,
}

/// A table of names: of types, or of the codes of a type.
#[derive(Clone, Copy, Debug, PartialEq, Eq)]
pub enum IcmpTable {
    Types(IcmpNames),
    Codes(IcmpNames, u8),
}

impl IcmpTable {
    /// The number beside a name.
    pub fn number_named(self, text: &[u8]) -> Option<u8>
        ensures { result ≡ number_named (names_in self) text.now }
    {
        octet_named(self.rows(), text)
    }

    /// Its names with their numbers, in the order of their bytes.
    pub fn rows(self) -> &'static [(&'static str, u16)]
        ensures rows { map (λ row. (row.0.now, row.1)) result.now ≡ names_in self }
        ensures rising { rises (names_in self) ≡ true }
        ensures small { reaches 255 (names_in self) ≡ true }
    {
        match self {
            IcmpTable::Types(names) => names.types(),
            IcmpTable::Codes(names, kind) => names.codes(kind),
        }
    }
}

impl IcmpNames {
    #[tactic(auto, unfolding(crate::specs::Icmp::icmp_types, crate::specs::Icmp::icmp6_types))]
    fn types(self) -> &'static [(&'static str, u16)]
        ensures rows { map (λ row. (row.0.now, row.1)) result.now ≡ types_of self }
        ensures rising { rises (types_of self) ≡ true }
        ensures small { reaches 255 (types_of self) ≡ true }
    {
        match self {
            IcmpNames::OfIcmp => &ICMP_TYPES,
            IcmpNames::OfIcmp6 => &ICMP6_TYPES,
            IcmpNames::OfNeither => &[],
        }
    }

    fn codes(self, kind: u8) -> &'static [(&'static str, u16)]
        ensures rows { map (λ row. (row.0.now, row.1)) result.now ≡ codes_of self kind }
        ensures rising { rises (codes_of self kind) ≡ true }
        ensures small { reaches 255 (codes_of self kind) ≡ true }
    {
        match self {
            IcmpNames::OfIcmp => icmp_codes(kind),
            IcmpNames::OfIcmp6 => icmp6_codes(kind),
            IcmpNames::OfNeither => &[],
        }
    }
}

#[tactic(auto, unfolding(crate::specs::Icmp::unreach_codes, crate::specs::Icmp::redirect_codes, crate::specs::Icmp::timxceed_codes))]
fn icmp_codes(kind: u8) -> &'static [(&'static str, u16)]
    ensures rows { map (λ row. (row.0.now, row.1)) result.now ≡ icmp_codes kind }
    ensures rising { rises (icmp_codes kind) ≡ true }
    ensures small { reaches 255 (icmp_codes kind) ≡ true }
{
    match kind {
        3 => &UNREACH_CODES,
        5 => &REDIRECT_CODES,
        11 => &TIMXCEED_CODES,
        _ => &[],
    }
}

#[tactic(auto, unfolding(crate::specs::Icmp::unreach6_codes, crate::specs::Icmp::timxceed6_codes))]
fn icmp6_codes(kind: u8) -> &'static [(&'static str, u16)]
    ensures rows { map (λ row. (row.0.now, row.1)) result.now ≡ icmp6_codes kind }
    ensures rising { rises (icmp6_codes kind) ≡ true }
    ensures small { reaches 255 (icmp6_codes kind) ≡ true }
{
    match kind {
        1 => &UNREACH6_CODES,
        3 => &TIMXCEED6_CODES,
        _ => &[],
    }
}
