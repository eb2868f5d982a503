// Protocols by their names.
ghost use Rattle.std.specs.Prelude.{◌≡◌, map};
ghost use Rattle.npf_names.specs.Names.{number_named};
ghost use Rattle.npf_names.specs.Protocol.{protocols};

use crate::named::octet_named;

/// In the order of their bytes.
static PROTOCOLS: [(&str, u16); 58] = [
    ("ah", 51),
    ("ax.25", 93),
    ("carp", 112),
    ("dccp", 33),
    ("ddp", 37),
    ("egp", 8),
    ("eigrp", 88),
    ("encap", 98),
    ("esp", 50),
    ("etherip", 97),
    ("ethernet", 143),
    ("fc", 133),
    ("ggp", 3),
    ("gre", 47),
    ("hip", 139),
    ("hmp", 20),
    ("icmp", 1),
    ("icmp6", 58),
    ("icmpv6", 58),
    ("idpr-cmtp", 38),
    ("idrp", 45),
    ("igmp", 2),
    ("igp", 9),
    ("ip", 0),
    ("ipcomp", 108),
    ("ipencap", 4),
    ("ipip", 94),
    ("ipv6", 41),
    ("ipv6-frag", 44),
    ("ipv6-icmp", 58),
    ("ipv6-nonxt", 59),
    ("ipv6-opts", 60),
    ("ipv6-route", 43),
    ("isis", 124),
    ("iso-tp4", 29),
    ("l2tp", 115),
    ("manet", 138),
    ("mobility-header", 135),
    ("mpls-in-ip", 137),
    ("ospf", 89),
    ("pim", 103),
    ("pup", 12),
    ("rdp", 27),
    ("rohc", 142),
    ("rspf", 73),
    ("rsvp", 46),
    ("sctp", 132),
    ("shim6", 140),
    ("skip", 57),
    ("st", 5),
    ("tcp", 6),
    ("udp", 17),
    ("udplite", 136),
    ("vmtp", 81),
    ("vrrp", 112),
    ("wesp", 141),
    ("xns-idp", 22),
    ("xtp", 36),
];

/// The number of a protocol.
#[tactic(auto, unfolding(crate::specs::Protocol::protocols))]
pub fn protocol_number(text: &[u8]) -> Option<u8>
    ensures { result ≡ number_named protocols text.now }
{
    octet_named(&PROTOCOLS, text)
}

/// The names of protocols with their numbers, in the order of their bytes.
#[tactic(auto, unfolding(crate::specs::Protocol::protocols))]
pub fn protocol_rows() -> &'static [(&'static str, u16)]
    ensures { map (λ row. (row.0.now, row.1)) result.now ≡ protocols }
{
    &PROTOCOLS
}
