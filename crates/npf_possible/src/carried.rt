// The protocols that packets carry.
ghost use Rattle.std.specs.Prelude.{◌↔◌, IsTrue};
ghost use Rattle.npf_possible.specs.Possible.{IsCarried};

use npf_types::Addr;

/// Whether a packet from this address can have this protocol: over IPv6 the number of an extension header is no packet's (RFC 8200
/// section 4.1, RFC 4302 section 2).
pub fn is_carried(src: &Addr, proto: u8) -> bool
    ensures { IsTrue result ↔ IsCarried src.now proto }
{
    match src {
        Addr::V4(_) => true,
        Addr::V6(_) => !matches!(proto, 0 | 43 | 44 | 51 | 60),
    }
}
