// Addresses of IPv4 and IPv6.
ghost use Rattle.std.specs.Prelude.{◌≡◌};
ghost use Rattle.npf_types.specs.Address.{width};
ghost use Rattle.npf_types.specs.AddressText.{IsAddressText};
ghost use Rattle.npf_types.specs.Reading.{IsReading};

use std::net::IpAddr;

/// An IPv4 or IPv6 address, its first byte the highest.
#[derive(Clone, Copy, Debug, PartialEq, Eq, PartialOrd, Ord, Hash)]
pub enum Addr {
    V4(u32),
    V6(u128),
}

impl Addr {
    /// The address that the text writes, or None where it writes none: four decimal numbers without leading zeros
    /// (RFC 6943 section 3.1.1, the strict form), or an IPv6 address (RFC 4291 section 2.2).
    pub fn parse_ascii(text: &[u8]) -> Option<Addr>
        ensures { IsReading IsAddressText text.now result }
    {
        match IpAddr::parse_ascii(text) {
            Ok(IpAddr::V4(ip)) => Some(Addr::V4(ip.to_bits())),
            Ok(IpAddr::V6(ip)) => Some(Addr::V6(ip.to_bits())),
            Err(_) => None,
        }
    }

    /// How many bits an address of this family has: 32 or 128.
    pub fn width(&self) -> u8
        ensures { result ≡ width self.now }
    {
        match self {
            Addr::V4(_) => 32,
            Addr::V6(_) => 128,
        }
    }
}
