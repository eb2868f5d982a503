// The first word of a key, and the halves of an address.
ghost use Rattle.std.specs.Prelude.{◌≡◌};
ghost use Rattle.npf_key.specs.Key.{version, upper, lower, first_word, marked_word};

use npf_types::{Addr, IfId};

/// The bit of a version number that marks the key of a port.
const PORT_MARK: u8 = 0x80;

/// Version, protocol, interface and ports of a packet's key.
pub fn first_word(proto: u8, src: Addr, sport: u16, dport: u16, ifid: IfId) -> u64
    ensures { result ≡ first_word proto src sport dport ifid }
{
    let version = u64::from(version(src));
    let proto = u64::from(proto);
    let sport = u64::from(sport);
    let dport = u64::from(dport);
    (version << 56) + (proto << 48) + (u64::from(ifid.0) << 32) + (sport << 16) + dport
}

/// Version and port of a port's key, with its mark.
pub fn marked_word(addr: Addr, port: u16) -> u64
    ensures { result ≡ marked_word addr port }
{
    (u64::from(PORT_MARK + version(addr)) << 56) + u64::from(port)
}

/// The upper 64 bits of an address: 0 for IPv4.
pub fn upper(addr: Addr) -> u64
    ensures { result ≡ upper addr }
{
    match addr {
        Addr::V4(_) => 0,
        Addr::V6(address) => (address >> 64) as u64,
    }
}

/// The lower 64 bits of an address.
pub fn lower(addr: Addr) -> u64
    ensures { result ≡ lower addr }
{
    match addr {
        Addr::V4(address) => u64::from(address),
        Addr::V6(address) => (address % (1 << 64)) as u64,
    }
}

fn version(addr: Addr) -> u8
    ensures { result ≡ version addr }
{
    match addr {
        Addr::V4(_) => 4,
        Addr::V6(_) => 6,
    }
}
