// Address blocks of either family as numbers of 128 bits.
ghost use Rattle.std.specs.Prelude.{◌≡◌, ◌≤◌, ◌*◌, ◌^◌, ◌↔◌, IsTrue, true, false};
ghost use Rattle.npf_types.specs.Address.{first_bits};
ghost use Rattle.npf_lpm.specs.Agree.{AgreesIn, IsAligned};
ghost use Rattle.npf_lpm.specs.Families.{aligned_block, number, prefix_of};

use npf_types::{Addr, Prefix};

/// A block of either family: its first address standing left in 128 bits, and how many bits its addresses share.
#[derive(Clone, Copy, PartialEq, Eq, PartialOrd, Ord)]
pub(crate) struct Aligned {
    pub(crate) first: u128,
    pub(crate) len: u8,
}

/// The prefix with its address standing left in 128 bits.
pub(crate) fn aligned_of(prefix: Prefix) -> Aligned
    ensures value { result ≡ aligned_block prefix }
    ensures aligned { IsAligned result }
{
    Aligned {
        first: number_of(prefix.addr),
        len: prefix.len,
    }
}

/// The prefix of IPv4 that a block is.
pub(crate) fn narrow_prefix(block: Aligned) -> Prefix
    ensures { result ≡ prefix_of true block }
{
    let addr = Addr::V4((block.first >> 96) as u32);
    Prefix::of(addr, block.len.min(32)).unwrap()
}

/// The prefix of IPv6 that a block is.
pub(crate) fn wide_prefix(block: Aligned) -> Prefix
    ensures { result ≡ prefix_of false block }
{
    Prefix::of(Addr::V6(block.first), block.len.min(128)).unwrap()
}

/// The address standing left in 128 bits.
pub(crate) fn number_of(addr: Addr) -> u128
    ensures { result ≡ number addr }
{
    match addr {
        Addr::V4(a) => (a as u128) << 96,
        Addr::V6(a) => a,
    }
}

/// Whether the first `len` bits are the same.
pub(crate) fn agrees_in(len: u8, a: u128, b: u128) -> bool
    requires { len ≤ 128 }
    ensures { IsTrue result ↔ AgreesIn len a b }
{
    first_bits_of(a, len) == first_bits_of(b, len)
}

fn first_bits_of(a: u128, len: u8) -> u128
    requires { len ≤ 128 }
    ensures { result ≡ first_bits 128 len a }
{
    if len == 0 { 0 } else { a >> (128 - len) }
}
