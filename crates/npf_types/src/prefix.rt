// Prefixes of addresses.
ghost use Rattle.std.specs.Prelude.{◌≡◌, ◌≤◌, ◌-◌, ◌/◌, ◌*◌, ◌^◌, ◌↔◌, IsTrue, IsSome, IfSome};
ghost use Rattle.npf_types.specs.Address.{width, cleared, first_bits, kept_bits};

use crate::address::Addr;

/// An address block (RFC 4632 section 3.1, RFC 4291 section 2.3): the addresses whose first `len` bits are those
/// of `addr`, whose other bits are zero. `len` is at most 32 or 128.
#[derive(Clone, Copy, Debug, PartialEq, Eq, PartialOrd, Ord, Hash)]
pub struct Prefix {
    pub addr: Addr,
    pub len: u8,
    ghost short: { len ≤ width addr },
    ghost zeroed: { addr ≡ cleared addr len },
}

impl Prefix {
    ghost use Rattle.npf_types.specs.Block.{block};
    ghost use Rattle.npf_types.specs.Prefix.{HasAddress, has_address};

    /// The block of `addr` with this length, its host bits cleared. None exactly where `len` passes the family's width.
    pub fn of(addr: Addr, len: u8) -> Option<Prefix>
        ensures fits { IsSome result ↔ (len ≤ width addr) }
        ensures addr { IfSome result (λ p. p.addr ≡ cleared addr len) }
        ensures len { IfSome result (λ p. p.len ≡ len) }
        ensures block { IfSome result (λ p. p ≡ block addr len) }
    {
        if len > addr.width() {
            return None;
        }
        Some(Prefix {
            addr: addr_cleared(addr, len),
            len,
        })
    }

    /// Whether the address lies in the block: its family agrees and its first `len` bits are equal.
    pub fn has(&self, addr: Addr) -> bool
        ensures value { result ≡ has_address self.now addr }
        ensures fact { IsTrue result ↔ HasAddress self.now addr }
    {
        match (self.addr, addr) {
            (Addr::V4(a), Addr::V4(b)) => first_bits_v4(a, self.len) == first_bits_v4(b, self.len),
            (Addr::V6(a), Addr::V6(b)) => first_bits_v6(a, self.len) == first_bits_v6(b, self.len),
            _ => false,
        }
    }
}

#[tactic(auto, using(crate::proofs::AddressLemmas::clearing))]
fn addr_cleared(addr: Addr, len: u8) -> Addr
    requires { len ≤ width addr }
    ensures value { result ≡ cleared addr len }
    ensures width { width result ≡ width addr }
    ensures again { cleared result len ≡ result }
{
    match addr {
        Addr::V4(a) => Addr::V4(kept_bits_v4(a, len)),
        Addr::V6(a) => Addr::V6(kept_bits_v6(a, len)),
    }
}

fn first_bits_v4(a: u32, n: u8) -> u32
    requires { n ≤ 32 }
    ensures { result ≡ first_bits 32 n a }
{
    if n == 0 { 0 } else { a >> (32 - n) }
}

fn first_bits_v6(a: u128, n: u8) -> u128
    requires { n ≤ 128 }
    ensures { result ≡ first_bits 128 n a }
{
    if n == 0 { 0 } else { a >> (128 - n) }
}

fn kept_bits_v4(a: u32, n: u8) -> u32
    requires { n ≤ 32 }
    ensures { result ≡ kept_bits 32 n a }
{
    if n == 0 { 0 } else { a >> (32 - n) << (32 - n) }
}

fn kept_bits_v6(a: u128, n: u8) -> u128
    requires { n ≤ 128 }
    ensures { result ≡ kept_bits 128 n a }
{
    if n == 0 {
        0
    } else {
        a >> (128 - n) << (128 - n)
    }
}
