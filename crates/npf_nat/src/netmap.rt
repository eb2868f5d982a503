// Addresses moved from one network to another of the same length (npf.conf(5), `algo netmap`).
ghost use Rattle.std.specs.Prelude.{◌≡◌, ◌≤◌, ◌+◌};
ghost use Rattle.npf_types.specs.Address.{kept_bits};
ghost use Rattle.npf_types.specs.declared.address.Addr.TheVariants.{V4, V6};
ghost use Rattle.npf_nat.specs.Netmap.{host_bits, in_block, moved, netmap};

use npf_types::{Addr, Prefix};

/// The address of the block that has the host bits of `addr`. An address of another family stays.
pub fn netmap(to: Prefix, addr: Addr) -> Addr
    ensures { result ≡ netmap to addr }
{
    match to.addr {
        Addr::V4(block) => moved_v4(block, to.len, addr),
        Addr::V6(block) => moved_v6(block, to.len, addr),
    }
}

fn moved_v4(block: u32, n: u8, addr: Addr) -> Addr
    requires short { n ≤ 32 }
    requires zeroed { block ≡ kept_bits 32 n block }
    ensures { result ≡ moved (V4 block) n addr }
{
    match addr {
        Addr::V4(a) => Addr::V4(in_block_v4(block, n, a)),
        Addr::V6(_) => addr,
    }
}

fn moved_v6(block: u128, n: u8, addr: Addr) -> Addr
    requires short { n ≤ 128 }
    requires zeroed { block ≡ kept_bits 128 n block }
    ensures { result ≡ moved (V6 block) n addr }
{
    match addr {
        Addr::V6(a) => Addr::V6(in_block_v6(block, n, a)),
        Addr::V4(_) => addr,
    }
}

fn in_block_v4(block: u32, n: u8, a: u32) -> u32
    requires short { n ≤ 32 }
    requires zeroed { block ≡ kept_bits 32 n block }
    ensures { result ≡ in_block 32 block n a }
{
    block + host_bits_v4(a, n)
}

/// The address of the block of `n` bits that has the host bits of `a`.
pub fn in_block_v6(block: u128, n: u8, a: u128) -> u128
    requires short { n ≤ 128 }
    requires zeroed { block ≡ kept_bits 128 n block }
    ensures { result ≡ in_block 128 block n a }
{
    block + host_bits_v6(a, n)
}

fn host_bits_v4(a: u32, n: u8) -> u32
    requires { n ≤ 32 }
    ensures { result ≡ host_bits 32 n a }
{
    if n == 0 { a } else { a % (1 << (32 - n)) }
}

fn host_bits_v6(a: u128, n: u8) -> u128
    requires { n ≤ 128 }
    ensures { result ≡ host_bits 128 n a }
{
    if n == 0 { a } else { a % (1 << (128 - n)) }
}
