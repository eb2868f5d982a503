// Addresses moved between prefixes with the sum kept (RFC 6296).
ghost use Rattle.std.specs.Prelude.{◌≡◌, ◌≤◌, ◌+◌, ◌-◌, ◌*◌, ◌%◌};
ghost use Rattle.npf_types.specs.Address.{kept_bits};
ghost use Rattle.npf_types.specs.declared.address.Addr.TheVariants.{V6};
ghost use Rattle.npf_nat.specs.Npt.{prefix_sum, fourth_word, adjusted_word, with_fourth_word, npt66_number, npt66, translated_v6, npt66_address, address_number};
ghost use Rattle.npf_nat.specs.PrefixPair.{ArePrefixes};

use crate::netmap::in_block_v6;
use npf_types::{Addr, Prefix};

/// The address translated from one prefix to another, both of IPv6 and of one length of at most 48
/// bits, so that the sum of its words stays (RFC 6296 section 3).
pub fn npt66(from: Prefix, to: Prefix, addr: u128) -> u128
    requires { ArePrefixes from to }
    ensures { result ≡ npt66 from to addr }
{
    npt66_number(
        address_number(from.addr),
        address_number(to.addr),
        to.len,
        addr,
    )
}

/// The same of an address and a block of either family: an address of IPv4 stays, and so does one
/// for which the block is of IPv4.
pub fn npt66_address(from: Prefix, to: Prefix, addr: Addr) -> Addr
    ensures { result ≡ npt66_address from to addr }
{
    match to.addr {
        Addr::V6(block) => translated_v6(address_number(from.addr), block, to.len, addr),
        Addr::V4(_) => addr,
    }
}

fn translated_v6(from: u128, to: u128, n: u8, addr: Addr) -> Addr
    requires short { n ≤ 128 }
    requires zeroed { to ≡ kept_bits 128 n to }
    ensures { result ≡ translated_v6 from (V6 to) n addr }
{
    match addr {
        Addr::V6(a) => Addr::V6(npt66_number(from, to, n, a)),
        Addr::V4(_) => addr,
    }
}

fn npt66_number(from: u128, to: u128, n: u8, a: u128) -> u128
    requires short { n ≤ 128 }
    requires zeroed { to ≡ kept_bits 128 n to }
    ensures { result ≡ npt66_number from to n a }
{
    let word = adjusted_word(fourth_word(a), prefix_sum(from), prefix_sum(to));
    with_fourth_word(in_block_v6(to, n, a), word)
}

fn address_number(addr: Addr) -> u128
    ensures { result ≡ address_number addr }
{
    match addr {
        Addr::V4(a) => u128::from(a),
        Addr::V6(a) => a,
    }
}

/// The sum of the first three words.
fn prefix_sum(a: u128) -> u32
    ensures value { result ≡ prefix_sum a }
    ensures bound { result ≤ 3 * 65535 }
{
    let first = (a >> 112) as u32;
    let second = (a >> 96) % 65536;
    let third = (a >> 80) % 65536;
    first + second as u32 + third as u32
}

fn fourth_word(a: u128) -> u16
    ensures { result ≡ fourth_word a }
{
    ((a >> 64) % 65536) as u16
}

/// A word to which the old prefix's sum less the new one's is added in one's complement; 0xFFFF is
/// written as 0.
fn adjusted_word(word: u16, old_sum: u32, new_sum: u32) -> u16
    requires old { old_sum ≤ 3 * 65535 }
    requires new { new_sum ≤ 3 * 65535 }
    ensures { result ≡ adjusted_word word old_sum new_sum }
{
    let sum = end_around(u32::from(word) + old_sum + u32::from(!end_around(new_sum)));
    if sum == 0xFFFF { 0 } else { sum }
}

/// The sum in one's complement: the carries above 16 bits are added to these.
fn end_around(sum: u32) -> u16
    requires { sum ≤ 7 * 65535 }
    ensures { result % 65535 ≡ sum % 65535 }
{
    let once = sum % 65536 + sum / 65536;
    (once % 65536 + once / 65536) as u16
}

fn with_fourth_word(a: u128, word: u16) -> u128
    ensures { result ≡ with_fourth_word a word }
{
    (a >> 80 << 80) + (u128::from(word) << 64) + a % (1 << 64)
}
