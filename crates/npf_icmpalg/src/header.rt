// The addresses that are written in an IP header, and the sums that follow them.
ghost use Rattle.std.specs.Prelude.{◌≡◌, ◌<◌, ◌^◌, length};
ghost use Rattle.npf_icmpalg.specs.Header.{HeaderWithin, header_addresses};
ghost use Rattle.npf_rewrite.specs.Sum.{sum_after};
ghost use Rattle.npf_rewrite.specs.Translated.{destination_at, header_sum, source_at};
ghost use Rattle.npf_rewrite.specs.Word.{AllWithin, Rewrites, word_list};

use npf_fields::get16;
use npf_rewrite::{WordAt, ZERO, sum_after_end, write_end};
use npf_types::{Addr, End};

/// The offsets of the headers' fields, in bytes.
mod field {
    pub const IPV4_CHECKSUM: usize = 10;

    pub const IPV4_SOURCE: usize = 12;

    pub const IPV4_DESTINATION: usize = 16;

    pub const IPV6_SOURCE: usize = 8;

    pub const IPV6_DESTINATION: usize = 24;
}

/// The ends whose addresses are written in the header that begins at `ip_at` and is of the version
/// of `family`.
#[derive(Clone, Copy)]
pub(crate) struct HeaderEnds {
    pub(crate) family: Addr,
    pub(crate) ip_at: u32,
    pub(crate) src: Option<End>,
    pub(crate) dst: Option<End>,
}

/// Writes the addresses.
pub(crate) fn write_addresses(bytes: &mut [u8], header: &HeaderEnds)
    requires { HeaderWithin (length bytes.old) header.now }
    ensures { Rewrites bytes.old (header_addresses header.now) bytes.new }
{
    write_end(bytes, source_at(header), &header.src);
    write_end(bytes, destination_at(header), &header.dst);
}

/// A sum that counts the addresses, once they are written.
pub(crate) fn sum_after_addresses(zero: u16, bytes: &[u8], header: &HeaderEnds, sum: u16) -> u16
    requires { HeaderWithin (length bytes.now) header.now }
    ensures { result ≡ sum_after zero bytes.now (header_addresses header.now) sum }
{
    let sum = sum_after_end(zero, bytes, source_at(header), &header.src, sum);
    sum_after_end(zero, bytes, destination_at(header), &header.dst, sum)
}

/// The sum of a header of IPv4 once the addresses are written.
pub(crate) fn header_sum(bytes: &[u8], header: &HeaderEnds) -> Option<WordAt>
    requires { HeaderWithin (length bytes.now) header.now }
    ensures value { result ≡ header_sum bytes.now header.now.ip_at header.now.family (header_addresses header.now) }
    ensures within { AllWithin (length bytes.now) (word_list result) }
{
    match header.family {
        Addr::V4(_) => {
            let at = header.ip_at as usize + field::IPV4_CHECKSUM;
            let value = sum_after_addresses(ZERO, bytes, header, get16(bytes, at));
            Some(WordAt { at, value })
        }
        Addr::V6(_) => None,
    }
}

/// Where the source's address stands.
fn source_at(header: &HeaderEnds) -> usize
    ensures value { result ≡ source_at header.now.ip_at header.now.family }
    ensures place { result < 2 ^ 33 }
{
    match header.family {
        Addr::V4(_) => header.ip_at as usize + field::IPV4_SOURCE,
        Addr::V6(_) => header.ip_at as usize + field::IPV6_SOURCE,
    }
}

/// Where the destination's address stands.
fn destination_at(header: &HeaderEnds) -> usize
    ensures value { result ≡ destination_at header.now.ip_at header.now.family }
    ensures place { result < 2 ^ 33 }
{
    match header.family {
        Addr::V4(_) => header.ip_at as usize + field::IPV4_DESTINATION,
        Addr::V6(_) => header.ip_at as usize + field::IPV6_DESTINATION,
    }
}
