// The hull of a list of addresses, which may admit more than the list, of either family: the program decides.
ghost use Rattle.std.specs.Prelude.{◌≡◌, ◌≤◌, ◌-◌, ◌/◌, ◌^◌, Some, false};
ghost use Rattle.npf_types.specs.Address.{kept_bits};
ghost use Rattle.npf_ruleset.specs.Row.{IsHullOfAddrs, IsHullOfBits, IsWithin, hull_number, is_within};
ghost use Rattle.npf_types.specs.declared.address.Addr.TheVariants.{V6};

use npf_model::{AddrItem, Ends};
use npf_types::{Addr, Prefix};

/// The least and the greatest number of some addresses, as `hull_number` has them.
#[derive(Clone, Copy, Drop)]
pub(crate) struct AddrHull {
    pub(crate) first: u64,
    pub(crate) last: u64,
}

/// The number by which hulls know an address: that of an IPv4 address, and of an IPv6 address its upper half.
pub(crate) fn hull_number(addr: Addr) -> u64
    ensures { result ≡ hull_number addr }
{
    match addr {
        Addr::V4(number) => u64::from(number),
        Addr::V6(number) => upper_half(number),
    }
}

fn upper_half(number: u128) -> u64
    ensures { result ≡ number / 2 ^ 64 }
{
    (number >> 64) as u64
}

/// The hull of all blocks that are listed. None where any address may be meant: without a list, where
/// the list is excluded, or where it names a table, whose addresses change.
pub(crate) fn addr_hull(ends: &Ends) -> Option<AddrHull>
    ensures { IsHullOfAddrs ends.now.excluded ends.now.addrs result }
{
    match &ends.addrs {
        Some(items) if !ends.excluded => items_hull(items.as_slice()),
        _ => None,
    }
}

fn items_hull(items: &[AddrItem]) -> Option<AddrHull>
    ensures { IsHullOfAddrs false (Some items.now) result }
{
    let mut hull = AddrHull {
        first: u64::MAX,
        last: 0,
    };
    for item in items {
        match item {
            AddrItem::Net(prefix) => hull = joined(hull, block_hull(prefix)),
            AddrItem::InTable(_) => return None,
        }
    }
    Some(hull)
}

fn joined(one: AddrHull, other: AddrHull) -> AddrHull
    ensures one { IsWithin one result }
    ensures other { IsWithin other result }
{
    AddrHull {
        first: one.first.min(other.first),
        last: one.last.max(other.last),
    }
}

fn block_hull(prefix: &Prefix) -> AddrHull
    ensures { IsHullOfBits prefix.now.len prefix.now.addr result }
{
    match prefix.addr {
        Addr::V4(first) => AddrHull {
            first: u64::from(first),
            last: u64::from(first) + ((1 << (32 - prefix.len)) - 1),
        },
        Addr::V6(first) => block_hull_v6(first, prefix.len),
    }
}

fn block_hull_v6(first: u128, len: u8) -> AddrHull
    requires short { len ≤ 128 }
    requires zeroed { first ≡ kept_bits 128 len first }
    ensures { IsHullOfBits len (V6 first) result }
{
    AddrHull {
        first: upper_half(first),
        last: upper_half(first.saturating_add(host_bits(len))),
    }
}

// The greatest number of the bits behind the first `len` of 128.
fn host_bits(len: u8) -> u128
    requires { len ≤ 128 }
    ensures { result ≡ 2 ^ (128 - len) - 1 }
{
    if len == 0 {
        u128::MAX
    } else {
        (1 << (128 - len)) - 1
    }
}

/// Whether an address of this number lies in the hull; without one any address does.
pub(crate) fn is_within(hull: Option<AddrHull>, number: u64) -> bool
    ensures { result ≡ is_within hull number }
{
    match hull {
        Some(hull) => hull.first <= number && number <= hull.last,
        None => true,
    }
}
