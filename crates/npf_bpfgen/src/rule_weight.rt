// How many instructions a rule takes at most, counted before any is written.
ghost use Rattle.std.specs.Prelude.{◌≡◌, ◌≤◌, ◌*◌, ◌^◌, ◌<◌, length};
ghost use Rattle.std.specs.List.{sum_by};
ghost use Rattle.npf_model.specs.Count.{listed};
ghost use Rattle.npf_bpfgen.specs.RuleWeight.{HasShortEnds, HasShortLists, block_weight, ends_weight, item_weight, items_weight, weight_of};

use npf_model::{AddrItem, Ends, Rule};
use npf_types::Addr;

/// A rule's weight: 64, and 6 for each block of IPv4 addresses, 16 for each of IPv6 addresses, 8 for
/// each table, 6 for each range of ports and 2 for each protocol, over all its lists. Each list must
/// have fewer than 2^56 elements.
pub fn weight(rule: &Rule) -> u64
    requires { HasShortLists rule.now }
    ensures { result ≡ weight_of rule.now }
{
    64 + 2 * rule.protos.as_slice().len() as u64
        + weight_of_ends(&rule.from)
        + weight_of_ends(&rule.to)
}

fn weight_of_ends(ends: &Ends) -> u64
    requires { HasShortEnds ends.now }
    ensures value { result ≡ ends_weight ends.now }
    ensures bound { result ≤ 22 * 2 ^ 56 }
{
    let addrs = match &ends.addrs {
        Some(items) => weight_of_items(items.as_slice()),
        None => 0,
    };
    let ports = match &ends.ports {
        Some(ranges) => 6 * ranges.as_slice().len() as u64,
        None => 0,
    };
    addrs + ports
}

fn weight_of_items(items: &[AddrItem]) -> u64
    requires { length items.now < 2 ^ 56 }
    ensures value { result ≡ sum_by item_weight items.now }
    ensures bound { result ≤ 16 * length items.now }
{
    let mut sum = 0;
    for item in items {
        sum += weight_of_item(item);
    }
    sum
}

fn weight_of_item(item: &AddrItem) -> u64
    ensures value { result ≡ item_weight item.now }
    ensures bound { result ≤ 16 }
{
    match item {
        AddrItem::Net(prefix) => match prefix.addr {
            Addr::V4(_) => 6,
            Addr::V6(_) => 16,
        },
        AddrItem::InTable(_) => 8,
    }
}
