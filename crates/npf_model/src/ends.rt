// The ends of a rule: addresses and ports.
ghost use Rattle.std.specs.Prelude.{◌≡◌};
ghost use Rattle.std.specs.List.{list_any};
ghost use Rattle.npf_model.specs.Describes.{item_allows};

use npf_types::{Addr, List, Prefix};

/// What an address is compared with: a block, or a table by its place in the model's list, counted from 0.
#[derive(Clone, Copy, Debug, PartialEq, Eq)]
pub enum AddrItem {
    Net(Prefix),
    InTable(u32),
}

impl AddrItem {
    /// Whether it can have an address of the family, IPv6 where `v6` is true: a table can of both.
    fn allows(self, v6: bool) -> bool
        ensures { result ≡ item_allows v6 self }
    {
        match self {
            AddrItem::Net(prefix) => match prefix.addr {
                Addr::V4(_) => !v6,
                Addr::V6(_) => v6,
            },
            AddrItem::InTable(_) => true,
        }
    }
}

/// Whether some item of the list can have an address of the family, IPv6 where `v6` is true.
pub fn some_allow(items: &[AddrItem], v6: bool) -> bool
    ensures { result ≡ list_any (item_allows v6) items.now }
{
    items.iter().any(|item| item.allows(v6))
}

/// One side of a rule. An absent list means any; a range of ports has its first and its last. Where the addresses are `excluded`, the side is an address
/// of a family of theirs that none of them has; no text gives `excluded` without addresses, and nothing is said by it then.
#[derive(Debug, Drop)]
pub struct Ends {
    pub excluded: bool,
    pub addrs: Option<List<AddrItem>>,
    pub ports: Option<List<(u16, u16)>>,
}
