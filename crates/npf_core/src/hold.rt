// The keys of a plain machine, a list without order.
ghost use Rattle.std.specs.Prelude.{◌≡◌, filter, not};
ghost use Rattle.std.specs.List.{list_any};
ghost use Rattle.npf_core.specs.Hold.{holder_in};
ghost use Rattle.npf_core.specs.NextState.{is_found, is_id};

use crate::conn_id::ConnId;
use crate::found::Found;
use npf_types::Key;

/// A key that is held.
#[derive(Clone, Copy, Debug, PartialEq, Eq)]
pub struct Holding {
    pub key: Key,
    pub found: Found,
}

pub(crate) fn holder_in(holdings: &[Holding], key: Key) -> Option<Found>
    ensures { result ≡ holder_in holdings.now key }
{
    holdings
        .iter()
        .find(|holding| holding.key == key)
        .map(|holding| holding.found)
}

pub(crate) fn is_held(holdings: &[Holding], found: Found) -> bool
    ensures { result ≡ list_any (λ holding. is_found holding.found found) holdings.now }
{
    holdings.iter().any(|holding| holding.found == found)
}

pub(crate) fn is_held_by(holdings: &[Holding], id: ConnId) -> bool
    ensures { result ≡ list_any (λ holding. is_id holding.found.id id) holdings.now }
{
    holdings.iter().any(|holding| holding.found.id == id)
}

pub(crate) fn drop_held(holdings: &mut Vec<Holding>, found: Found)
    ensures { holdings.new.items ≡ filter (λ holding. not (is_found holding.found found)) holdings.old.items }
{
    holdings.retain(|holding| holding.found != found);
}
