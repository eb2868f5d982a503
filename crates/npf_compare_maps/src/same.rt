// Whether two maps write the same.
ghost use Rattle.std.specs.Prelude.{◌≡◌, true, false};

use npf_treatment::{AddressEffect, MapEffect, PortEffect};
use npf_types::{Addr, Prefix};

/// Whether what two maps write is the same; no map writes nothing.
pub(crate) fn writes_same(one: &Option<MapEffect>, other: &Option<MapEffect>) -> bool
    ensures same { result ≡ true → one.now ≡ other.now }
    ensures other { result ≡ false → ¬ one.now ≡ other.now }
{
    match (one, other) {
        (Some(one), Some(other)) => {
            is_same_address(&one.address, &other.address) && is_same_port(one.port, other.port)
        }
        _ => one.is_none() && other.is_none(),
    }
}

fn is_same_address(one: &AddressEffect, other: &AddressEffect) -> bool
    ensures same { result ≡ true → one.now ≡ other.now }
    ensures other { result ≡ false → ¬ one.now ≡ other.now }
{
    match (one, other) {
        (AddressEffect::One(one), AddressEffect::One(other)) => is_same_number(one, other),
        (AddressEffect::Block(one), AddressEffect::Block(other)) => is_same_block(one, other),
        (
            AddressEffect::Neutral { from, to },
            AddressEffect::Neutral {
                from: other_from,
                to: other_to,
            },
        ) => is_same_block(from, other_from) && is_same_block(to, other_to),
        _ => false,
    }
}

fn is_same_number(one: &Addr, other: &Addr) -> bool
    ensures same { result ≡ true → one.now ≡ other.now }
    ensures other { result ≡ false → ¬ one.now ≡ other.now }
{
    one == other
}

fn is_same_block(one: &Prefix, other: &Prefix) -> bool
    ensures same { result ≡ true → one.now ≡ other.now }
    ensures other { result ≡ false → ¬ one.now ≡ other.now }
{
    one == other
}

fn is_same_port(one: PortEffect, other: PortEffect) -> bool
    ensures same { result ≡ true → one ≡ other }
    ensures other { result ≡ false → ¬ one ≡ other }
{
    one == other
}
