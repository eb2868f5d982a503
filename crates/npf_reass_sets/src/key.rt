// The numbers by which keys are told apart and put in order.
ghost use Rattle.std.specs.Prelude.{◌≡◌};
ghost use Rattle.npf_reass_sets.specs.Key.{key_address, key_direction, key_numbers, key_version};

use npf_pieces::FragKey;
use npf_types::{Addr, Dir};

/// What the key tells, in numbers: interface, direction, version, both addresses, protocol and identification.
pub(crate) fn key_numbers(key: &FragKey) -> [u128; 8]
    ensures { result ≡ key_numbers key.now }
{
    [
        u128::from(key.ifid.0),
        key_direction(key.dir),
        key_version(key.src),
        key_address(key.src),
        key_version(key.dst),
        key_address(key.dst),
        u128::from(key.proto),
        u128::from(key.id),
    ]
}

fn key_direction(dir: Dir) -> u128
    ensures { result ≡ key_direction dir }
{
    match dir {
        Dir::In => 0,
        Dir::Out => 1,
    }
}

fn key_version(addr: Addr) -> u128
    ensures { result ≡ key_version addr }
{
    match addr {
        Addr::V4(_) => 4,
        Addr::V6(_) => 6,
    }
}

fn key_address(addr: Addr) -> u128
    ensures { result ≡ key_address addr }
{
    match addr {
        Addr::V4(address) => u128::from(address),
        Addr::V6(address) => address,
    }
}
