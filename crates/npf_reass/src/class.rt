// The classes in which pieces are gathered.
ghost use Rattle.std.specs.Prelude.{◌≡◌, ◌≤◌, ◌<◌};
ghost use Rattle.npf_reass.specs.Class.{class_of, folded_halves};

use npf_pieces::FragKey;
use npf_types::Addr;

/// The class, of so many, of the pieces of one key: the exclusive or of its addresses' halves, its protocol and its
/// identification, modulo the number of classes.
pub fn class_of(classes: u32, key: &FragKey) -> u32
    requires { 1 ≤ classes }
    ensures value { result ≡ class_of classes key.now }
    ensures within { result < classes }
{
    let mixed = folded_halves(key.src)
        ^ folded_halves(key.dst)
        ^ u64::from(key.proto)
        ^ u64::from(key.id);
    (mixed % u64::from(classes)) as u32
}

/// The exclusive or of an address's halves of 64 bits.
fn folded_halves(addr: Addr) -> u64
    ensures { result ≡ folded_halves addr }
{
    match addr {
        Addr::V4(address) => u64::from(address),
        Addr::V6(address) => (address >> 64) as u64 ^ (address % (1 << 64)) as u64,
    }
}
