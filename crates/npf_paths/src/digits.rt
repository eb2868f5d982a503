// The digits of a key, and the levels that they choose at.
ghost use Rattle.std.specs.Prelude.{◌≡◌, ◌≤◌, ◌<◌, IfSome};
ghost use Rattle.npf_paths.specs.Digits.{digit_of, half_byte_of, SharesDigits, PartsAt};

use crate::laws::words_fit;
use npf_types::Key;

/// How many levels there are: the root, 14 of the hash and 80 of the key.
pub const LEVELS: u32 = 95;

/// How many digits there are at the root, level 0.
pub const ROOT_DIGITS: u32 = 64;

/// How many digits there are at each further level.
pub const NODE_DIGITS: u32 = 16;

/// How many bits of the hash the root's digit takes, the lowest.
const ROOT_BITS: u32 = 6;

/// How many bits each further digit takes.
const NODE_BITS: u32 = 4;

/// The first level whose digit is a half-byte of the key.
const KEY_LEVEL: u32 = 15;

/// The digit of a key with this hash at a level: below 64 at the root, below 16 further down.
pub fn digit(hash: u64, key: &Key, level: u32) -> u32
    requires { level < LEVELS }
    ensures value { result ≡ digit_of hash key.now level }
    ensures root { level ≡ 0 → result < ROOT_DIGITS }
    ensures node { 1 ≤ level → result < NODE_DIGITS }
{
    if level == 0 {
        (hash % u64::from(ROOT_DIGITS)) as u32
    } else if level < KEY_LEVEL {
        ((hash >> (ROOT_BITS + NODE_BITS * (level - 1))) % u64::from(NODE_DIGITS)) as u32
    } else {
        half_byte(key, level - KEY_LEVEL)
    }
}

/// One of a key's 80 half-bytes, the highest of word 0 first.
fn half_byte(key: &Key, place: u32) -> u32
    requires { place < 80 }
    ensures value { result ≡ half_byte_of key.now place }
    ensures range { result < NODE_DIGITS }
{
    let word = key.0[(place / 16) as usize];
    ((word >> (NODE_BITS * (15 - place % 16))) % u64::from(NODE_DIGITS)) as u32
}

/// The first level at which two keys' digits differ, or None where none does: then the keys are one.
pub fn parting_level(hash: u64, key: &Key, other_hash: u64, other: &Key) -> Option<u32>
    ensures some { IfSome result (λ level. PartsAt hash key.now other_hash other.now level) }
    ensures none { result ≡ None → SharesDigits hash key.now other_hash other.now LEVELS }
    ensures same { result ≡ None → key.now ≡ other.now }
{
    words_fit(*key);
    words_fit(*other);
    for level in 0..LEVELS {
        if digit(hash, key, level) != digit(other_hash, other, level) {
            return Some(level);
        }
    }
    None
}
