// The hash of a key (FNV-1a).
ghost use Rattle.std.specs.Prelude.{◌≡◌, ℕ, fold};
ghost use Rattle.std.specs.Int.{w32, w64, to_be_bytes};
ghost use Rattle.npf_paths.specs.Hash.{fnv_round};

use npf_types::Key;

/// The hash of no bytes.
const OFFSET: u64 = 0xcbf2_9ce4_8422_2325;

/// The prime that each round multiplies by.
const MULTIPLIER: u64 = 0x100_0000_01b3;

/// Its fourth power and its eighth: a round of a byte 0 multiplies by the prime alone.
const FOURTH_POWER: u64 = 0x9ffa_ac08_5635_bc91;

const EIGHTH_POWER: u64 = 0x1efa_c709_0aef_4a21;

/// How keys are hashed, for their way through the trie.
pub trait KeyHash {
    ghost use Rattle.npf_types.specs.declared.key.Key.{Key};

    /// The hash that the function computes.
    ghost digest: { Key → ℕ };

    fn hash(key: &Key) -> u64
        ensures { result ≡ digest key.now };
}

/// FNV-1a of 64 bits over a key's 40 bytes, the highest byte of each word first (draft-eastlake-fnv).
pub struct Fnv;

impl KeyHash for Fnv {
    ghost use Rattle.npf_paths.specs.Hash.{fnv_of_key};

    ghost digest = { fnv_of_key };

    fn hash(key: &Key) -> u64 {
        let mut hash = OFFSET;
        for word in &key.0 {
            hash = with_word(hash, *word);
        }
        hash
    }
}

/// The hash once a further word's bytes are taken in. Where they are all 0, one product stands for their eight rounds.
fn with_word(before: u64, word: u64) -> u64
    ensures { result ≡ fold fnv_round before (to_be_bytes w64 word) }
{
    if word == 0 {
        return before.wrapping_mul(EIGHTH_POWER);
    }
    let upper = with_half(before, (word >> 32) as u32);
    with_half(upper, (word % (1 << 32)) as u32)
}

/// The same of half a word, whose four rounds are one product where it is 0.
fn with_half(before: u64, half: u32) -> u64
    ensures { result ≡ fold fnv_round before (to_be_bytes w32 half) }
{
    if half == 0 {
        return before.wrapping_mul(FOURTH_POWER);
    }
    let bytes = half.to_be_bytes();
    let mut hash = before;
    for byte in &bytes {
        hash = (hash ^ u64::from(*byte)).wrapping_mul(MULTIPLIER);
    }
    hash
}
