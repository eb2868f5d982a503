// Which bucket a key is of. The upper half of the hash tells it, in proportion to the buckets' count, without a division.
ghost use Rattle.std.specs.Prelude.{◌≡◌, ◌<◌, ◌^◌, ◌*◌, ◌/◌};
ghost use Rattle.npf_oneturn_store.specs.Hash.{mixed, hash_of, bucket_of};

use npf_types::Key;

/// What the mixing begins with: the first 64 bits of the fraction of pi, made odd.
const SEED: u64 = 0x243f_6a88_85a3_08d3;

/// What each word is multiplied by: 2^64 divided by the golden ratio, made odd (Knuth, "The Art of Computer Programming", 6.4).
const FACTOR: u64 = 0x9e37_79b9_7f4a_7c15;

fn mixed(hash: u64, word: u64) -> u64
    ensures { result ≡ mixed hash word }
{
    let product = (hash ^ word).wrapping_mul(FACTOR);
    product ^ (product >> 32)
}

fn hash_of(key: Key) -> u64
    ensures { result ≡ hash_of key }
{
    let words = key.0;
    let ends = mixed(mixed(mixed(SEED, words[0]), words[1]), words[2]);
    mixed(mixed(ends, words[3]), words[4])
}

/// The key's bucket, of so many. The upper half of the hash tells it, without a division (Lemire, "Fast Random Integer Generation in an
/// Interval", 2019).
pub(crate) fn bucket_of(buckets: usize, key: Key) -> usize
    requires some { 0 < buckets }
    requires few { buckets < 2 ^ 32 }
    ensures value { result ≡ bucket_of buckets key }
    ensures within { result < buckets }
{
    scaled(hash_of(key) >> 32, buckets as u64) as usize
}

/// The number, below 2 ^ 32, scaled to the numbers below a bound.
fn scaled(number: u64, bound: u64) -> u64
    requires number { number < 2 ^ 32 }
    requires some { 0 < bound }
    requires few { bound < 2 ^ 32 }
    ensures value { result ≡ number * bound / 2 ^ 32 }
    ensures within { result < bound }
{
    number * bound >> 32
}
