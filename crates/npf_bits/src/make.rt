// Numbers that are put into a set.
ghost use Rattle.std.specs.Prelude.{◌≡◌, ◌≤◌, ◌<◌, ◌+◌, ◌*◌, ◌/◌, ◌^◌, ◌-◌, ◌==◌, ◌||◌, ℕ, length, nat_lt};
ghost use Rattle.npf_bits.specs.Bits.{has};

/// How many words a set of the numbers below `count` has.
pub fn word_count(count: usize) -> usize
    ensures { result ≡ (count + 63) / 64 }
{
    count / 64 + usize::from(count % 64 != 0)
}

/// Puts a number into the set, which has a word for it.
pub fn insert(words: &mut [u64], number: usize)
    requires { number < 64 * length words.old }
    ensures { (n : ℕ) → has words.new n ≡ (n == number || has words.old n) }
{
    words[number / 64] |= 1 << (number % 64);
}

/// Makes the set that of the numbers below `count`, for which it has words.
pub fn fill(words: &mut [u64], count: usize)
    requires { count ≤ 64 * length words.old }
    ensures { (n : ℕ) → has words.new n ≡ nat_lt n count }
{
    let mut left = count;
    for word in words.iter_mut() {
        let here = left.min(64);
        *word = ones(here);
        left -= here;
    }
}

/// A word whose lowest `count` bits are set, which are at most 64.
fn ones(count: usize) -> u64
    requires { count ≤ 64 }
    ensures { result ≡ 2 ^ count - 1 }
{
    if count == 64 {
        u64::MAX
    } else {
        (1 << count) - 1
    }
}
