// What is asked of sets.
ghost use Rattle.std.specs.Prelude.{◌≡◌, ◌<◌, ◌^◌, ◌↔◌, ℕ, true, false, IsTrue, MatchOption, length};
ghost use Rattle.npf_bits.specs.Bits.{has};

/// Whether some number is in both sets, which have equally many words.
pub fn meets(a: &[u64], b: &[u64]) -> bool
    requires { length a.now ≡ length b.now }
    ensures { IsTrue result ↔ ((n : ℕ) × (has a.now n ≡ true) × (has b.now n ≡ true)) }
{
    for (at, word) in a.iter().enumerate() {
        if *word & b[at] != 0 {
            return true;
        }
    }
    false
}

/// Whether each number of `a` is in `b`; the sets have equally many words.
pub fn is_within(a: &[u64], b: &[u64]) -> bool
    requires { length a.now ≡ length b.now }
    ensures { IsTrue result ↔ ((n : ℕ) → has a.now n ≡ true → has b.now n ≡ true) }
{
    for (at, word) in a.iter().enumerate() {
        if *word & !b[at] != 0 {
            return false;
        }
    }
    true
}

/// The least number of the set, if it has any. The set has fewer than 2^58 words.
pub fn first(words: &[u64]) -> Option<usize>
    requires { length words.now < 2 ^ 58 }
    ensures { MatchOption result ((n : ℕ) → has words.now n ≡ false)
        (λ least. (has words.now least ≡ true) × ((n : ℕ) → n < least → has words.now n ≡ false)) }
{
    for (at, word) in words.iter().enumerate() {
        if *word != 0 {
            return Some(64 * at + word.trailing_zeros() as usize);
        }
    }
    None
}
