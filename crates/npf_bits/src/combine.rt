// Sets that are changed by others.
ghost use Rattle.std.specs.Prelude.{◌≡◌, ◌&&◌, ℕ, not, length};
ghost use Rattle.npf_bits.specs.Bits.{has};

/// Takes the numbers of `b` out of `a`; the sets have equally many words.
pub fn difference_with(a: &mut [u64], b: &[u64])
    requires { length a.old ≡ length b.now }
    ensures { (n : ℕ) → has a.new n ≡ (has a.old n && not (has b.now n)) }
{
    for (at, word) in a.iter_mut().enumerate() {
        *word &= !b[at];
    }
}

/// Leaves in `a` the numbers that are in `b`; the sets have equally many words.
pub fn intersect_with(a: &mut [u64], b: &[u64])
    requires { length a.old ≡ length b.now }
    ensures { (n : ℕ) → has a.new n ≡ (has a.old n && has b.now n) }
{
    for (at, word) in a.iter_mut().enumerate() {
        *word &= b[at];
    }
}
