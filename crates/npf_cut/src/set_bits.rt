// The classes that sets have, as bits.
ghost use Rattle.std.specs.Prelude.{◌≡◌, ◌≤◌, ◌<◌, ◌+◌, ◌-◌, ◌*◌, ◌^◌, ◌↔◌, ◌⊎◌, ℕ, true, Contains, length, vec_len};
ghost use Rattle.std.specs.List.{All};
ghost use Rattle.npf_bits.specs.Bits.{has};

use npf_bits::{insert, word_count};
use npf_types::NoMemory;
use std::alloc::Global;

/// The classes of each of some sets, by equally many words for each.
#[derive(Drop)]
pub struct SetBits {
    words: Vec<u64>,
    sets: usize,
    per_set: usize,
    ghost long: { vec_len words ≡ sets * per_set },
    ghost small: { vec_len words < 2 ^ 57 },
}

impl SetBits {
    ghost use Rattle.std.specs.Prelude.{◌/◌, false, IfOk};
    ghost use Rattle.npf_cut.specs.SetBits.{has_class, set_words};

    /// So many sets that have no class of so many.
    pub(crate) fn new(alloc: Global, sets: usize, count: usize) -> Result<SetBits, NoMemory>
        ensures sets { IfOk result (λ bits. bits.sets ≡ sets) }
        ensures words { IfOk result (λ bits. bits.per_set ≡ (count + 63) / 64) }
        ensures none { IfOk result (λ bits. (set class : ℕ) → has_class bits set class ≡ false) }
    {
        let per_set = word_count(count);
        let len = match per_set.checked_mul(sets) {
            Some(len) if len < 1 << 57 => len,
            _ => return Err(NoMemory),
        };
        Ok(SetBits {
            words: vec![in alloc; 0; len]?,
            sets,
            per_set,
        })
    }

    /// Puts classes into the set, if it is one of these.
    pub(crate) fn put(&mut self, set: usize, classes: &[usize])
        requires { All (λ class. class < 64 * self.old.per_set) classes.now }
        ensures sets { self.new.sets ≡ self.old.sets }
        ensures words { self.new.per_set ≡ self.old.per_set }
        ensures put { (s class : ℕ) → s < self.old.sets → class < 64 * self.old.per_set
            → (has_class self.new s class ≡ true)
            ↔ ((has_class self.old s class ≡ true) ⊎ ((s ≡ set) × Contains classes.now class)) }
    {
        if set < self.sets {
            let first = 64 * (set * self.per_set);
            put_all(self.words.as_mut_slice(), first, classes);
        }
    }

    /// The classes of the set, as a set of `npf_bits`.
    pub fn of(&self, set: usize) -> &[u64]
        requires { set < self.now.sets }
        ensures value { result.now ≡ set_words self.now set }
        ensures len { length result.now ≡ self.now.per_set }
    {
        let first = set * self.per_set;
        &self.words[first..first + self.per_set]
    }
}

/// Puts numbers into a set of `npf_bits`, each counted from the first one.
fn put_all(words: &mut [u64], first: usize, numbers: &[usize])
    requires small { length words.old < 2 ^ 57 }
    requires numbers { All (λ number. first + number < 64 * length words.old) numbers.now }
    ensures len { length words.new ≡ length words.old }
    ensures put { (n : ℕ) → (has words.new n ≡ true)
        ↔ ((has words.old n ≡ true) ⊎ ((first ≤ n) × Contains numbers.now (n - first))) }
{
    for number in numbers {
        insert(words, first + *number);
    }
}
