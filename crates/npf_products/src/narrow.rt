// What a condition leaves of a set of classes.
ghost use Rattle.std.specs.Prelude.{◌≡◌, ◌≤◌, ◌<◌, ◌&&◌, ℕ, not, nat_lt, length, OnOk};
ghost use Rattle.npf_bits.specs.Bits.{has};
ghost use Rattle.npf_cut.specs.SetBits.{set_words};
ghost use Rattle.npf_products.specs.Condition.{unless_excluded};
ghost use Rattle.npf_products.specs.Narrow.{some_has_class};

use crate::condition::Condition;
use npf_bits::difference_with;
use npf_cut::SetBits;
use npf_types::NoMemory;
use std::alloc::Global;

/// Leaves in the set the classes that the condition has: those of its own set, which has this number, and of its tables, of which there are
/// so many; or, where they are excluded, the others.
pub(crate) fn narrow(
    alloc: Global,
    words: &mut [u64],
    bits: &SetBits,
    condition: &Condition,
    own: usize,
    tables: usize,
) -> Result<(), NoMemory>
    requires whole { length words.old ≡ bits.now.per_set }
    requires own { own < bits.now.sets }
    requires tables { tables ≤ bits.now.sets }
    ensures { OnOk result ((n : ℕ) → has words.new n
        ≡ (has words.old n && unless_excluded condition.now.excluded (some_has_class bits.now own tables condition.now.tables.items n))) }
{
    if condition.excluded {
        exclude(words, bits, condition.tables.as_slice(), own, tables);
        return Ok(());
    }
    let mut others = words.to_vec(alloc)?;
    exclude(
        others.as_mut_slice(),
        bits,
        condition.tables.as_slice(),
        own,
        tables,
    );
    difference_with(words, others.as_slice());
    Ok(())
}

/// Takes the classes of a set and of the tables of these numbers out.
fn exclude(words: &mut [u64], bits: &SetBits, listed: &[usize], own: usize, tables: usize)
    requires whole { length words.old ≡ bits.now.per_set }
    requires own { own < bits.now.sets }
    requires tables { tables ≤ bits.now.sets }
    ensures { (n : ℕ) → has words.new n ≡ (has words.old n && not (some_has_class bits.now own tables listed.now n)) }
{
    difference_with(words, bits.of(own));
    for table in listed {
        exclude_table(words, bits, *table, tables);
    }
}

/// Takes the classes of a table out, if there is one of this number.
fn exclude_table(words: &mut [u64], bits: &SetBits, table: usize, tables: usize)
    requires whole { length words.old ≡ bits.now.per_set }
    requires tables { tables ≤ bits.now.sets }
    ensures { (n : ℕ) → has words.new n ≡ (has words.old n && not (nat_lt table tables && has (set_words bits.now table) n)) }
{
    if table < tables {
        difference_with(words, bits.of(table));
    }
}
