// The sets of a box by dimension, and its cells.
ghost use Rattle.std.specs.Prelude.{◌≡◌, ◌≢◌, ◌≤◌, ◌<◌, ◌+◌, ◌-◌, ◌^◌, ◌&&◌, ℕ, true, false, not, List, length, slice_index, IfOk, IfSome, MatchOption, Ok, None};
ghost use Rattle.npf_bits.specs.Bits.{has};
ghost use Rattle.npf_boxes.specs.Cell.{HasCell, in_box, section, words_of};

use crate::shape::Shape;
use npf_bits::{difference_with, first, intersect_with, meets};
use npf_types::NoMemory;
use std::alloc::Global;

/// The set of a dimension.
pub(crate) fn section<'a>(shape: &Shape, dimension: usize, words: &'a [u64]) -> &'a [u64]
    requires dimension { dimension < 6 }
    requires whole { length words.now ≡ words_of shape.now }
    ensures set { result.now ≡ section shape.now dimension words.now }
    ensures len { length result.now
        ≡ slice_index shape.now.starts (dimension + 1) - slice_index shape.now.starts dimension }
    ensures short { length result.now < 2 ^ 58 }
{
    &words[shape.starts[dimension]..shape.starts[dimension + 1]]
}

/// Writes the set of a dimension.
pub fn put(shape: &Shape, dimension: usize, words: &mut [u64], set: &[u64])
    requires dimension { dimension < 6 }
    requires whole { length words.old ≡ words_of shape.now }
    requires set { length set.now ≡ slice_index shape.now.starts (dimension + 1) - slice_index shape.now.starts dimension }
    ensures here { section shape.now dimension words.new ≡ set.now }
    ensures elsewhere { (d : ℕ) → d < 6 → d ≢ dimension → section shape.now d words.new ≡ section shape.now d words.old }
{
    words[shape.starts[dimension]..shape.starts[dimension + 1]].copy_from_slice(set);
}

/// Takes out of the set of a dimension what the other box has there.
pub(crate) fn remove(shape: &Shape, dimension: usize, words: &mut [u64], other: &[u64])
    requires dimension { dimension < 6 }
    requires whole { length words.old ≡ words_of shape.now }
    requires other { length other.now ≡ words_of shape.now }
    ensures here { (n : ℕ) → has (section shape.now dimension words.new) n
        ≡ (has (section shape.now dimension words.old) n && not (has (section shape.now dimension other.now) n)) }
    ensures elsewhere { (d : ℕ) → d < 6 → d ≢ dimension → section shape.now d words.new ≡ section shape.now d words.old }
{
    let set = &mut words[shape.starts[dimension]..shape.starts[dimension + 1]];
    difference_with(set, section(shape, dimension, other));
}

/// Leaves in the set of a dimension what the other box has there.
pub(crate) fn keep(shape: &Shape, dimension: usize, words: &mut [u64], other: &[u64])
    requires dimension { dimension < 6 }
    requires whole { length words.old ≡ words_of shape.now }
    requires other { length other.now ≡ words_of shape.now }
    ensures here { (n : ℕ) → has (section shape.now dimension words.new) n
        ≡ (has (section shape.now dimension words.old) n && has (section shape.now dimension other.now) n) }
    ensures elsewhere { (d : ℕ) → d < 6 → d ≢ dimension → section shape.now d words.new ≡ section shape.now d words.old }
{
    let set = &mut words[shape.starts[dimension]..shape.starts[dimension + 1]];
    intersect_with(set, section(shape, dimension, other));
}

/// The cell of the box whose class is the least in each dimension; none exactly where the box has no cell.
pub fn least_cell(shape: &Shape, words: &[u64]) -> Option<[usize; 6]>
    requires { length words.now ≡ words_of shape.now }
    ensures { MatchOption result ((cell : List ℕ) → in_box shape.now words.now cell ≡ false)
        (λ least. (in_box shape.now words.now least ≡ true)
        × ((cell : List ℕ) (d : ℕ) → in_box shape.now words.now cell ≡ true → d < 6 → slice_index least d ≤ slice_index cell d)) }
{
    let mut cell = [0; 6];
    for dimension in 0..6 {
        let Some(least) = first(section(shape, dimension, words)) else {
            return None;
        };
        cell[dimension] = least;
    }
    Some(cell)
}

/// The box of the cells that are in both boxes, if there are any.
///
/// # Errors
/// Where memory runs out.
pub fn meet(
    alloc: Global,
    shape: &Shape,
    a: &[u64],
    b: &[u64],
) -> Result<Option<Vec<u64>>, NoMemory>
    requires a { length a.now ≡ words_of shape.now }
    requires b { length b.now ≡ words_of shape.now }
    ensures none { result ≡ Ok None → (cell : List ℕ) → in_box shape.now a.now cell ≡ true → in_box shape.now b.now cell ≡ true → ⊥ }
    ensures whole { IfOk result (λ found. IfSome found (λ both. length both.items ≡ words_of shape.now)) }
    ensures has_cell { IfOk result (λ found. IfSome found (λ both. HasCell shape.now both.items)) }
    ensures both { IfOk result (λ found. IfSome found (λ both. (cell : List ℕ)
        → in_box shape.now both.items cell ≡ (in_box shape.now a.now cell && in_box shape.now b.now cell))) }
{
    for dimension in 0..6 {
        if !meets(section(shape, dimension, a), section(shape, dimension, b)) {
            return Ok(None);
        }
    }
    let mut both = a.to_vec(alloc)?;
    intersect_with(&mut both, b);
    Ok(Some(both))
}
