// Boxes of what products ask.
ghost use Rattle.std.specs.Prelude.{◌≡◌, ◌≤◌, ◌<◌, ◌*◌, ◌&&◌, ℕ, true, nat_lt, List, IfOk, OnOk, length};
ghost use Rattle.npf_bits.specs.Bits.{has};
ghost use Rattle.npf_boxes.specs.Cell.{in_box, words_of};
ghost use Rattle.npf_products.specs.Axis.{AreAllRows, IsCell, IsShapeOf, cell_of_numbers};
ghost use Rattle.npf_products.specs.Condition.{fits, tables_in};
ghost use Rattle.npf_products.specs.Number.{AreNumbers};
ghost use Rattle.npf_products.specs.Space.{IsCutSpace, IsNarrowed, is_met};
ghost use Rattle.npf_products.specs.OwnSet.{IsOwnSet};

use crate::axis::Axis;
use crate::condition::Condition;
use crate::narrow::narrow;
use crate::sets::tables_in;
use crate::space::Space;
use npf_bits::fill;
use npf_boxes::{Shape, put};
use npf_cut::SetBits;
use npf_types::NoMemory;
use std::alloc::Global;

/// The box of all cells.
pub(crate) fn full_box(alloc: Global, shape: &Shape, axes: &[Axis]) -> Result<Vec<u64>, NoMemory>
    requires six { length axes.now ≡ 6 }
    requires shape { IsShapeOf shape.now axes.now }
    ensures whole { IfOk result (λ words. length words.items ≡ words_of shape.now) }
    ensures all { IfOk result (λ words. (cell : List ℕ) → IsCell axes.now cell → in_box shape.now words.items cell ≡ true) }
    ensures cells { IfOk result (λ words. (cell : List ℕ) → in_box shape.now words.items cell ≡ true → IsCell axes.now cell) }
{
    let mut words = vec![in alloc; 0; shape.words()]?;
    for dimension in 0..6 {
        let len = shape.starts[dimension + 1] - shape.starts[dimension];
        let set = all_classes(alloc, len, axes[dimension].dimension.count())?;
        put(shape, dimension, words.as_mut_slice(), set.as_slice());
    }
    Ok(words)
}

/// The set of all classes of a dimension that has so many, in so many words.
fn all_classes(alloc: Global, len: usize, count: usize) -> Result<Vec<u64>, NoMemory>
    requires { count ≤ 64 * len }
    ensures len { IfOk result (λ set. length set.items ≡ len) }
    ensures all { IfOk result (λ set. (n : ℕ) → has set.items n ≡ nat_lt n count) }
{
    let mut set = vec![in alloc; 0; len]?;
    fill(set.as_mut_slice(), count);
    Ok(set)
}

impl Space {
    /// The box of the cells of a box that have what the list of this number asks.
    pub(crate) fn narrowed(
        &self,
        alloc: Global,
        rows: &[SetBits],
        list: usize,
        old: &[u64],
    ) -> Result<Vec<u64>, NoMemory>
        requires cut { IsCutSpace self.now }
        requires rows { AreAllRows self.now.axes.items rows.now }
        requires count { length rows.now ≡ 6 }
        requires list { list < length self.now.lists.items }
        requires whole { length old.now ≡ words_of self.now.shape }
        ensures whole { IfOk result (λ new. length new.items ≡ words_of self.now.shape) }
        ensures narrowed { IfOk result (λ new. IsNarrowed self.now list old.now new.items) }
    {
        let mut words = old.to_vec(alloc)?;
        self.narrow(alloc, rows, list, words.as_mut_slice())?;
        Ok(words)
    }

    /// Leaves in the box the cells of what the list of this number asks.
    fn narrow(
        &self,
        alloc: Global,
        rows: &[SetBits],
        list: usize,
        words: &mut [u64],
    ) -> Result<(), NoMemory>
        requires cut { IsCutSpace self.now }
        requires rows { AreAllRows self.now.axes.items rows.now }
        requires count { length rows.now ≡ 6 }
        requires list { list < length self.now.lists.items }
        requires whole { length words.old ≡ words_of self.now.shape }
        ensures met { OnOk result ((numbers : List ℕ) → AreNumbers self.now.kind numbers
            → in_box self.now.shape words.new (cell_of_numbers self.now.axes.items numbers)
            ≡ (in_box self.now.shape words.old (cell_of_numbers self.now.axes.items numbers) && is_met self.now list numbers)) }
        ensures within { OnOk result ((cell : List ℕ) → in_box self.now.shape words.new cell ≡ true → in_box self.now.shape words.old cell ≡ true) }
    {
        let conditions = self.lists[list].as_slice();
        for (at, condition) in conditions.iter().enumerate() {
            let own = self.axes[condition.dimension].numbers[list].as_slice()[at];
            self.narrow_by(alloc, rows, condition, own, words)?;
        }
        Ok(())
    }

    /// Leaves in the box the cells of a condition, whose own set has this number.
    fn narrow_by(
        &self,
        alloc: Global,
        rows: &[SetBits],
        condition: &Condition,
        own: usize,
        words: &mut [u64],
    ) -> Result<(), NoMemory>
        requires cut { IsCutSpace self.now }
        requires rows { AreAllRows self.now.axes.items rows.now }
        requires count { length rows.now ≡ 6 }
        requires own { IsOwnSet self.now.kind self.now.axes.items condition.now own }
        requires whole { length words.old ≡ words_of self.now.shape }
        ensures met { OnOk result ((numbers : List ℕ) → AreNumbers self.now.kind numbers
            → in_box self.now.shape words.new (cell_of_numbers self.now.axes.items numbers)
            ≡ (in_box self.now.shape words.old (cell_of_numbers self.now.axes.items numbers) && fits self.now.tables.items numbers condition.now)) }
        ensures within { OnOk result ((cell : List ℕ) → in_box self.now.shape words.new cell ≡ true → in_box self.now.shape words.old cell ≡ true) }
    {
        let dimension = condition.dimension;
        let tables = self.table_count(dimension);
        let set = &mut words[self.shape.starts[dimension]..self.shape.starts[dimension + 1]];
        narrow(alloc, set, &rows[dimension], condition, own, tables)
    }

    /// How many tables have numbers of the dimension.
    fn table_count(&self, dimension: usize) -> usize
        ensures { result ≡ length (tables_in dimension self.now.tables.items) }
    {
        tables_in(dimension, self.tables.as_slice()).len()
    }
}
