// The packets of a kind as cells.
ghost use Rattle.std.specs.Prelude.{◌≡◌, ◌<◌, ◌-◌, [], length, slice_index_or};
ghost use Rattle.npf_products.specs.Axis.{IsShapeOf};
ghost use Rattle.npf_products.specs.Lists.{AsksPossible};

use crate::axes::{axes_of, box_words, row_words, rows_of, shape_of};
use crate::axis::Axis;
use crate::block::ranges_of_tables;
use crate::condition::Condition;
use crate::full_box::full_box;
use crate::kind::PacketKind;
use crate::lists::lists_of;
use crate::product::Product;
use npf_boxes::{Boxes, Shape};
use npf_steps::{Steps, Stopped};
use npf_types::{List, Prefix};
use std::alloc::Global;

/// The packets of a kind in the classes that products tell apart, in each of six dimensions. A packet's cell is the class of each of its
/// numbers (specs/Number), and a product is a box of cells.
#[derive(Drop)]
pub struct Space {
    pub(crate) kind: PacketKind,
    /// The addresses of each table that are of the kind's family.
    pub(crate) tables: Vec<List<(u128, u128)>>,
    /// What each product asks, and behind them what is asked so that there can be a packet.
    pub(crate) lists: Vec<List<Condition>>,
    pub(crate) axes: Vec<Axis>,
    pub(crate) shape: Shape,
    ghost six: { length axes.items ≡ 6 },
    ghost some: { 0 < length lists.items },
    ghost shape_is: { IsShapeOf shape axes.items },
    ghost last: { AsksPossible kind (slice_index_or lists.items (length lists.items - 1) []) },
}

impl Space {
    ghost use Rattle.std.specs.Prelude.{◌≤◌, ◌+◌, ◌*◌, IfOk, IsErrOf, OnOk};
    ghost use Rattle.npf_steps.specs.Spent.{IsSpent};
    ghost use Rattle.npf_boxes.specs.Cell.{words_of};
    ghost use Rattle.npf_products.specs.Axis.{row_words};
    ghost use Rattle.npf_products.specs.Space.{AreBoxesOf, IsCutSpace, IsSpaceOf, product_count};

    /// The packets of the kind in the classes that the products tell apart. The tables are those of all configurations that products are
    /// of, one behind the other. A step is taken for each product, and for each interval that a set has in a dimension, where each table is
    /// one set and what a product asks of a number is another.
    ///
    /// # Errors
    /// `Stopped::Spent` where it wants more steps than are left, and `Stopped::NoMemory`.
    pub fn new(
        alloc: Global,
        kind: PacketKind,
        tables: &[List<Prefix>],
        products: &[Product<'_>],
        steps: &mut Steps,
    ) -> Result<Space, Stopped>
        ensures space { IfOk result (IsSpaceOf kind tables.now products.now) }
        ensures counted { OnOk result (steps.old.taken + length products.now ≤ steps.new.taken) }
        ensures spent { IsErrOf result Stopped.Spent → IsSpent steps.new }
        ensures most { steps.new.most ≡ steps.old.most }
        ensures rises { steps.old.taken ≤ steps.new.taken }
    {
        let lists = lists_of(alloc, kind, products, steps)?;
        let tables = ranges_of_tables(alloc, kind.family, tables)?;
        let axes = axes_of(alloc, kind, tables.as_slice(), lists.as_slice(), steps)?;
        let shape = shape_of(axes.as_slice())?;
        Ok(Space {
            kind,
            tables,
            lists,
            axes,
            shape,
        })
    }

    /// The shape of the boxes.
    pub fn shape(&self) -> Shape
        ensures { result ≡ self.now.shape }
    {
        self.shape
    }

    /// How many words `boxes` takes: those of the boxes, and those of the sets of each dimension.
    pub fn words(&self) -> u128
        ensures { result ≡ length self.now.lists.items * words_of self.now.shape + row_words self.now.axes.items }
    {
        box_words(self.lists.len(), self.shape.words()) + row_words(self.axes.as_slice())
    }

    /// A box for each product, in order, and behind them the box of all packets of the kind that there can be, in which each of the others
    /// lies. A step is taken for each product and for each interval that a set has.
    ///
    /// # Errors
    /// `Stopped::Spent` where it wants more steps than are left, and `Stopped::NoMemory`.
    pub fn boxes(&self, alloc: Global, steps: &mut Steps) -> Result<Boxes, Stopped>
        requires { IsCutSpace self.now }
        ensures boxes { IfOk result (AreBoxesOf self.now) }
        ensures counted { OnOk result (steps.old.taken + product_count self.now ≤ steps.new.taken) }
        ensures spent { IsErrOf result Stopped.Spent → IsSpent steps.new }
        ensures most { steps.new.most ≡ steps.old.most }
        ensures rises { steps.old.taken ≤ steps.new.taken }
    {
        let rows = rows_of(alloc, self.axes.as_slice(), steps)?;
        let last = self.lists.len() - 1;
        let full = full_box(alloc, &self.shape, self.axes.as_slice())?;
        let whole = self.narrowed(alloc, rows.as_slice(), last, full.as_slice())?;
        let mut boxes = Boxes::new(alloc, self.shape);
        for list in 0..last {
            steps.take(1)?;
            let words = self.narrowed(alloc, rows.as_slice(), list, whole.as_slice())?;
            boxes.push(words.as_slice())?;
        }
        boxes.push(whole.as_slice())?;
        Ok(boxes)
    }
}
