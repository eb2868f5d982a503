// How a box lies to another.
ghost use Rattle.std.specs.Prelude.{◌≡◌, length};
ghost use Rattle.npf_boxes.specs.Cell.{words_of};
ghost use Rattle.npf_boxes.specs.Fit.{IsFit};

use crate::cell::section;
use crate::shape::Shape;
use npf_bits::{is_within, meets};

/// How a box lies to another.
#[derive(Clone, Copy, Debug, PartialEq, Eq)]
pub enum Fit {
    /// They have no cell in common.
    Apart,
    /// The other has all of it.
    Within,
    /// The other has all of it but for what it hasn't in this dimension.
    Unit(usize),
    /// The other leaves so many dimensions open, which are two at least.
    Open(usize),
}

/// How the box lies to the other.
pub(crate) fn fit_of(shape: &Shape, words: &[u64], other: &[u64]) -> Fit
    requires whole { length words.now ≡ words_of shape.now }
    requires other { length other.now ≡ words_of shape.now }
    ensures { IsFit shape.now words.now other.now result }
{
    let mut open = 0;
    let mut last = 0;
    for dimension in 0..6 {
        let own = section(shape, dimension, words);
        let theirs = section(shape, dimension, other);
        if !meets(own, theirs) {
            return Fit::Apart;
        }
        if !is_within(own, theirs) {
            open += 1;
            last = dimension;
        }
    }
    match open {
        0 => Fit::Within,
        1 => Fit::Unit(last),
        _ => Fit::Open(open),
    }
}
