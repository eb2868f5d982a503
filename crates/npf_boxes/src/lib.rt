// Boxes of cells, and the one question that the analysis of a configuration asks: is there a cell of this box outside those boxes?
//
// Each of six dimensions (the place, the source, the destination, the port or type, the port or code, the flags) is cut into classes. A cell
// is six class numbers, one of each dimension, and a box is the product of six sets of classes. A box is one flat row of words, in which the
// sets of its dimensions stand one behind the other, as the `Shape` of the question says.
//
// The contract: `outside` gives a part of the box that has a cell and has none in any of the others, or says that each cell of the box is in
// one of them (specs/Cell), or ends because its steps were spent. The question is NP-hard in the number of dimensions, so it is the steps
// that bound it: a step is taken for each part and for each look at another box.
#![tactic(auto)]

mod box_list;
mod cell;
mod fit;
mod look;
mod part;
mod search;
mod shape;
mod split;

pub use box_list::Boxes;
pub use cell::{least_cell, meet, put};
pub use search::outside;
pub use shape::Shape;
