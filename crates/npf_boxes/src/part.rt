// The parts of a box that a search has still to go through.
use std::rc::Rc;

/// A part of the box, and the numbers of the other boxes that may have cells of it.
#[derive(Debug, Drop)]
pub(crate) struct BoxPart {
    pub words: Vec<u64>,
    pub others: Rc<Vec<usize>>,
}
