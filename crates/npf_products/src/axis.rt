// A dimension in classes.
use npf_cut::Dimension;
use npf_types::List;

/// A dimension in the classes that its sets tell apart, how many these are, and the number of the set of each condition of each list.
#[derive(Drop)]
pub(crate) struct Axis {
    pub(crate) dimension: Dimension,
    pub(crate) count: usize,
    pub(crate) numbers: Vec<List<usize>>,
}
