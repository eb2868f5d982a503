// A number that one reader tells another.

/// A number that was published, to tell a reader of the same publisher.
#[derive(Clone, Copy, Debug)]
pub struct Told {
    pub(crate) number: u64,
}
