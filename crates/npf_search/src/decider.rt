// A place of a list that decides.
ghost use Rattle.std.specs.Prelude.{◌≤◌, ◌<◌, ◌+◌, ◌^◌};

/// A place of a list whose items have the numbers from `first` on, `count` of them. The first item that has a cell decides on it; and the place
/// `count`, behind the last item, decides on what no item has.
#[derive(Clone, Copy, Debug, PartialEq, Eq)]
pub struct Decider {
    pub first: usize,
    pub count: usize,
    pub place: usize,
    ghost within: { place ≤ count },
    ghost bounded: { first + count < 2 ^ 64 },
}
