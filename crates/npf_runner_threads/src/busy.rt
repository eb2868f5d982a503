// What may have work.
ghost use Rattle.std.specs.Prelude.{◌≤◌, length};

/// An item that may have work, or none.
pub trait Busy {
    /// Whether it has work. The answer decides on which thread the item's call runs, and nothing else.
    fn is_busy(&self) -> bool;
}

/// Whether one of the items has work.
pub fn any_busy<T: Busy>(items: &[T]) -> bool {
    count_busy(items) > 0
}

/// How many of the items have work.
pub(crate) fn count_busy<T: Busy>(items: &[T]) -> usize
    ensures { result ≤ length items.now }
{
    let mut count = 0;
    for item in items {
        if item.is_busy() {
            count += 1;
        }
    }
    count
}
