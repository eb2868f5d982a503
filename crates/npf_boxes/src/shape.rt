// How the words of a box are laid out.
ghost use Rattle.std.specs.Prelude.{◌≡◌, ◌≤◌, ◌<◌, ◌+◌, ◌/◌, ◌^◌, ℕ, slice_index};

use npf_bits::word_count;

/// Where the set of each dimension begins in the words of a box, and last where a box ends.
#[derive(Clone, Copy, Debug, PartialEq, Eq)]
pub struct Shape {
    pub starts: [usize; 7],
    ghost in_order: { (d : ℕ) → d < 6 → slice_index starts d ≤ slice_index starts (d + 1) },
    ghost bounded: { slice_index starts 6 < 2 ^ 58 },
}

impl Shape {
    /// The shape of boxes whose dimensions have so many classes. A set whose last word has more bits than that has
    /// the classes of these, too: it is for who makes the sets to leave them out.
    pub fn new(counts: [u32; 6]) -> Shape
        ensures begins { slice_index result.starts 0 ≡ 0 }
        ensures goes_on { (d : ℕ) → d < 6
            → slice_index result.starts (d + 1) ≡ slice_index result.starts d + (slice_index counts d + 63) / 64 }
    {
        let mut starts = [0; 7];
        for dimension in 0..6 {
            starts[dimension + 1] = starts[dimension] + word_count(counts[dimension] as usize);
        }
        Shape { starts }
    }

    /// How many words a box has.
    pub fn words(&self) -> usize
        ensures { result ≡ slice_index self.now.starts 6 }
    {
        self.starts[6]
    }
}
