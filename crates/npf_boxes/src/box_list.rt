// The boxes of a question, one behind the other.
ghost use Rattle.std.specs.Prelude.{◌≡◌, ◌*◌, length, slice_index};

use crate::shape::Shape;
use npf_types::NoMemory;
use std::alloc::Global;

/// Boxes of one shape, numbered from 0.
#[derive(Debug, Drop)]
pub struct Boxes {
    pub shape: Shape,
    pub words: Vec<u64>,
    pub count: usize,
    ghost whole: { length words.items ≡ count * slice_index shape.starts 6 },
}

impl Boxes {
    ghost use Rattle.std.specs.Prelude.{ℕ, ◌+◌, ◌≤◌, ◌<◌, OnOk};
    ghost use Rattle.npf_boxes.specs.Cell.{box_at, words_of};

    /// No box as yet.
    pub fn new(alloc: Global, shape: Shape) -> Boxes
        ensures shape { result.shape ≡ shape }
        ensures none { result.count ≡ 0 }
    {
        Boxes {
            shape,
            words: Vec::new(alloc),
            count: 0,
        }
    }

    /// Puts a box behind the others.
    ///
    /// # Errors
    /// Where memory runs out.
    pub fn push(&mut self, words: &[u64]) -> Result<(), NoMemory>
        requires { length words.now ≡ words_of self.old.shape }
        ensures shape { OnOk result (self.new.shape ≡ self.old.shape) }
        ensures counted { OnOk result (self.new.count ≡ self.old.count + 1) }
        ensures there { OnOk result (box_at self.new self.old.count ≡ words.now) }
        ensures others { OnOk result ((k : ℕ) → k < self.old.count → box_at self.new k ≡ box_at self.old k) }
    {
        let count = self.count.checked_add(1).ok_or(NoMemory)?;
        self.words.extend_from_slice(words)?;
        self.count = count;
        Ok(())
    }

    /// The words of the box of this number.
    pub fn get(&self, number: usize) -> &[u64]
        requires { number < self.now.count }
        ensures words { result.now ≡ box_at self.now number }
        ensures whole { length result.now ≡ words_of self.now.shape }
    {
        let width = self.shape.words();
        let start = number * width;
        &self.words[start..start + width]
    }
}
