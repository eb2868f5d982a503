// A small space of cells and its boxes, each as the sets of its dimensions beside the words that npf_boxes has of it.
use anyhow::{Result, anyhow};
use npf_boxes::{Boxes, Shape, put};
use std::alloc::Global;

/// A space of at most 128 classes in a dimension.
#[derive(Drop)]
pub struct Space {
    pub counts: [u32; 6],
    pub boxes: Boxes,
    pub sets: Vec<[u128; 6]>,
}

impl Space {
    pub fn of(alloc: Global, counts: [u32; 6]) -> Space {
        Space {
            counts,
            boxes: Boxes::new(alloc, Shape::new(counts)),
            sets: Vec::new(alloc),
        }
    }

    /// Puts a box behind the others, with what the sets have of the classes of the space.
    pub fn add(&mut self, alloc: Global, sets: [u128; 6]) -> Result<()> {
        let mut sets = sets;
        for (set, count) in sets.iter_mut().zip(&self.counts) {
            *set &= 1u128.checked_shl(*count).unwrap_or(0).wrapping_sub(1);
        }
        let words = words_of(alloc, &self.boxes.shape, &sets)?;
        if words.len() != self.boxes.shape.words() {
            return Err(anyhow!("no box of the space"));
        }
        self.boxes.push(&words)?;
        self.sets.push(sets)?;
        Ok(())
    }

    /// How many cells the space has.
    pub fn cells(&self) -> u64 {
        self.counts
            .iter()
            .fold(1u64, |cells, count| cells.wrapping_mul(u64::from(*count)))
    }

    /// The cell of a number.
    pub fn cell(&self, number: u64) -> [u32; 6] {
        let mut cell = [0; 6];
        let mut left = number;
        for (class, count) in cell.iter_mut().zip(&self.counts) {
            let count = u64::from(*count).max(1);
            *class = u32::try_from(left % count).unwrap_or(0);
            left /= count;
        }
        cell
    }

    /// Whether the box of this number has the cell.
    pub fn has(&self, number: u32, cell: &[u32; 6]) -> bool {
        self.sets.get(number as usize).is_some_and(|sets| sets
            .iter()
            .zip(cell)
            .all(|(set, class)| has_class(*set, *class)))
    }

    /// Whether one of these boxes has the cell.
    pub fn any_has(&self, numbers: &[u32], cell: &[u32; 6]) -> bool {
        numbers.iter().any(|number| self.has(*number, cell))
    }
}

pub fn has_class(set: u128, class: u32) -> bool {
    set.checked_shr(class).unwrap_or(0) & 1 == 1
}

/// The words of the product of the sets.
fn words_of(alloc: Global, shape: &Shape, sets: &[u128; 6]) -> Result<Vec<u64>> {
    let mut words = vec![in alloc; 0; shape.words()]?;
    for dimension in 0..6 {
        let len = shape.starts[dimension + 1] - shape.starts[dimension];
        let mut set = Vec::new(alloc);
        for place in 0..len {
            set.push(half(sets[dimension], place))?;
        }
        if set.len() == len && words.len() == shape.words() {
            put(shape, dimension, &mut words, &set);
        }
    }
    Ok(words)
}

/// Of the two words of a set that of this place.
fn half(set: u128, place: usize) -> u64 {
    match place {
        0 => (set & u128::from(u64::MAX)) as u64,
        1 => (set >> 64) as u64,
        _ => 0,
    }
}
