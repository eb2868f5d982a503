// Boxes that cover a space together and have no cell in common, so that each is needed.
use crate::draws::Draws;
use crate::every_cell::{Answer, searched};
use crate::space::Space;
use anyhow::Result;
use std::alloc::Global;

/// Sets of the lowest classes.
const LOW: [u128; 7] = [1, 3, 7, 15, 31, 63, 127];

/// The answer to whether a space of so many classes in four dimensions is outside its cells, but for some that are left out.
pub fn grid(alloc: Global, classes: u32, left_out: u32, steps: u64) -> Result<Answer> {
    let mut space = Space::of(alloc, [1, classes, classes, classes, classes, 1]);
    let mut draws = Draws { state: 1 };
    space.add(alloc, [u128::MAX; 6])?;
    let mut cells: Vec<u64> = Vec::new(alloc);
    for number in 0..space.cells() {
        cells.push(number)?;
    }
    shuffle(&mut draws, &mut cells);
    for number in cells {
        let mut sets = [0; 6];
        for (set, class) in sets.iter_mut().zip(&space.cell(number)) {
            *set = 1u128.checked_shl(*class).unwrap_or(0);
        }
        space.add(alloc, sets)?;
    }
    outside_all(alloc, &space, left_out, steps)
}

/// The same of a space of eight classes in four dimensions that is cut at random into so many boxes.
pub fn cut(alloc: Global, seed: u32, count: u32, left_out: u32, steps: u64) -> Result<Answer> {
    let mut space = Space::of(alloc, [1, 8, 8, 8, 8, 1]);
    let mut draws = Draws {
        state: u64::from(seed),
    };
    space.add(alloc, [u128::MAX; 6])?;
    let mut products: Vec<[u128; 6]> = Vec::new(alloc);
    products.push([1, 255, 255, 255, 255, 1])?;
    for _ in 0..100_000 {
        if products.len() < count as usize {
            cut_one(&mut draws, &mut products)?;
        }
    }
    shuffle(&mut draws, &mut products);
    for sets in products {
        space.add(alloc, sets)?;
    }
    outside_all(alloc, &space, left_out, steps)
}

/// Cuts one of the products in two in one of the four dimensions, if it has several classes there.
fn cut_one(draws: &mut Draws, products: &mut Vec<[u128; 6]>) -> Result<()> {
    let at = draws.next() as usize % products.len().max(1);
    let dimension = 1 + draws.next() as usize % 4;
    let low = LOW[draws.next() as usize % 7];
    let Some(sets) = products.get_mut(at) else {
        return Ok(());
    };
    let set = sets[dimension];
    if set & low == 0 || set & !low == 0 {
        return Ok(());
    }
    let mut other = *sets;
    sets[dimension] = set & low;
    other[dimension] = set & !low;
    products.push(other)?;
    Ok(())
}

/// The answer to whether the first box is outside all others but the last ones.
fn outside_all(alloc: Global, space: &Space, left_out: u32, steps: u64) -> Result<Answer> {
    let end = u32::try_from(space.sets.len())?.saturating_sub(left_out);
    let mut others: Vec<u32> = Vec::new(alloc);
    for number in 1..end {
        others.push(number)?;
    }
    searched(alloc, space, steps, 0, &others)
}

fn shuffle<T>(draws: &mut Draws, items: &mut [T]) {
    for at in 1..items.len() {
        let other = draws.next() as usize % (at + 1);
        items.swap(at, other);
    }
}
