// Answers of npf_boxes beside a look at every cell of the space.
use crate::space::{Space, has_class};
use anyhow::{Result, anyhow};
use npf_boxes::{Boxes, Shape, least_cell, meet, outside};
use npf_steps::{Steps, Stopped};
use std::alloc::Global;

/// What an answer was, and whether it was right.
#[derive(Clone, Copy, Debug, PartialEq, Eq)]
pub enum Answer {
    /// Rightly none.
    Nothing,
    /// Rightly a box.
    Product,
    /// The steps were spent.
    Spent,
    Right,
    Wrong,
}

/// The answer to whether the box of a number has a cell outside the others.
pub fn searched(
    alloc: Global,
    space: &Space,
    steps: u64,
    from: u32,
    others: &[u32],
) -> Result<Answer> {
    match search(alloc, &space.boxes, steps, from, others)? {
        Ok(Some(part)) => part_of(space, &part, from, others),
        Ok(None) => Ok(none_outside(space, from, others)),
        Err(Stopped::Spent) => Ok(Answer::Spent),
        Err(Stopped::NoMemory) => Err(anyhow!("out of memory")),
    }
}

fn search(
    alloc: Global,
    boxes: &Boxes,
    steps: u64,
    from: u32,
    others: &[u32],
) -> Result<Result<Option<Vec<u64>>, Stopped>> {
    let mut numbers: Vec<usize> = Vec::new(alloc);
    for other in others {
        if *other as usize >= boxes.count {
            return Err(anyhow!("no other"));
        }
        numbers.push(*other as usize)?;
    }
    if from as usize >= boxes.count {
        return Err(anyhow!("no box"));
    }
    let words = boxes.get(from as usize);
    let mut steps = Steps::new(steps);
    Ok(outside(alloc, boxes, words, &numbers, &mut steps))
}

fn words_of(boxes: &Boxes, number: u32) -> Result<&[u64]> {
    if number as usize >= boxes.count {
        return Err(anyhow!("no box"));
    }
    Ok(boxes.get(number as usize))
}

/// Whether each cell of the box is in one of the others.
fn none_outside(space: &Space, from: u32, others: &[u32]) -> Answer {
    for number in 0..space.cells() {
        let cell = space.cell(number);
        if space.has(from, &cell) && !space.any_has(others, &cell) {
            return Answer::Wrong;
        }
    }
    Answer::Nothing
}

/// Whether the words have a cell, and each that they have is in the box and in none of the others.
fn part_of(space: &Space, words: &[u64], from: u32, others: &[u32]) -> Result<Answer> {
    let mut any = false;
    for number in 0..space.cells() {
        let cell = space.cell(number);
        if has_cell(&space.boxes.shape, words, &cell) {
            any = true;
            if !space.has(from, &cell) || space.any_has(others, &cell) {
                return Ok(Answer::Wrong);
            }
        }
    }
    Ok(if any { Answer::Product } else { Answer::Wrong })
}

/// Whether the words have the cell.
fn has_cell(shape: &Shape, words: &[u64], cell: &[u32; 6]) -> bool {
    cell.iter().zip(&shape.starts).all(|(class, start)| {
        let word = words
            .get(start.saturating_add(*class as usize / 64))
            .copied();
        has_class(u128::from(word.unwrap_or(0)), class % 64)
    })
}

/// The answer to which cells two boxes share.
pub fn met(alloc: Global, space: &Space, a: u32, b: u32) -> Result<Answer> {
    let boxes = &space.boxes;
    let Some(both) = meet_of(alloc, boxes, words_of(boxes, a)?, words_of(boxes, b)?)? else {
        return Ok(if shares(space, a, b) {
            Answer::Wrong
        } else {
            Answer::Nothing
        });
    };
    for number in 0..space.cells() {
        let cell = space.cell(number);
        if has_cell(&boxes.shape, &both, &cell) != (space.has(a, &cell) && space.has(b, &cell)) {
            return Ok(Answer::Wrong);
        }
    }
    Ok(if shares(space, a, b) {
        Answer::Product
    } else {
        Answer::Wrong
    })
}

fn meet_of(alloc: Global, boxes: &Boxes, a: &[u64], b: &[u64]) -> Result<Option<Vec<u64>>> {
    let width = boxes.shape.words();
    if a.len() != width || b.len() != width {
        return Err(anyhow!("no box"));
    }
    Ok(meet(alloc, &boxes.shape, a, b)?)
}

/// Whether some cell is in both boxes.
fn shares(space: &Space, a: u32, b: u32) -> bool {
    for number in 0..space.cells() {
        let cell = space.cell(number);
        if space.has(a, &cell) && space.has(b, &cell) {
            return true;
        }
    }
    false
}

/// The answer to which is the least cell of a box.
pub fn least(space: &Space, number: u32) -> Result<Answer> {
    let boxes = &space.boxes;
    let words = words_of(boxes, number)?;
    if words.len() != boxes.shape.words() {
        return Err(anyhow!("no box"));
    }
    let Some(cell) = least_cell(&boxes.shape, words) else {
        return Ok(if shares(space, number, number) {
            Answer::Wrong
        } else {
            Answer::Nothing
        });
    };
    let mut classes = [0; 6];
    for (class, least) in classes.iter_mut().zip(&cell) {
        *class = u32::try_from(*least)?;
    }
    Ok(if is_least(space, number, &classes) {
        Answer::Product
    } else {
        Answer::Wrong
    })
}

/// Whether the box has the cell, and no cell with a lesser class.
fn is_least(space: &Space, number: u32, least: &[u32; 6]) -> bool {
    for other in 0..space.cells() {
        let cell = space.cell(other);
        if space.has(number, &cell) && least.iter().zip(&cell).any(|(a, b)| a > b) {
            return false;
        }
    }
    space.has(number, least)
}
