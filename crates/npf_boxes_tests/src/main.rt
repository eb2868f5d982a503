// What no clause says of boxes: that their words mean products of sets, and that the search answers as a look at every cell of the space does.
// Standard input has a row a line, and each row is printed with its answer.
#![tactic(auto)]

mod covers;
mod draws;
mod every_cell;
mod space;

use anyhow::{Context, Result, anyhow};
use covers::{cut, grid};
use draws::drawn;
use every_cell::{Answer, least, met, searched};
use space::Space;
use std::alloc::Global;
use std::io::{BufRead, BufReader};

fn main(rt: HostRuntime) -> Result<()> {
    let alloc = rt.alloc();
    let mut space = Space::of(alloc, [1; 6]);
    for (index, line) in BufReader::new(alloc, rt.reader())?.lines(alloc).enumerate() {
        answer_line(&rt, &mut space, &line?).context(format_args!("line {}", index + 1))?;
    }
    Ok(())
}

/// Prints the answer to a line, if it has a row.
fn answer_line(rt: &(impl Print + AllocGlobal), space: &mut Space, line: &str) -> Result<()> {
    if line.is_empty() || line.starts_with('#') {
        return Ok(());
    }
    let words: Vec<&str> = line.split_whitespace().collect(rt.alloc())?;
    let (name, others) = words.split_first().context("no name")?;
    let answer = answer(rt.alloc(), space, name, others)?;
    println!(rt; "{line} -> {answer:?}")?;
    Ok(())
}

/// The answer of the row of this name.
fn answer(alloc: Global, space: &mut Space, name: &str, words: &[&str]) -> Result<Answer> {
    if name == "box" {
        space.add(alloc, sets(words)?)?;
        return Ok(Answer::Right);
    }
    let numbers = numbers(alloc, words)?;
    let numbers = numbers.as_slice();
    match (name, numbers) {
        ("space", [a, b, c, d, e, f]) => {
            *space = Space::of(alloc, [*a, *b, *c, *d, *e, *f]);
            Ok(Answer::Right)
        }
        ("outside", [steps, from, ..]) => searched(
            alloc,
            space,
            u64::from(*steps),
            *from,
            &numbers[2..],
        ),
        ("meet", [a, b]) => met(alloc, space, *a, *b),
        ("least", [number]) => least(space, *number),
        ("grid", [classes, left_out, steps]) => grid(alloc, *classes, *left_out, u64::from(*steps)),
        ("cut", [seed, count, left_out, steps]) => cut(
            alloc,
            *seed,
            *count,
            *left_out,
            u64::from(*steps),
        ),
        ("drawn", [seed]) => drawn(alloc, u64::from(*seed)),
        _ => Err(anyhow!("no such row")),
    }
}

fn numbers(alloc: Global, words: &[&str]) -> Result<Vec<u32>> {
    let mut numbers = Vec::new(alloc);
    for word in words {
        numbers.push(word.parse()?)?;
    }
    Ok(numbers)
}

/// Six sets, each a list of classes and of ranges of them, as `0-2,5`; `-` has none.
fn sets(words: &[&str]) -> Result<[u128; 6]> {
    let mut sets = [0; 6];
    for (set, word) in sets.iter_mut().zip(words) {
        *set = parse_set(word)?;
    }
    Ok(sets)
}

fn parse_set(word: &str) -> Result<u128> {
    let mut set = 0;
    if word == "-" {
        return Ok(set);
    }
    for range in word.split(',') {
        let (low, high) = range.split_once('-').unwrap_or((range, range));
        let low: u32 = low.parse()?;
        let high: u32 = high.parse()?;
        for class in low..high.min(127) + 1 {
            set |= 1u128.checked_shl(class).unwrap_or(0);
        }
    }
    Ok(set)
}
