// The rows of the table, and what each asks.
use crate::beside::{agrees, has};
use anyhow::{Context, Result, anyhow};
use npf_cut::{Dimension, Range};
use npf_steps::{Steps, Stopped};
use std::alloc::Global;

// Enough for each row that isn't about steps.
const MANY: u64 = 1_000_000;

/// Sets as a row has them.
#[derive(Drop)]
struct Sets {
    ranges: Vec<Range>,
    count: usize,
}

/// The answer to a row.
pub fn answer(alloc: Global, line: &str) -> Result<String> {
    let words: Vec<&str> = line.split_whitespace().collect(alloc)?;
    let (name, others) = words.split_first().context("no name")?;
    let (first, sets) = others.split_first().context("no number")?;
    match *name {
        "classes" => classes(alloc, first.parse()?, parse_sets(alloc, sets)?),
        "ends" => ends(alloc, first.parse()?, parse_sets(alloc, sets)?),
        "steps" => steps(alloc, first.parse()?, sets),
        "drawn" => drawn(alloc, others),
        _ => Err(anyhow!("no such row: {name}")),
    }
}

/// The class of each number up to the top, and then the classes of each set.
fn classes(alloc: Global, top: u32, sets: Sets) -> Result<String> {
    let mut steps = Steps::new(MANY);
    let count = sets.count;
    let dimension = Dimension::new(alloc, u128::from(top), sets.ranges, &mut steps)?;
    let mut text = String::new(alloc);
    for number in 0..=top {
        let class = dimension.class_at(u128::from(number));
        text.push_str(&format!(in alloc; "{class}")?)?;
    }
    let bits = dimension.bits(alloc, count, &mut steps)?;
    for set in 0..count {
        text.push(' ')?;
        push_classes(alloc, &mut text, bits.of(set), dimension.count())?;
    }
    Ok(text)
}

/// Adds the classes of a set to the text, or a dash where it has none.
fn push_classes(alloc: Global, text: &mut String, words: &[u64], count: usize) -> Result<()> {
    let mut none = true;
    for class in 0..count {
        if has(words, class) {
            text.push_str(&format!(in alloc; "{class}")?)?;
            none = false;
        }
    }
    if none {
        text.push('-')?;
    }
    Ok(())
}

/// The least number of each class.
fn ends(alloc: Global, top: u128, sets: Sets) -> Result<String> {
    let mut steps = Steps::new(MANY);
    let dimension = Dimension::new(alloc, top, sets.ranges, &mut steps)?;
    let mut text = String::new(alloc);
    for class in 0..dimension.count() {
        let member = dimension.member(class);
        let at = dimension.class_at(member);
        text.push_str(&format!(in alloc; "{at}:{member} ")?)?;
    }
    let last = dimension.class_at(top);
    text.push_str(&format!(in alloc; "top {last}")?)?;
    Ok(text)
}

/// How many steps the classes take and then the bits, or which of them are stopped.
fn steps(alloc: Global, most: u64, words: &[&str]) -> Result<String> {
    let (top, sets) = words.split_first().context("no top")?;
    let sets = parse_sets(alloc, sets)?;
    let mut steps = Steps::new(most);
    let dimension = match Dimension::new(alloc, top.parse()?, sets.ranges, &mut steps) {
        Ok(dimension) => dimension,
        Err(Stopped::Spent) => return Ok(String::from_str(alloc, "classes spent")?),
        Err(stopped) => return Err(stopped.into()),
    };
    let taken = steps.taken();
    match dimension.bits(alloc, sets.count, &mut steps) {
        Ok(_) => Ok(format!(in alloc; "{taken} {}", steps.taken())?),
        Err(Stopped::Spent) => Ok(format!(in alloc; "{taken} bits spent")?),
        Err(stopped) => Err(stopped.into()),
    }
}

/// Whether drawn sets of each seed have the classes that a plain program finds.
fn drawn(alloc: Global, words: &[&str]) -> Result<String> {
    let mut agreed = 0u32;
    for word in words {
        if agrees(alloc, word.parse()?)? {
            agreed = agreed.saturating_add(1);
        }
    }
    Ok(format!(in alloc; "{agreed}")?)
}

/// Sets whose ranges are parted by commas; `none` is a set without any.
fn parse_sets(alloc: Global, words: &[&str]) -> Result<Sets> {
    let mut ranges = Vec::new(alloc);
    for (set, word) in words.iter().enumerate() {
        if *word != "none" {
            for text in word.split(',') {
                let (low, high) = text.split_once('-').unwrap_or((text, text));
                let low = low.parse()?;
                let high = high.parse()?;
                ranges.push(Range { set, low, high })?;
            }
        }
    }
    Ok(Sets {
        ranges,
        count: words.len(),
    })
}
