// What the words ask for.
use anyhow::Error;
use std::env;

/// What is measured.
#[derive(Clone, Copy, PartialEq, Eq)]
pub enum Measure {
    All,
    Connections,
    Trie,
    Publishing,
}

impl Measure {
    /// Whether the other one belongs to it.
    pub fn has(self, other: Measure) -> bool {
        self == Measure::All || self == other
    }
}

/// What is measured, and how often its work is done: 0 stands for a few times, with no times told.
pub fn asked(rt: &HostRuntime) -> Result<(Measure, u64), Error> {
    let mut words = env::args(rt)?;
    let _program = words.next();
    let measure = match words.next() {
        Some(word) => named(word.as_str()),
        None => Measure::All,
    };
    let rounds = match words.next() {
        Some(word) => word.as_str().parse::<u64>().unwrap_or(0),
        None => 0,
    };
    Ok((measure, rounds))
}

fn named(word: &str) -> Measure {
    match word {
        "connections" => Measure::Connections,
        "trie" => Measure::Trie,
        "publish" => Measure::Publishing,
        _ => Measure::All,
    }
}
