// What the questions took.
use std::fmt;
use std::time::Instant;

/// Microseconds of each kind of question, over all kinds of packets, and how many steps all of them took.
#[derive(Clone, Copy, Default)]
pub struct Spent {
    pub steps: u64,
    cut: u128,
    reached: u128,
    compared: u128,
}

impl Spent {
    /// Adds what passed between these moments: the cut with its boxes, the rules that are reached, and the pairs.
    pub fn add(&mut self, moments: &[Instant; 4]) {
        let [start, cut, reached, compared] = moments;
        self.cut = self.cut.saturating_add(between(start, cut));
        self.reached = self.reached.saturating_add(between(cut, reached));
        self.compared = self.compared.saturating_add(between(reached, compared));
    }
}

fn between(one: &Instant, other: &Instant) -> u128 {
    other.duration_since(*one).as_micros()
}

impl fmt::Display for Spent {
    fn fmt<W: fmt::Write>(&self, f: &mut fmt::Formatter<W>) -> fmt::Result {
        write!(
            f,
            "cut {} us, reached {} us, compared {} us, {} steps",
            self.cut, self.reached, self.compared, self.steps
        )
    }
}
