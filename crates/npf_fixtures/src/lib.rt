// What several test crates and benchmarks share: texts and bytes as rows have them, and work that is timed. It promises nothing.
#![tactic(auto)]

pub mod texts;
pub mod work;
