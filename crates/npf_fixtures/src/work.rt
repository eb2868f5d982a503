// Work that is timed.
use anyhow::Error;
use std::time::Instant;

/// Pieces of work on so many things of a name; with 0 pieces no time is told.
#[derive(Clone, Copy)]
pub struct Work {
    pub size: u64,
    pub name: &'static str,
    pub pieces: u64,
}

impl Work {
    /// Says what the work came to, and how long a piece of it took since the start.
    pub fn say(&self, rt: &HostRuntime, start: Instant, answer: u64) -> Result<(), Error> {
        let took = start.elapsed(rt)?.as_nanos();
        let Work { size, name, pieces } = *self;
        if pieces == 0 {
            println!(rt; "{size} {name}: {answer}")?;
        } else {
            println!(rt;
                "{size} {name}: {answer}, {} ns each",
                took / u128::from(pieces)
            )?;
        }
        Ok(())
    }
}

/// The number that was asked for, or a small one where it is 0.
pub fn or_few(asked: u64, few: u64) -> u64 {
    if asked == 0 { few } else { asked }
}
