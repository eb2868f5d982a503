// Packets 1 and 2 meet in a table, for so many turns at most.
use crate::gates::TURNS;
use crate::watched::Watch;
use std::sync::atomic::{AtomicU64, Ordering};
use std::thread::yield_now;

/// The first look of packet 1 and of packet 2 each wait until the other's has begun.
#[derive(Drop)]
pub struct Meeting {
    first: AtomicU64,
    second: AtomicU64,
    gave_up: AtomicU64,
}

impl Meeting {
    pub fn new() -> Meeting {
        Meeting {
            first: AtomicU64::new(0),
            second: AtomicU64::new(0),
            gave_up: AtomicU64::new(0),
        }
    }

    /// Whether both looks began and neither gave up.
    pub fn met(&self) -> bool {
        self.first.load(Ordering::SeqCst) != 0
            && self.second.load(Ordering::SeqCst) != 0
            && self.gave_up.load(Ordering::SeqCst) == 0
    }

    // Its own look has begun. The first one waits for the other.
    fn wait(&self, own: &AtomicU64, other: &AtomicU64) {
        if own.swap(1, Ordering::SeqCst) != 0 {
            return;
        }
        for _ in 0..TURNS {
            if other.load(Ordering::SeqCst) != 0 {
                return;
            }
            yield_now();
        }
        self.gave_up.store(1, Ordering::SeqCst);
    }
}

impl Watch for Meeting {
    fn before_look(&self, n: u64) {
        match n {
            1 => self.wait(&self.first, &self.second),
            2 => self.wait(&self.second, &self.first),
            _ => {}
        }
    }

    fn before_expire(&self) {}
}
