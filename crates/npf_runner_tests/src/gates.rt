// Gates: one that holds a worker until another is done with a packet, for so many turns at most, and one that notes what it is told.
use npf_runner::Gate;
use std::sync::atomic::{AtomicU64, Ordering};
use std::thread::yield_now;

/// A gate gives up after so many turns.
pub const TURNS: u64 = 10_000_000;

/// Holds a packet until another one's outcome is known.
#[derive(Drop)]
pub struct HoldUntil {
    pub held: u64,
    pub until: u64,
    answered: AtomicU64,
    gave_up: AtomicU64,
}

impl HoldUntil {
    pub fn new(held: u64, until: u64) -> HoldUntil {
        HoldUntil {
            held,
            until,
            answered: AtomicU64::new(0),
            gave_up: AtomicU64::new(0),
        }
    }

    /// Whether the gate gave up.
    pub fn gave_up(&self) -> bool {
        self.gave_up.load(Ordering::SeqCst) != 0
    }
}

impl Gate for HoldUntil {
    fn before(&self, _worker: u32, n: u64) {
        if n != self.held {
            return;
        }
        for _ in 0..TURNS {
            if self.answered.load(Ordering::SeqCst) != 0 {
                return;
            }
            yield_now();
        }
        self.gave_up.store(1, Ordering::SeqCst);
    }

    fn after(&self, _worker: u32, n: u64) {
        if n == self.until {
            self.answered.store(1, Ordering::SeqCst);
        }
    }
}

/// Notes what it is told of packets 1 and 2, in order: a digit for each call.
#[derive(Drop)]
pub struct Notes {
    first: AtomicU64,
    second: AtomicU64,
}

impl Notes {
    pub fn new() -> Notes {
        Notes {
            first: AtomicU64::new(0),
            second: AtomicU64::new(0),
        }
    }

    /// What was noted of packet 1 and of packet 2: 1 where worker 0 began and 2 where it was done, 3 and 4 for worker 1.
    pub fn noted(&self) -> (u64, u64) {
        (
            self.first.load(Ordering::SeqCst),
            self.second.load(Ordering::SeqCst),
        )
    }

    fn note(&self, n: u64, digit: u64) {
        let packet = if n == 1 { &self.first } else { &self.second };
        let noted = packet.load(Ordering::SeqCst);
        packet.store(
            noted.saturating_mul(10).saturating_add(digit),
            Ordering::SeqCst,
        );
    }
}

impl Gate for Notes {
    fn before(&self, worker: u32, n: u64) {
        self.note(n, 1 + 2 * u64::from(worker));
    }

    fn after(&self, worker: u32, n: u64) {
        self.note(n, 2 + 2 * u64::from(worker));
    }
}
