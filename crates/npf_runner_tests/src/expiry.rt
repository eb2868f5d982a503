// Packets that are handled while a table is about to expire connections, for so many turns at most.
use crate::gates::TURNS;
use crate::watched::Watch;
use npf_runner::Gate;
use std::sync::atomic::{AtomicU64, Ordering};
use std::thread::yield_now;

/// The packet waits until an expiry is about to begin, which waits until the packet is answered.
#[derive(Drop)]
pub struct Expiry {
    begun: AtomicU64,
    answered: AtomicU64,
    gave_up: AtomicU64,
}

impl Expiry {
    pub fn new() -> Expiry {
        Expiry {
            begun: AtomicU64::new(0),
            answered: AtomicU64::new(0),
            gave_up: AtomicU64::new(0),
        }
    }

    /// Whether one of the two gave up.
    pub fn gave_up(&self) -> bool {
        self.gave_up.load(Ordering::SeqCst) != 0
    }

    fn wait_for(&self, event: &AtomicU64) {
        for _ in 0..TURNS {
            if event.load(Ordering::SeqCst) != 0 {
                return;
            }
            yield_now();
        }
        self.gave_up.store(1, Ordering::SeqCst);
    }
}

impl Gate for Expiry {
    fn before(&self, _worker: u32, _n: u64) {
        self.wait_for(&self.begun);
    }

    fn after(&self, _worker: u32, _n: u64) {
        self.answered.store(1, Ordering::SeqCst);
    }
}

impl Watch for Expiry {
    fn before_look(&self, _n: u64) {}

    fn before_expire(&self) {
        self.begun.store(1, Ordering::SeqCst);
        self.wait_for(&self.answered);
    }
}
