// Packets that fill a table, an expiry that kills what they opened, and one packet behind it, for so many turns at most.
use crate::gates::TURNS;
use crate::run::SLOTS;
use crate::watched::Watch;
use npf_runner::Gate;
use std::sync::atomic::{AtomicU64, Ordering};
use std::thread::yield_now;

/// The first expiry waits until so many packets are answered as the table has slots. The packet behind them waits until the second expiry is
/// about to begin, so that all of the first is done; and that one waits until the packet is answered.
#[derive(Drop)]
pub struct Freeing {
    answered: AtomicU64,
    expiries: AtomicU64,
    gave_up: AtomicU64,
}

impl Freeing {
    pub fn new() -> Freeing {
        Freeing {
            answered: AtomicU64::new(0),
            expiries: AtomicU64::new(0),
            gave_up: AtomicU64::new(0),
        }
    }

    /// Whether the expiry or the packet gave up.
    pub fn gave_up(&self) -> bool {
        self.gave_up.load(Ordering::SeqCst) != 0
    }

    fn wait_for(&self, events: &AtomicU64, count: u64) {
        for _ in 0..TURNS {
            if events.load(Ordering::SeqCst) >= count {
                return;
            }
            yield_now();
        }
        self.gave_up.store(1, Ordering::SeqCst);
    }
}

impl Gate for Freeing {
    fn before(&self, _worker: u32, n: u64) {
        if n > u64::from(SLOTS) {
            self.wait_for(&self.expiries, 2);
        }
    }

    fn after(&self, _worker: u32, _n: u64) {
        self.answered.fetch_add(1, Ordering::SeqCst);
    }
}

impl Watch for Freeing {
    fn before_look(&self, _n: u64) {}

    fn before_expire(&self) {
        let earlier = self.expiries.fetch_add(1, Ordering::SeqCst);
        self.wait_for(&self.answered, u64::from(SLOTS).saturating_add(earlier));
    }
}
