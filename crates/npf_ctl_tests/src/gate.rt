// A gate that counts the packets which workers take: how many began, and how many ended right behind their beginning. It may hold each
// packet until the one before is answered, so that any number of workers do what one does.
use npf_runner::Gate;
use std::sync::atomic::{AtomicU64, Ordering};
use std::thread::yield_now;

/// A packet is held for so many turns at most.
const TURNS: u64 = 10_000_000;

#[derive(Drop)]
pub struct Around {
    /// Whether each packet is held until the one before is answered.
    in_turn: bool,
    begun: AtomicU64,
    ended: AtomicU64,
    /// The number of the packet that began last.
    last: AtomicU64,
    /// The number of the packet that was answered last.
    answered: AtomicU64,
}

impl Around {
    pub fn new(in_turn: bool) -> Around {
        Around {
            in_turn,
            begun: AtomicU64::new(0),
            ended: AtomicU64::new(0),
            last: AtomicU64::new(0),
            answered: AtomicU64::new(0),
        }
    }

    /// The packets that began, and those that ended. One that was held too long counts as neither.
    pub fn counts(&self) -> (u64, u64) {
        (
            self.begun.load(Ordering::SeqCst),
            self.ended.load(Ordering::SeqCst),
        )
    }

    /// Whether the packet of this number may begin, once the one before is answered where packets are held.
    fn may_begin(&self, n: u64) -> bool {
        if !self.in_turn {
            return true;
        }
        for _ in 0..TURNS {
            if self.answered.load(Ordering::SeqCst) == n.saturating_sub(1) {
                return true;
            }
            yield_now();
        }
        false
    }
}

impl Gate for Around {
    fn before(&self, _worker: u32, n: u64) {
        if self.may_begin(n) {
            self.last.store(n, Ordering::SeqCst);
            self.begun.fetch_add(1, Ordering::SeqCst);
        }
    }

    fn after(&self, _worker: u32, n: u64) {
        if self.last.load(Ordering::SeqCst) == n {
            self.ended.fetch_add(1, Ordering::SeqCst);
        }
        self.answered.store(n, Ordering::SeqCst);
    }
}
