// Who is told when a worker begins and ends a packet.

/// Is told when a worker, counted from 0, begins and ends the packet of a number.
pub trait Gate: Sync {
    /// Before the packet is handled.
    fn before(&self, worker: u32, n: u64);

    /// After its outcome is known.
    fn after(&self, worker: u32, n: u64);
}

/// The gate that does nothing.
#[derive(Clone, Copy, Debug)]
pub struct NoGate;

impl Gate for NoGate {
    fn before(&self, _worker: u32, _n: u64) {}

    fn after(&self, _worker: u32, _n: u64) {}
}
