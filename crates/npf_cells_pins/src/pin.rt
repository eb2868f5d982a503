// What a pass knows of epochs.
use std::collections::LinkedList;

/// How a pass reads.
pub enum Pin {
    Idle,
    /// Its reader word says so, and it hasn't loaded the epoch again.
    Pinned { epoch: u64 },
    /// It pinned this epoch and then loaded that one, which fixes what is protected.
    Protected { pinned: u64, epoch: u64 },
}

/// What a pass knows of the epoch and of the readers.
pub struct EpochSide {
    pub pin: Pin,
    /// The epoch that it loaded last by `load_epoch`, 0 where it loaded none.
    pub loaded: u64,
    /// The reader places that it found idle or in that epoch since then.
    pub scanned: LinkedList<u32>,
    /// Those that it found pinned in another epoch since then.
    pub behind: LinkedList<u32>,
    /// The epoch that its last step on that word found.
    pub met: u64,
    /// The greatest epoch that its steps found.
    pub greatest: u64,
    /// The greatest epoch that it knows of: it is one more where it raised the epoch itself.
    pub known: u64,
    /// How often it raised the epoch.
    pub raises: u64,
}
