// What the rows before have prepared.
use crate::folder::Folder;
use std::alloc::Global;

/// The slots of a table of connections that is small.
const FEW_SLOTS: u32 = 64;

/// The calls that fail in the next run, of the files and of each sink; none where it is 0.
#[derive(Clone, Copy)]
pub struct Failing {
    pub file: u64,
    pub out: u64,
    pub err: u64,
}

pub const NOTHING: Failing = Failing {
    file: 0,
    out: 0,
    err: 0,
};

#[derive(Drop)]
pub struct Setting {
    pub alloc: Global,
    pub folder: Folder,
    /// The slots of the table of connections.
    pub slots: u32,
    /// The nodes of a table without locks, where the runs are over one whose keys have one hash.
    pub nodes: Option<u32>,
    pub failing: Failing,
    /// Whether the gate of the next run tells what it counted.
    pub gate: bool,
    /// Whether it holds each packet until the one before is answered.
    pub in_turn: bool,
}

impl Setting {
    /// That of a new subject.
    pub fn new(alloc: Global) -> Setting {
        Setting {
            alloc,
            folder: Folder::new(alloc),
            slots: FEW_SLOTS,
            nodes: None,
            failing: NOTHING,
            gate: false,
            in_turn: false,
        }
    }
}
