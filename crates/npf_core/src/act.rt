// What is asked of the machine.
use crate::conn_id::ConnId;
use npf_types::{Key, Way};

/// Why a connection is killed.
#[derive(Clone, Copy, Debug, PartialEq, Eq)]
pub enum Why {
    /// It was given up before its start.
    Abandoned,
    /// It was due at this time.
    Expired(u64),
}

/// What is asked of the machine. `packet` is the number of the packet for which it is asked.
#[derive(Clone, Copy, Debug, PartialEq, Eq)]
pub enum Act<S, A> {
    /// The slot's next connection, which is Building from now on.
    Claim {
        packet: u64,
        slot: u32,
    },
    /// Who holds the key.
    Look {
        packet: u64,
        key: Key,
    },
    /// The key for a connection that is Building, as its key of that way.
    Hold {
        id: ConnId,
        key: Key,
        way: Way,
    },
    /// A connection that was Building is Live from now on, with this flow. The start counts as its first step.
    Start {
        id: ConnId,
        packet: u64,
        init: S,
    },
    /// The next step of the connection's flow, by a packet of that way.
    Step {
        packet: u64,
        id: ConnId,
        way: Way,
        arg: A,
    },
    /// The connection's end.
    Kill {
        id: ConnId,
        why: Why,
    },
    /// A dead connection gives back its key of that way.
    Unhold {
        id: ConnId,
        way: Way,
    },
    /// A dead connection without keys gives back its slot.
    Free {
        id: ConnId,
    },
}
