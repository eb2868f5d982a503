// What a pass asks the machine under a turn.
use npf_core::ConnId;
use npf_types::Way;

/// What is done at the end of a turn.
#[derive(Drop)]
pub enum TurnAct<'a, S, A> {
    /// The machine is asked for nothing.
    Nothing,
    /// A connection that the pass is building is Live from now on, with this flow, for the packet `n`.
    Start {
        id: ConnId,
        n: u64,
        init: S,
    },
    /// The next step of a connection's flow, by the packet `n`, which is of that way.
    Step {
        id: ConnId,
        n: u64,
        way: Way,
        arg: &'a A,
    },
    /// A connection that the pass is building is given up.
    Abandoned {
        id: ConnId,
    },
    /// A Live connection that is due at that time is killed.
    Expired {
        id: ConnId,
        now: u64,
    },
    /// A Dead connection that nobody may speak of any more: its slot is the pass's own.
    Reclaim {
        id: ConnId,
    },
}
