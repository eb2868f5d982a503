// Phases of a run, their commands, and how packets are spread over workers.
use npf_types::List;

/// What the control task does while a phase's packets are handled.
#[derive(Clone, Copy, Debug, PartialEq, Eq)]
pub enum Command {
    /// Publishes the configuration of this number, from 1, which is its place in the run's list.
    Publish(u32),
    /// Kills the connections that are due at this time, in nanoseconds, and then frees what may be freed.
    Expire(u64),
}

/// So many packets of a run, and the commands that are done beside them, in order.
#[derive(Debug, Drop)]
pub struct Phase {
    pub packets: u64,
    pub commands: List<Command>,
}

/// How packets are dealt to workers.
#[derive(Clone, Copy, Debug, PartialEq, Eq)]
pub enum Spread {
    /// One after the other: packet n goes to the worker (n - 1) modulo their count.
    Rr,
    /// By addresses, ports and protocol, the same with source and destination changed about; what is skipped or malformed goes to the
    /// first worker.
    Flow,
}
