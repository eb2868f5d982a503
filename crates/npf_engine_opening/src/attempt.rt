// What a packet asks of the table, and what becomes of it.
//
// An attempt has its facts by value: a reference would give it a lifetime, and a packet opens a connection once.
use npf_core::{ConnId, Found, Stepped};
use npf_flow::{FlowArg, FlowReply, FlowSettings};
use npf_nat::MapPlan;
use npf_types::{Action, Change, Facts, IfId};

/// A packet that would open a connection, by its number `packet` in the run. `ifid` is the interface of its keys: 0 for a
/// connection of all interfaces. `settings` are those under which the connection would go on. `plan` is what a map makes of the
/// packet: two changes that name nothing where there is none.
#[derive(Clone, Copy, Debug, PartialEq, Eq)]
pub struct Attempt {
    pub packet: u64,
    pub facts: Facts,
    pub ifid: IfId,
    pub arg: FlowArg,
    pub settings: FlowSettings,
    pub action: Action,
    pub plan: MapPlan,
}

/// Why a packet has no connection of its own.
#[derive(Clone, Copy, Debug, PartialEq, Eq)]
pub enum Refusal {
    /// Each slot of the table of connections was claimed.
    Full,
    /// The table had no node left to keep a key in.
    NoNode,
    /// A key of the packet had this holder.
    Taken(Found),
    /// Each port that might be drawn had a holder.
    NoPort,
}

/// What became of a packet that would open a connection.
#[derive(Debug, PartialEq, Eq, Drop)]
pub enum Opened {
    /// It opened this connection, which translates it so.
    Open {
        id: ConnId,
        there: Change,
    },
    /// Its key has this holder, and this is what the holder's step by it was answered.
    Known {
        holder: Found,
        answer: Stepped<FlowReply>,
    },
    /// It has none.
    Refused(Refusal),
}
