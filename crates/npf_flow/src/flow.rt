// Flows and their opening.
//
// A flow is opened by what a packet brings: with a segment it is one of TCP, without one it is of another protocol, which then takes no
// notice of segments. So nobody above asks for the protocol twice.
ghost use Rattle.std.specs.Prelude.{◌≡◌};
ghost use Rattle.npf_flow.specs.Flows.{opening_flow, opening_kind};

use crate::step::FlowArg;
use npf_tcp::{TcpState, open_tcp};
use npf_timeouts::Timeouts;
use npf_types::{Action, Change, Segment};

/// What a flow remembers of its packets, by protocol.
#[derive(Clone, Copy, Debug, PartialEq, Eq)]
pub enum FlowKind {
    /// A connection of TCP, and its state.
    Tcp(TcpState),
    /// Another protocol, and whether a backward packet came.
    Other { answered: bool },
}

/// The flow of a live connection. `last` is the greatest time of its packets, in nanoseconds, and `opener` the number of
/// the packet that opened it. `there` translates forward packets and `back` the answers; `action` is done to both. `timeouts`
/// are those under which it was opened.
#[derive(Clone, Copy, Debug, PartialEq, Eq)]
pub struct Flow {
    pub kind: FlowKind,
    pub last: u64,
    pub opener: u64,
    pub there: Change,
    pub back: Change,
    pub action: Action,
    pub timeouts: Timeouts,
}

/// What a configuration says of the connections that open under it: whether one of TCP is `strict` about resets, and for how
/// long a connection may be idle.
#[derive(Clone, Copy, Debug, PartialEq, Eq)]
pub struct FlowSettings {
    pub strict: bool,
    pub timeouts: Timeouts,
}

impl FlowSettings {
    /// What holds where a configuration says nothing of them.
    pub const DEFAULT: FlowSettings = FlowSettings {
        strict: false,
        timeouts: Timeouts::DEFAULT,
    };
}

/// The flow that the packet with the number `opener` opens under these settings: a connection of TCP where the packet has a
/// segment, and otherwise one that isn't answered.
pub fn open_flow(
    arg: FlowArg,
    settings: FlowSettings,
    opener: u64,
    there: Change,
    back: Change,
    action: Action,
) -> Flow
    ensures { result ≡ opening_flow arg settings opener there back action }
{
    Flow {
        kind: opening_kind(settings.strict, arg.seg),
        last: arg.now,
        opener,
        there,
        back,
        action,
        timeouts: settings.timeouts,
    }
}

fn opening_kind(strict: bool, seg: Option<Segment>) -> FlowKind
    ensures { result ≡ opening_kind strict seg }
{
    match seg {
        Some(seg) => FlowKind::Tcp(open_tcp(&seg, strict)),
        None => FlowKind::Other { answered: false },
    }
}
