// When a flow runs out.
ghost use Rattle.std.specs.Prelude.{◌≡◌};
ghost use Rattle.npf_flow.specs.Timeout.{is_due, tcp_timeout_kind, timeout, timeout_kind};

use crate::flow::{Flow, FlowKind};
use npf_tcp::TcpPhase;
use npf_timeouts::Timeout;

/// A second, in nanoseconds.
const SECOND: u64 = 1_000_000_000;

/// Whether the flow has run out at the time `now`, in nanoseconds: exactly where it was idle for its timeout or longer,
/// and never before the time of its last packet.
pub fn due(flow: &Flow, now: u64) -> bool
    ensures { result ≡ is_due flow.now now }
{
    flow.last <= now && now - flow.last >= timeout(flow)
}

fn timeout(flow: &Flow) -> u64
    ensures { result ≡ timeout flow.now }
{
    u64::from(flow.timeouts.get(timeout_kind(flow.kind))) * SECOND
}

/// Which of its timeouts a flow has.
fn timeout_kind(kind: FlowKind) -> Timeout
    ensures { result ≡ timeout_kind kind }
{
    match kind {
        FlowKind::Tcp(state) => tcp_timeout_kind(state.phase),
        FlowKind::Other { answered: false } => Timeout::OtherNew,
        FlowKind::Other { answered: true } => Timeout::OtherEstablished,
    }
}

fn tcp_timeout_kind(phase: TcpPhase) -> Timeout
    ensures { result ≡ tcp_timeout_kind phase }
{
    match phase {
        TcpPhase::SynSent | TcpPhase::SimsynSent | TcpPhase::SynReceived => Timeout::TcpNew,
        TcpPhase::Established => Timeout::TcpEstablished,
        TcpPhase::FinSent
        | TcpPhase::FinReceived
        | TcpPhase::CloseWait
        | TcpPhase::FinWait
        | TcpPhase::Closing
        | TcpPhase::LastAck => Timeout::TcpHalfClose,
        TcpPhase::TimeWait => Timeout::TcpTimeWait,
        TcpPhase::Closed => Timeout::TcpClose,
    }
}
