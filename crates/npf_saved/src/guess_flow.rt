// The flow of a connection's line, and the whole line. Where it spells one, it is the answer;
// `line` finds out.
ghost use Rattle.std.specs.Prelude.{◌≡◌, ℕ, true};
ghost use Rattle.std.specs.Fmt.{decimal};
ghost use Rattle.npf_tcp.specs.declared.state.Known.{Known as KnownType};
ghost use Rattle.npf_tcp.specs.declared.state.TcpPhase.{TcpPhase as PhaseType};
ghost use Rattle.npf_tcp.specs.declared.state.TcpSide.{TcpSide as SideType};
ghost use Rattle.npf_tcp.specs.declared.state.TcpState.{TcpState as StateType};
ghost use Rattle.npf_timeouts.specs.declared.timeouts.Timeouts.{Timeouts as TimeoutsType};
ghost use Rattle.npf_timeouts.specs.Timeouts.{AreTimeouts, is_timeout};
ghost use Rattle.npf_flow.specs.declared.flow.FlowKind.{FlowKind as KindType};
ghost use Rattle.npf_saved.specs.declared.saved.Saved.{Saved as SavedType};
ghost use Rattle.npf_saved.specs.Fields.{FitsKind, FitsSaved, FitsSide};
ghost use Rattle.npf_saved.specs.Spelling.{conn_line, kind_text, known_number, phase_number, side_text, state_text, timeouts_behind, times_text};

use crate::guess::{guess_action, guess_change, guess_key, guess_optional_key};
use crate::saved::Saved;
use crate::words::{cut, guess_bit, guess_number, guess_optional_byte, guess_u32};
use npf_flow::{Flow, FlowKind};
use npf_tcp::{Known, TcpPhase, TcpSide, TcpState};
use npf_timeouts::{Timeouts, is_timeout};

/// The connection of a line.
pub(crate) fn guess_conn(line: &[u8]) -> Saved
    ensures value { (saved : SavedType) → FitsSaved saved
        → line.now ≡ conn_line saved → result ≡ saved }
    ensures fits { FitsSaved result }
{
    let (_, rest) = cut(line, b' ');
    let (forward, rest) = cut(rest, b' ');
    let (port, rest) = cut(rest, b' ');
    let (backward, rest) = cut(rest, b' ');
    let (kind, rest) = cut(rest, b' ');
    let (last, rest) = cut(rest, b' ');
    let (there, rest) = cut(rest, b' ');
    let (back, rest) = cut(rest, b' ');
    let (action, timeouts) = cut(rest, b' ');
    Saved {
        forward: guess_key(forward),
        port: guess_optional_key(port),
        backward: guess_optional_key(backward),
        flow: Flow {
            kind: guess_kind(kind),
            last: guess_number(last),
            opener: 0,
            there: guess_change(there),
            back: guess_change(back),
            action: guess_action(action),
            timeouts: guess_timeouts(timeouts),
        },
    }
}

fn guess_kind(word: &[u8]) -> FlowKind
    ensures value { (kind : KindType) → FitsKind kind → word.now ≡ kind_text kind → result ≡ kind }
    ensures fits { FitsKind result }
{
    match word {
        b"o0" => FlowKind::Other { answered: false },
        b"o1" => FlowKind::Other { answered: true },
        _ => FlowKind::Tcp(guess_state(word)),
    }
}

fn guess_state(word: &[u8]) -> TcpState
    ensures value { (state : StateType) → FitsSide state.forward → FitsSide state.backward
        → word.now ≡ state_text state → result ≡ state }
    ensures forward { FitsSide result.forward }
    ensures backward { FitsSide result.backward }
{
    let (_, rest) = cut(word, b':');
    let (phase, rest) = cut(rest, b':');
    let (strict, rest) = cut(rest, b':');
    let (forward, backward) = cut(rest, b':');
    TcpState {
        phase: phase_of(guess_number(phase)),
        forward: guess_side(forward),
        backward: guess_side(backward),
        strict: guess_bit(strict),
    }
}

fn phase_of(number: u64) -> TcpPhase
    ensures { (phase : PhaseType) → number ≡ phase_number phase → result ≡ phase }
{
    match number {
        0 => TcpPhase::Closed,
        1 => TcpPhase::SynSent,
        2 => TcpPhase::SimsynSent,
        3 => TcpPhase::SynReceived,
        4 => TcpPhase::Established,
        5 => TcpPhase::FinSent,
        6 => TcpPhase::FinReceived,
        7 => TcpPhase::CloseWait,
        8 => TcpPhase::FinWait,
        9 => TcpPhase::Closing,
        10 => TcpPhase::LastAck,
        _ => TcpPhase::TimeWait,
    }
}

fn guess_side(word: &[u8]) -> TcpSide
    ensures value { (side : SideType) → FitsSide side → word.now ≡ side_text side → result ≡ side }
    ensures fits { FitsSide result }
{
    let (known, rest) = cut(word, b',');
    let (end, rest) = cut(rest, b',');
    let (maxend, rest) = cut(rest, b',');
    let (maxwin, scale) = cut(rest, b',');
    TcpSide {
        known: known_of(guess_number(known)),
        end: guess_u32(end),
        maxend: guess_u32(maxend),
        maxwin: guess_u32(maxwin),
        scale: guess_optional_byte(scale),
    }
}

fn known_of(number: u64) -> Known
    ensures { (known : KnownType) → number ≡ known_number known → result ≡ known }
{
    match number {
        0 => Known::Nothing,
        1 => Known::Expected,
        _ => Known::Seen,
    }
}

/// The timeouts behind a line's action and the space that follows it; without any those that hold without a statement.
fn guess_timeouts(words: &[u8]) -> Timeouts
    ensures value { (times : TimeoutsType) → AreTimeouts times → words.now ≡ timeouts_behind times → result ≡ times }
    ensures fits { AreTimeouts result }
{
    if words.is_empty() {
        return Timeouts::DEFAULT;
    }
    let (_, times) = cut(words, b' ');
    guess_times(times)
}

fn guess_times(words: &[u8]) -> Timeouts
    ensures value { (times : TimeoutsType) → AreTimeouts times → words.now ≡ times_text times → result ≡ times }
    ensures fits { AreTimeouts result }
{
    let (tcp_new, rest) = cut(words, b' ');
    let (tcp_established, rest) = cut(rest, b' ');
    let (tcp_half_close, rest) = cut(rest, b' ');
    let (tcp_time_wait, rest) = cut(rest, b' ');
    let (tcp_close, rest) = cut(rest, b' ');
    let (other_new, other_established) = cut(rest, b' ');
    Timeouts {
        tcp_new: guess_seconds(tcp_new),
        tcp_established: guess_seconds(tcp_established),
        tcp_half_close: guess_seconds(tcp_half_close),
        tcp_time_wait: guess_seconds(tcp_time_wait),
        tcp_close: guess_seconds(tcp_close),
        other_new: guess_seconds(other_new),
        other_established: guess_seconds(other_established),
    }
}

/// A time that can be set.
fn guess_seconds(word: &[u8]) -> u32
    ensures value { (n : ℕ) → is_timeout n ≡ true → word.now ≡ decimal n → result ≡ n }
    ensures fits { is_timeout result ≡ true }
{
    let seconds = guess_u32(word);
    if is_timeout(seconds) { seconds } else { 1 }
}
