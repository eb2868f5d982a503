// A connection's line, written behind what a buffer has.
ghost use Rattle.std.specs.Prelude.{◌≡◌, ◌++◌, ◌∷◌, [], OnOk, ℕ};
ghost use Rattle.std.specs.Fmt.{decimal};
ghost use Rattle.std.specs.Int.{w16, w32, w64};
ghost use Rattle.npf_types.specs.Name.{name_bytes};
ghost use Rattle.npf_saved.specs.Spelling.{action_text, addr_text, bit_text, change_text, conn_line, end_text, hex_text, if_line, key_text, kind_text, known_number, or_dash, phase_number, side_text, state_text, timeouts_text, times_text};

use crate::saved::Saved;
use itoa::Buffer;
use npf_flow::FlowKind;
use npf_tcp::{Known, TcpPhase, TcpSide, TcpState};
use npf_timeouts::Timeouts;
use npf_types::{Action, Addr, Change, End, Key, Name, NoMemory};

/// Appends the connection's line, without its line feed.
pub(crate) fn write_conn(into: &mut Vec<u8>, saved: &Saved) -> Result<(), NoMemory>
    ensures { OnOk result (into.new.items ≡ into.old.items ++ conn_line saved.now) }
{
    into.extend_from_slice(b"conn ")?;
    write_key(into, &saved.forward)?;
    into.push(b' ')?;
    write_optional_key(into, &saved.port)?;
    into.push(b' ')?;
    write_optional_key(into, &saved.backward)?;
    into.push(b' ')?;
    write_kind(into, &saved.flow.kind)?;
    into.push(b' ')?;
    write_number(into, saved.flow.last)?;
    into.push(b' ')?;
    write_change(into, &saved.flow.there)?;
    into.push(b' ')?;
    write_change(into, &saved.flow.back)?;
    into.push(b' ')?;
    write_action(into, &saved.flow.action)?;
    write_timeouts(into, &saved.flow.timeouts)?;
    Ok(())
}

/// Appends the interface's line, without its line feed.
pub(crate) fn write_if(into: &mut Vec<u8>, name: Name) -> Result<(), NoMemory>
    ensures { OnOk result (into.new.items ≡ into.old.items ++ if_line name) }
{
    into.extend_from_slice(b"if ")?;
    into.extend_from_slice(name.as_bytes())?;
    Ok(())
}

fn write_key(into: &mut Vec<u8>, key: &Key) -> Result<(), NoMemory>
    ensures { OnOk result (into.new.items ≡ into.old.items ++ key_text key.now) }
{
    write_word(into, key.0[0])?;
    into.push(b'.')?;
    write_word(into, key.0[1])?;
    into.push(b'.')?;
    write_word(into, key.0[2])?;
    into.push(b'.')?;
    write_word(into, key.0[3])?;
    into.push(b'.')?;
    write_word(into, key.0[4])?;
    Ok(())
}

fn write_optional_key(into: &mut Vec<u8>, key: &Option<Key>) -> Result<(), NoMemory>
    ensures { OnOk result (into.new.items ≡ into.old.items ++ or_dash key_text key.now) }
{
    match key {
        None => write_dash(into),
        Some(key) => write_key(into, key),
    }
}

fn write_kind(into: &mut Vec<u8>, kind: &FlowKind) -> Result<(), NoMemory>
    ensures { OnOk result (into.new.items ≡ into.old.items ++ kind_text kind.now) }
{
    match kind {
        FlowKind::Tcp(state) => write_state(into, state),
        FlowKind::Other { answered } => {
            into.push(b'o')?;
            write_bit(into, *answered)
        }
    }
}

fn write_state(into: &mut Vec<u8>, state: &TcpState) -> Result<(), NoMemory>
    ensures { OnOk result (into.new.items ≡ into.old.items ++ state_text state.now) }
{
    into.extend_from_slice(b"t:")?;
    write_number(into, phase_number(state.phase))?;
    into.push(b':')?;
    write_bit(into, state.strict)?;
    into.push(b':')?;
    write_side(into, &state.forward)?;
    into.push(b':')?;
    write_side(into, &state.backward)
}

fn phase_number(phase: TcpPhase) -> u64
    ensures { result ≡ phase_number phase }
{
    match phase {
        TcpPhase::Closed => 0,
        TcpPhase::SynSent => 1,
        TcpPhase::SimsynSent => 2,
        TcpPhase::SynReceived => 3,
        TcpPhase::Established => 4,
        TcpPhase::FinSent => 5,
        TcpPhase::FinReceived => 6,
        TcpPhase::CloseWait => 7,
        TcpPhase::FinWait => 8,
        TcpPhase::Closing => 9,
        TcpPhase::LastAck => 10,
        TcpPhase::TimeWait => 11,
    }
}

fn write_side(into: &mut Vec<u8>, side: &TcpSide) -> Result<(), NoMemory>
    ensures { OnOk result (into.new.items ≡ into.old.items ++ side_text side.now) }
{
    write_number(into, known_number(side.known))?;
    into.push(b',')?;
    write_number(into, u64::from(side.end))?;
    into.push(b',')?;
    write_number(into, u64::from(side.maxend))?;
    into.push(b',')?;
    write_number(into, u64::from(side.maxwin))?;
    into.push(b',')?;
    write_optional_byte(into, side.scale)?;
    Ok(())
}

fn known_number(known: Known) -> u64
    ensures { result ≡ known_number known }
{
    match known {
        Known::Nothing => 0,
        Known::Expected => 1,
        Known::Seen => 2,
    }
}

fn write_change(into: &mut Vec<u8>, change: &Change) -> Result<(), NoMemory>
    ensures { OnOk result (into.new.items ≡ into.old.items ++ change_text change.now) }
{
    write_optional_end(into, &change.src)?;
    into.push(b'/')?;
    write_optional_end(into, &change.dst)?;
    into.push(b'/')?;
    write_bit(into, change.neutral)
}

fn write_optional_end(into: &mut Vec<u8>, end: &Option<End>) -> Result<(), NoMemory>
    ensures { OnOk result (into.new.items ≡ into.old.items ++ or_dash end_text end.now) }
{
    match end {
        None => write_dash(into),
        Some(end) => write_end(into, end),
    }
}

fn write_end(into: &mut Vec<u8>, end: &End) -> Result<(), NoMemory>
    ensures { OnOk result (into.new.items ≡ into.old.items ++ end_text end.now) }
{
    write_addr(into, end.addr)?;
    into.push(b'+')?;
    write_optional_port(into, end.port)
}

fn write_addr(into: &mut Vec<u8>, addr: Addr) -> Result<(), NoMemory>
    ensures { OnOk result (into.new.items ≡ into.old.items ++ addr_text addr) }
{
    match addr {
        Addr::V4(address) => write_half_word(into, address),
        Addr::V6(address) => {
            write_word(into, (address >> 64) as u64)?;
            write_word(into, (address % (1 << 64)) as u64)
        }
    }
}

fn write_optional_port(into: &mut Vec<u8>, port: Option<u16>) -> Result<(), NoMemory>
    ensures { OnOk result (into.new.items ≡ into.old.items ++ or_dash (hex_text w16) port) }
{
    match port {
        None => write_dash(into),
        Some(port) => write_port(into, port),
    }
}

fn write_action(into: &mut Vec<u8>, action: &Action) -> Result<(), NoMemory>
    ensures { OnOk result (into.new.items ≡ into.old.items ++ action_text action.now) }
{
    write_optional_byte(into, action.min_ttl)?;
    into.push(b',')?;
    write_optional_size(into, action.max_mss)?;
    into.push(b',')?;
    write_bit(into, action.no_df)?;
    into.push(b',')?;
    write_optional_name(into, &action.log)
}

fn write_optional_byte(into: &mut Vec<u8>, number: Option<u8>) -> Result<(), NoMemory>
    ensures { OnOk result (into.new.items ≡ into.old.items ++ or_dash decimal number) }
{
    match number {
        None => write_dash(into),
        Some(number) => write_number(into, u64::from(number)),
    }
}

fn write_optional_size(into: &mut Vec<u8>, number: Option<u16>) -> Result<(), NoMemory>
    ensures { OnOk result (into.new.items ≡ into.old.items ++ or_dash decimal number) }
{
    match number {
        None => write_dash(into),
        Some(number) => write_number(into, u64::from(number)),
    }
}

fn write_optional_name(into: &mut Vec<u8>, name: &Option<Name>) -> Result<(), NoMemory>
    ensures { OnOk result (into.new.items ≡ into.old.items ++ or_dash name_bytes name.now) }
{
    match name {
        None => write_dash(into),
        Some(name) => {
            into.extend_from_slice(name.as_bytes())?;
            Ok(())
        }
    }
}

/// Nothing where each time is that which holds without a statement.
fn write_timeouts(into: &mut Vec<u8>, times: &Timeouts) -> Result<(), NoMemory>
    ensures { OnOk result (into.new.items ≡ into.old.items ++ timeouts_text times.now) }
{
    if times.are_default() {
        return Ok(());
    }
    into.extend_from_slice(b" timeouts ")?;
    write_times(into, times)
}

fn write_times(into: &mut Vec<u8>, times: &Timeouts) -> Result<(), NoMemory>
    ensures { OnOk result (into.new.items ≡ into.old.items ++ times_text times.now) }
{
    write_number(into, u64::from(times.tcp_new))?;
    into.push(b' ')?;
    write_number(into, u64::from(times.tcp_established))?;
    into.push(b' ')?;
    write_number(into, u64::from(times.tcp_half_close))?;
    into.push(b' ')?;
    write_number(into, u64::from(times.tcp_time_wait))?;
    into.push(b' ')?;
    write_number(into, u64::from(times.tcp_close))?;
    into.push(b' ')?;
    write_number(into, u64::from(times.other_new))?;
    into.push(b' ')?;
    write_number(into, u64::from(times.other_established))?;
    Ok(())
}

fn write_dash(into: &mut Vec<u8>) -> Result<(), NoMemory>
    ensures { OnOk result (into.new.items ≡ into.old.items ++ 45 ∷ []) }
{
    into.push(b'-')?;
    Ok(())
}

fn write_bit(into: &mut Vec<u8>, bit: bool) -> Result<(), NoMemory>
    ensures { OnOk result (into.new.items ≡ into.old.items ++ bit_text bit) }
{
    into.push(if bit { b'1' } else { b'0' })?;
    Ok(())
}

fn write_number(into: &mut Vec<u8>, number: u64) -> Result<(), NoMemory>
    ensures { OnOk result (into.new.items ≡ into.old.items ++ decimal number) }
{
    let mut digits = Buffer::new();
    into.extend_from_slice(digits.format(number).as_bytes())?;
    Ok(())
}

/// Sixteen hexadecimal digits.
fn write_word(into: &mut Vec<u8>, number: u64) -> Result<(), NoMemory>
    ensures { OnOk result (into.new.items ≡ into.old.items ++ hex_text w64 number) }
{
    let mut digits = [0u8; 16];
    let _ = hex::encode_to_slice(number.to_be_bytes(), &mut digits);
    into.extend_from_slice(&digits)?;
    Ok(())
}

/// Eight.
fn write_half_word(into: &mut Vec<u8>, number: u32) -> Result<(), NoMemory>
    ensures { OnOk result (into.new.items ≡ into.old.items ++ hex_text w32 number) }
{
    let mut digits = [0u8; 8];
    let _ = hex::encode_to_slice(number.to_be_bytes(), &mut digits);
    into.extend_from_slice(&digits)?;
    Ok(())
}

/// Four.
fn write_port(into: &mut Vec<u8>, number: u16) -> Result<(), NoMemory>
    ensures { OnOk result (into.new.items ≡ into.old.items ++ hex_text w16 number) }
{
    let mut digits = [0u8; 4];
    let _ = hex::encode_to_slice(number.to_be_bytes(), &mut digits);
    into.extend_from_slice(&digits)?;
    Ok(())
}
