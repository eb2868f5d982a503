// The options of TCP (RFC 9293 section 3.2, RFC 7323 section 2.2); specs/TcpOption.antt has their picture. That the number of a maximum
// segment size lies in its header is said by the payload, in front of which it stands, so nobody needs the data offset to write it.
ghost use Rattle.std.specs.Prelude.{◌≡◌, ◌+◌, ◌<◌, ◌≤◌, length, IfSome};
ghost use Rattle.npf_packet.specs.TcpOption.{HasOptions, option_end, option_len, mss_at, scale_at};

use npf_types::limits::MAX_PACKET_BYTES;

/// The kinds of options (assigned TCP option kind numbers), and the lengths of those that are read.
const END: u8 = 0;

const NO_OPERATION: u8 = 1;

const MAXIMUM_SEGMENT_SIZE: u8 = 2;

const MAXIMUM_SEGMENT_SIZE_LEN: usize = 4;

const WINDOW_SCALE: u8 = 3;

const WINDOW_SCALE_LEN: usize = 3;

/// A greater shift of the window counts as this one (RFC 7323 section 2.3).
const GREATEST_SCALE: u8 = 14;

/// What the options of a segment say: the shift of its window, and where the number of a maximum segment size is.
#[derive(Clone, Copy)]
pub(crate) struct Options {
    pub(crate) scale: Option<u8>,
    pub(crate) mss_at: Option<u32>,
}

/// What the options between these places say: of several of one kind the first counts.
pub(crate) fn options_between(bytes: &[u8], from: usize, to: usize) -> Options
    requires order { from ≤ to }
    requires whole { to ≤ length bytes.now }
    requires size { length bytes.now ≤ MAX_PACKET_BYTES }
    ensures { HasOptions bytes.now from to result }
{
    let mut scale = None;
    let mut mss = None;
    let mut at = from;
    'options: while let Some(end) = option_end(bytes, to, at) {
        scale = scale.or(scale_at(bytes, at, end));
        mss = mss.or(mss_at(bytes, at, end));
        at = end;
    }
    Options { scale, mss_at: mss }
}

/// Where the option ends that begins at `at`. None where no whole option does, which ends the reading.
fn option_end(bytes: &[u8], to: usize, at: usize) -> Option<usize>
    requires whole { to ≤ length bytes.now }
    requires size { length bytes.now ≤ MAX_PACKET_BYTES }
    ensures value { result ≡ option_end bytes.now to at }
    ensures len { IfSome result (λ end. end ≡ at + option_len bytes.now at) }
    ensures after { IfSome result (λ end. at < end) }
    ensures before { IfSome result (λ end. end ≤ to) }
{
    if at >= to || bytes[at] == END {
        return None;
    }
    if bytes[at] == NO_OPERATION {
        return Some(at + 1);
    }
    if at + 1 >= to {
        return None;
    }
    let len = bytes[at + 1] as usize;
    if len < 2 || to < at + len {
        return None;
    }
    Some(at + len)
}

/// The shift of the option between these places, where it is a window scale.
fn scale_at(bytes: &[u8], at: usize, end: usize) -> Option<u8>
    requires order { at < end }
    requires whole { end ≤ length bytes.now }
    requires len { end ≡ at + option_len bytes.now at }
    ensures { result ≡ scale_at bytes.now at }
{
    if bytes[at] == WINDOW_SCALE && end - at == WINDOW_SCALE_LEN {
        Some(bytes[at + 2].min(GREATEST_SCALE))
    } else {
        None
    }
}

/// Where the number is of the option between these places, where it is a maximum segment size.
fn mss_at(bytes: &[u8], at: usize, end: usize) -> Option<u32>
    requires order { at < end }
    requires whole { end ≤ length bytes.now }
    requires size { length bytes.now ≤ MAX_PACKET_BYTES }
    requires len { end ≡ at + option_len bytes.now at }
    ensures { result ≡ mss_at bytes.now at }
{
    if bytes[at] == MAXIMUM_SEGMENT_SIZE && end - at == MAXIMUM_SEGMENT_SIZE_LEN {
        Some((at + 2) as u32)
    } else {
        None
    }
}
