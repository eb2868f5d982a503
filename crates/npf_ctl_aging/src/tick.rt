// The multiples of a period that packets follow.
ghost use Rattle.std.specs.Prelude.{◌≡◌, ◌≤◌, ◌<◌, length, slice_index_or, None};
ghost use Rattle.npf_ctl_aging.specs.Aging.{count_ticks, tick_behind, times_before};

use npf_traffic::Packet;

const NANOSECONDS_PER_SECOND: u64 = 1_000_000_000;

/// How many packets follow a multiple of so many seconds.
pub fn count_ticks(every: u32, packets: &[Packet<'_>]) -> u64
    requires { 0 < every }
    ensures value { result ≡ count_ticks every packets.now }
    ensures most { result ≤ length packets.now }
{
    let mut count = 0;
    let mut before = None;
    for packet in packets {
        if tick_behind(every, before, packet.time).is_some() {
            count += 1;
        }
        before = Some(packet.time);
    }
    count
}

/// The multiple that a packet of this time follows, where the one before it, if there is one, has that time.
pub(crate) fn tick_behind(every: u32, before: Option<u64>, time: u64) -> Option<u64>
    requires { 0 < every }
    ensures { result ≡ tick_behind every before time }
{
    let period = u64::from(every) * NANOSECONDS_PER_SECOND;
    match before {
        Some(before) if time / period <= before / period => None,
        _ => Some(time / period * period),
    }
}

/// The time of the packet in front of the one at this place.
pub(crate) fn time_before(packets: &[Packet<'_>], place: usize) -> Option<u64>
    requires { place ≤ length packets.now }
    ensures { result ≡ slice_index_or (times_before packets.now) place None }
{
    if place == 0 {
        return None;
    }
    Some(packets[place - 1].time)
}
