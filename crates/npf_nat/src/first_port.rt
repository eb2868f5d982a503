// Which ports are drawn from for a packet, and which is tried first.
ghost use Rattle.std.specs.Prelude.{◌≡◌, ◌≤◌};
ghost use Rattle.npf_nat.specs.Answer.{answer_change};
ghost use Rattle.npf_nat.specs.FirstPort.{source_number, drawn_for, drawn_range, first_candidate};
ghost use Rattle.npf_nat.specs.MapPlan.{drawn_change};

use crate::answer::answer_change;
use npf_model::Algo;
use npf_types::{Addr, Change, End, Facts, L4};

/// The change of a packet for which this port, or identifier of an echo, was drawn at this address,
/// and that of its answers.
pub fn drawn(facts: &Facts, addr: Addr, port: u16) -> (Change, Change)
    ensures there { result.0 ≡ drawn_change addr port }
    ensures back { result.1 ≡ answer_change facts.now (drawn_change addr port) }
{
    let there = Change {
        src: Some(End {
            addr,
            port: Some(port),
        }),
        dst: None,
        neutral: false,
    };
    (there, answer_change(facts, &there))
}

/// The port or identifier for which a map draws another: only a dynamic one does.
pub fn drawn_for(algo: Algo, l4: &L4) -> Option<u16>
    ensures { result ≡ drawn_for algo l4.now }
{
    match algo {
        Algo::Dynamic => source_number(l4),
        Algo::Netmap | Algo::Npt66 => None,
    }
}

fn source_number(l4: &L4) -> Option<u16>
    ensures { result ≡ source_number l4.now }
{
    match *l4 {
        L4::Tcp { sport, .. } | L4::Udp { sport, .. } => Some(sport),
        L4::Icmp { echo, .. } | L4::Icmp6 { echo, .. } => echo,
        L4::Other => None,
    }
}

/// The first and the last number to draw from: those of a map's outside, or `unsaid` where it has none.
pub fn drawn_range(ports: Option<(u16, u16)>, unsaid: (u16, u16)) -> (u16, u16)
    ensures { result ≡ drawn_range ports unsaid }
{
    ports.unwrap_or(unsaid)
}

/// The number that is tried first for a packet that has this one. Where the range is in order it is
/// one of them.
pub fn first_candidate(range: (u16, u16), number: u16) -> u16
    ensures value { result ≡ first_candidate range number }
    ensures low { range.0 ≤ result }
    ensures high { range.0 ≤ range.1 → result ≤ range.1 }
{
    let (min, max) = range;
    if min <= number && number <= max {
        return number;
    }
    let count = u32::from(max.saturating_sub(min)) + 1;
    min + (u32::from(number) % count) as u16
}
