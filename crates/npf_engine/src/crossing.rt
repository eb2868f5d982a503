// A packet of IP as it crosses an interface.
ghost use Rattle.std.specs.Prelude.{◌≡◌};
ghost use Rattle.npf_packet.specs.declared.decoded.Decoded.TheVariants.{Ip};
ghost use Rattle.npf_packet.specs.Decoder.{Decodes};
ghost use Rattle.npf_packet.specs.PacketField.{packet_bytes};
ghost use Rattle.npf_engine.specs.Arrival.{arg_of, tcp_segment};
ghost use Rattle.npf_engine.specs.Gateway.{peek_of};

use npf_flow::FlowArg;
use npf_packet::decoded_has_places;
use npf_types::{Dir, Facts, IfId, L4, Link, Segment};

/// A packet's number in the run, from 1, its time in nanoseconds, its record's link and bytes, what these say, and the interface
/// that it crosses, this way.
#[derive(Clone, Copy, Drop)]
pub(crate) struct Crossing<'a> {
    pub(crate) number: u64,
    pub(crate) time: u64,
    pub(crate) link: Link,
    pub(crate) ifid: IfId,
    pub(crate) dir: Dir,
    pub(crate) facts: &'a Facts,
    pub(crate) bytes: &'a [u8],
}

impl Crossing<'_> {
    /// The packet's own bytes: those of its record from the IP header to its end.
    pub(crate) fn packet(&self) -> &[u8]
        requires { Decodes self.now.link self.now.bytes.now (Ip self.now.facts.now) }
        ensures { result.now ≡ packet_bytes self.now.bytes.now self.now.facts.now }
    {
        decoded_has_places();
        &self.bytes[self.facts.ip_at as usize..self.facts.end as usize]
    }
}

/// What a packet brings to a step.
pub(crate) fn arg_of(time: u64, facts: &Facts) -> FlowArg
    ensures { result ≡ arg_of time facts.now }
{
    FlowArg {
        now: time,
        seg: tcp_segment(&facts.l4),
        peek: false,
    }
}

/// What an error brings to a step of the connection whose packet it quotes: it only peeks.
pub(crate) fn peek_of(time: u64, facts: &Facts) -> FlowArg
    ensures { result ≡ peek_of time facts.now }
{
    FlowArg {
        peek: true,
        ..arg_of(time, facts)
    }
}

fn tcp_segment(l4: &L4) -> Option<Segment>
    ensures { result ≡ tcp_segment l4.now }
{
    match *l4 {
        L4::Tcp { seg, .. } => Some(seg),
        L4::Udp { .. } | L4::Icmp { .. } | L4::Icmp6 { .. } | L4::Other => None,
    }
}
