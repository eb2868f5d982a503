// What each packet meets that a rule describes. It is tested before the binding, since few rules are bound to anything; what it asks of a
// packet is found once a walk, not once a rule.
ghost use Rattle.std.specs.Prelude.{◌≡◌};
ghost use Rattle.npf_ruleset.specs.Row.{IsEndRowOf, IsRowOf, destination_end, meets_row, source_end};

use crate::addr_hull::{AddrHull, addr_hull, hull_number, is_within};
use crate::describes::{destination_of, fits_family, fits_port, source_of};
use crate::packet::PacketView;
use crate::port_hull::port_hull;
use crate::protocol_set::ProtocolSet;
use npf_model::{Ends, Rule};
use npf_types::Facts;

/// The hulls of both ends, the protocols and the family.
#[derive(Clone, Copy, Drop)]
pub(crate) struct Row {
    from: EndRow,
    to: EndRow,
    protocols: ProtocolSet,
    v6: Option<bool>,
}

/// The hulls of the addresses and of the ports of one end. None means any.
#[derive(Clone, Copy, Drop)]
pub(crate) struct EndRow {
    addrs: Option<AddrHull>,
    ports: Option<(u16, u16)>,
}

/// What a row asks of one end of a packet: the number of its address, as hulls know it, and its port.
#[derive(Clone, Copy, Drop)]
pub(crate) struct PacketEnd {
    pub(crate) number: u64,
    pub(crate) port: Option<u16>,
}

impl PacketEnd {
    pub(crate) fn source(facts: &Facts) -> PacketEnd
        ensures { result ≡ source_end facts.now }
    {
        PacketEnd {
            number: hull_number(facts.src),
            port: source_of(&facts.l4),
        }
    }

    pub(crate) fn destination(facts: &Facts) -> PacketEnd
        ensures { result ≡ destination_end facts.now }
    {
        PacketEnd {
            number: hull_number(facts.dst),
            port: destination_of(&facts.l4),
        }
    }
}

impl Row {
    pub(crate) fn of(rule: &Rule) -> Row
        ensures { IsRowOf rule.now result }
    {
        Row {
            from: EndRow::of(&rule.from),
            to: EndRow::of(&rule.to),
            protocols: ProtocolSet::of(rule.protos.as_slice()),
            v6: rule.v6,
        }
    }

    /// Whether a packet meets the conditions. The addresses, which tell most rules apart, are tested first.
    pub(crate) fn admits(&self, packet: &PacketView<'_>) -> bool
        ensures { result ≡ meets_row self.now packet.now.facts.now }
    {
        is_within(self.from.addrs, packet.source.number)
            && is_within(self.to.addrs, packet.destination.number)
            && self.protocols.has(packet.facts.proto)
            && fits_port(self.from.ports, packet.source.port)
            && fits_port(self.to.ports, packet.destination.port)
            && fits_family(self.v6, packet.facts.src)
    }
}

impl EndRow {
    fn of(ends: &Ends) -> EndRow
        ensures { IsEndRowOf ends.now result }
    {
        EndRow {
            addrs: addr_hull(ends),
            ports: port_hull(&ends.ports),
        }
    }
}
