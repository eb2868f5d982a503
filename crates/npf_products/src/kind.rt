// The kinds of packets.
ghost use Rattle.std.specs.Prelude.{◌≡◌, ◌≢◌, Contains};
ghost use Rattle.std.specs.List.{AllPairs};
ghost use Rattle.npf_products.specs.declared.kind.PacketKind.{PacketKind};
ghost use Rattle.npf_products.specs.Kind.{has_flags, has_port_numbers, has_type, is_inet6_family, kind_protocol};

/// The version of IP.
#[derive(Clone, Copy, Debug, PartialEq, Eq)]
pub enum IpFamily {
    Inet4,
    Inet6,
}

/// What a packet carries, as far as it is looked into: ICMP is that of the packet's family.
#[derive(Clone, Copy, Debug, PartialEq, Eq)]
pub enum Carried {
    Tcp,
    Udp,
    Icmp,
    Other,
}

/// A kind of packets: those of a family that carry TCP, UDP, the family's ICMP, or something else. What a rule asks of a packet is a set of
/// numbers in each of six dimensions for each kind alone.
#[derive(Clone, Copy, Debug, PartialEq, Eq)]
pub struct PacketKind {
    pub family: IpFamily,
    pub carried: Carried,
}

/// Each kind once: of IPv4 TCP, UDP, ICMP and all else, and the same of IPv6.
pub fn kinds() -> [PacketKind; 8]
    ensures each { (kind : PacketKind) → Contains result kind }
    ensures once { AllPairs (λ one other. one ≢ other) result }
{
    [
        PacketKind {
            family: IpFamily::Inet4,
            carried: Carried::Tcp,
        },
        PacketKind {
            family: IpFamily::Inet4,
            carried: Carried::Udp,
        },
        PacketKind {
            family: IpFamily::Inet4,
            carried: Carried::Icmp,
        },
        PacketKind {
            family: IpFamily::Inet4,
            carried: Carried::Other,
        },
        PacketKind {
            family: IpFamily::Inet6,
            carried: Carried::Tcp,
        },
        PacketKind {
            family: IpFamily::Inet6,
            carried: Carried::Udp,
        },
        PacketKind {
            family: IpFamily::Inet6,
            carried: Carried::Icmp,
        },
        PacketKind {
            family: IpFamily::Inet6,
            carried: Carried::Other,
        },
    ]
}

impl PacketKind {
    /// Whether packets of the kind are of IPv6.
    pub(crate) fn is_inet6_family(self) -> bool
        ensures { result ≡ is_inet6_family self.family }
    {
        self.family == IpFamily::Inet6
    }

    /// Whether packets of the kind have ports.
    pub(crate) fn has_port_numbers(self) -> bool
        ensures { result ≡ has_port_numbers self.carried }
    {
        matches!(self.carried, Carried::Tcp | Carried::Udp)
    }

    /// Whether packets of the kind have control bits.
    pub(crate) fn has_flags(self) -> bool
        ensures { result ≡ has_flags self.carried }
    {
        matches!(self.carried, Carried::Tcp)
    }

    /// Whether packets of the kind have a type and a code.
    pub(crate) fn has_type(self) -> bool
        ensures { result ≡ has_type self.carried }
    {
        matches!(self.carried, Carried::Icmp)
    }

    /// The protocol of the packets of the kind; none where they have several (assigned Internet protocol numbers).
    pub(crate) fn protocol(self) -> Option<u8>
        ensures { result ≡ kind_protocol self.family self.carried }
    {
        match (self.carried, self.family) {
            (Carried::Tcp, _) => Some(6),
            (Carried::Udp, _) => Some(17),
            (Carried::Icmp, IpFamily::Inet4) => Some(1),
            (Carried::Icmp, IpFamily::Inet6) => Some(58),
            (Carried::Other, _) => None,
        }
    }
}
