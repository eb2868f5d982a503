// The two ends between which a packet goes, and where a program finds them.
ghost use Rattle.std.specs.Prelude.{◌≡◌, ◌<◌, ◌≤◌, ◌^◌};
ghost use Rattle.npf_bpfgen.specs.Endpoint as endpoint;

/// The packet's source, or its destination.
#[derive(Clone, Copy, Debug, PartialEq, Eq)]
pub enum Endpoint {
    Source,
    Destination,
}

impl Endpoint {
    /// The offset of the address in a header of IPv4 (RFC 791 section 3.1).
    pub fn ipv4_place(self) -> u32
        ensures { result ≡ endpoint.ipv4_place self }
    {
        match self {
            Endpoint::Source => 12,
            Endpoint::Destination => 16,
        }
    }

    /// The offset of the address in a header of IPv6 (RFC 8200 section 3).
    pub fn ipv6_place(self) -> u32
        ensures value { result ≡ endpoint.ipv6_place self }
        ensures bound { result ≤ 24 }
    {
        match self {
            Endpoint::Source => 8,
            Endpoint::Destination => 24,
        }
    }

    /// The offset of the port behind the beginning of layer 4.
    pub fn port_place(self) -> u32
        ensures { result ≡ endpoint.port_place self }
    {
        match self {
            Endpoint::Source => 0,
            Endpoint::Destination => 2,
        }
    }

    /// What the coprocessor is asked for: the table, and for the source the top bit.
    pub fn asked_table(self, table: u32) -> u32
        requires { table < 2 ^ 31 }
        ensures { result ≡ endpoint.asked_table self table }
    {
        match self {
            Endpoint::Source => table + 0x8000_0000,
            Endpoint::Destination => table,
        }
    }
}
