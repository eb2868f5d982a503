// The ports of what a packet carries.
ghost use Rattle.std.specs.Prelude.{◌≡◌};
ghost use Rattle.npf_key.specs.Port.{echo_port, source_port, destination_port};

use npf_types::L4;

/// The port that a packet comes from, an echo's identifier, or 0.
pub fn source_port(l4: &L4) -> u16
    ensures { result ≡ source_port l4.now }
{
    match *l4 {
        L4::Tcp { sport, .. } | L4::Udp { sport, .. } => sport,
        L4::Icmp { echo, .. } | L4::Icmp6 { echo, .. } => echo_port(echo),
        L4::Other => 0,
    }
}

/// The port that a packet goes to, an echo's identifier, or 0.
pub fn destination_port(l4: &L4) -> u16
    ensures { result ≡ destination_port l4.now }
{
    match *l4 {
        L4::Tcp { dport, .. } | L4::Udp { dport, .. } => dport,
        L4::Icmp { echo, .. } | L4::Icmp6 { echo, .. } => echo_port(echo),
        L4::Other => 0,
    }
}

/// An echo's identifier, where the message is one, or 0.
fn echo_port(echo: Option<u16>) -> u16
    ensures { result ≡ echo_port echo }
{
    echo.unwrap_or(0)
}
