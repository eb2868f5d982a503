// The facts of a packet once it is translated, and of its answers.
ghost use Rattle.std.specs.Prelude.{◌≡◌, Option};
ghost use Rattle.npf_key.specs.Translated.{shares_family, fitting, address_there, named_port, port_there, l4_there, facts_there, l4_about, about, echo_there};

use npf_types::{Addr, Change, End, Facts, L4};

/// The facts of the packet that `there` makes of this one.
pub fn facts_there(facts: &Facts, there: &Change) -> Facts
    ensures { result ≡ facts_there there.now facts.now }
{
    let src = fitting(facts.src, &there.src);
    let dst = fitting(facts.src, &there.dst);
    Facts {
        src: address_there(src, facts.src),
        dst: address_there(dst, facts.dst),
        l4: l4_there(named_port(&src), named_port(&dst), facts.l4),
        ..*facts
    }
}

/// The facts with source and destination changed about.
pub fn about(facts: &Facts) -> Facts
    ensures { result ≡ about facts.now }
{
    Facts {
        src: facts.dst,
        dst: facts.src,
        l4: l4_about(facts.l4),
        ..*facts
    }
}

/// The end that a change names for a packet of the family of `addr`: one of the other family names nothing.
pub fn fitting(addr: Addr, end: &Option<End>) -> Option<End>
    ensures { result ≡ fitting addr end.now }
{
    match *end {
        Some(end) if shares_family(end.addr, addr) => Some(end),
        _ => None,
    }
}

/// Whether both addresses are of IPv4 or both of IPv6.
pub fn shares_family(a: Addr, b: Addr) -> bool
    ensures { result ≡ shares_family a b }
{
    matches!(
        (a, b),
        (Addr::V4(_), Addr::V4(_)) | (Addr::V6(_), Addr::V6(_))
    )
}

fn address_there(end: Option<End>, addr: Addr) -> Addr
    ensures { result ≡ address_there end addr }
{
    match end {
        Some(end) => end.addr,
        None => addr,
    }
}

/// The port that a change names for an end, if it names the end and a port.
pub fn named_port(end: &Option<End>) -> Option<u16>
    ensures { result ≡ named_port end.now }
{
    match *end {
        Some(end) => end.port,
        None => None,
    }
}

fn port_there(named: Option<u16>, port: u16) -> u16
    ensures { result ≡ port_there named port }
{
    named.unwrap_or(port)
}

fn echo_there(s: Option<u16>, d: Option<u16>, echo: Option<u16>) -> Option<u16>
    ensures { result ≡ echo_there s d echo }
{
    match echo {
        Some(identifier) => Some(port_there(s, port_there(d, identifier))),
        None => None,
    }
}

/// What the packet carries with these ports written.
fn l4_there(s: Option<u16>, d: Option<u16>, l4: L4) -> L4
    ensures { result ≡ l4_there s d l4 }
{
    match l4 {
        L4::Tcp {
            sport,
            dport,
            seg,
            mss_at,
        } => L4::Tcp {
            sport: port_there(s, sport),
            dport: port_there(d, dport),
            seg,
            mss_at,
        },
        L4::Udp { sport, dport } => L4::Udp {
            sport: port_there(s, sport),
            dport: port_there(d, dport),
        },
        L4::Icmp { kind, code, echo } => L4::Icmp {
            kind,
            code,
            echo: echo_there(s, d, echo),
        },
        L4::Icmp6 { kind, code, echo } => L4::Icmp6 {
            kind,
            code,
            echo: echo_there(s, d, echo),
        },
        L4::Other => L4::Other,
    }
}

/// What the packet carries with its ports changed about.
fn l4_about(l4: L4) -> L4
    ensures { result ≡ l4_about l4 }
{
    match l4 {
        L4::Tcp { sport, dport, .. } | L4::Udp { sport, dport } => {
            l4_there(Some(dport), Some(sport), l4)
        }
        echo_or_other => echo_or_other,
    }
}
