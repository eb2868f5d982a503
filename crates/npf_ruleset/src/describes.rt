// What a rule says of a packet, tested without a program: as a map's filter is.
ghost use Rattle.std.specs.Prelude.{◌≡◌, ◌==◌, Some, true};
ghost use Rattle.std.specs.List.{list_any};
ghost use Rattle.npf_model.specs.Describes.{describes_packet, destination_of, fits_addrs, fits_ends, fits_family, fits_flags, fits_icmp, fits_kept, fits_ports, fits_protocol, in_range, is_message, is_v6, item_has, opens_if_tcp, shows_flags, source_of};
ghost use Rattle.npf_model.specs.MapOf.{fits_side_port};
ghost use Rattle.npf_ruleset.specs.Tables.{entries};

use crate::tables::table_has;
use npf_model::{AddrItem, Ends, Rule, StateOpt, some_allow};
use npf_table::Table;
use npf_types::{Addr, Decision, Facts, L4, List};
use std::sync::Arc;

/// Whether the rule's packet part, which is all but direction and interface, describes the packet.
pub(crate) fn describes_packet(rule: &Rule, tables: &[Arc<Table>], facts: &Facts) -> bool
    ensures { result ≡ describes_packet rule.now (entries tables.now) facts.now }
{
    fits_family(rule.v6, facts.src)
        && fits_protocol(rule.protos.as_slice(), facts.proto)
        && fits_flags(rule.flags, rule.decision, rule.state, &facts.l4)
        && fits_icmp(rule.icmp, &facts.l4)
        && fits_ends(&rule.from, tables, facts.src, source_of(&facts.l4))
        && fits_ends(&rule.to, tables, facts.dst, destination_of(&facts.l4))
}

pub(crate) fn fits_family(v6: Option<bool>, addr: Addr) -> bool
    ensures { result ≡ fits_family v6 addr }
{
    match (v6, addr) {
        (None, _) => true,
        (Some(v6), Addr::V4(_)) => !v6,
        (Some(v6), Addr::V6(_)) => v6,
    }
}

pub(crate) fn fits_protocol(protos: &[u8], proto: u8) -> bool
    ensures { result ≡ fits_protocol protos.now proto }
{
    protos.is_empty() || lists_protocol(protos, proto)
}

fn lists_protocol(protos: &[u8], proto: u8) -> bool
    ensures { result ≡ list_any (λ listed. listed == proto) protos.now }
{
    protos.iter().any(|listed| *listed == proto)
}

pub(crate) fn fits_flags(
    flags: Option<(u8, u8)>,
    decision: Decision,
    state: StateOpt,
    l4: &L4,
) -> bool
    ensures { result ≡ fits_flags flags decision state l4.now }
{
    match flags {
        Some((wanted, mask)) => shows_flags(l4, wanted, mask),
        None => fits_kept(decision, state, l4),
    }
}

fn fits_kept(decision: Decision, state: StateOpt, l4: &L4) -> bool
    ensures { result ≡ fits_kept decision state l4.now }
{
    match (decision, state) {
        (Decision::Block(_), _) | (Decision::Pass, StateOpt::Not) => true,
        (Decision::Pass, StateOpt::OnInterface) | (Decision::Pass, StateOpt::Everywhere) => {
            opens_if_tcp(l4)
        }
    }
}

// S, of S, A, F and R.
fn opens_if_tcp(l4: &L4) -> bool
    ensures { result ≡ opens_if_tcp l4.now }
{
    match l4 {
        L4::Tcp { .. } => shows_flags(l4, 2, 23),
        _ => true,
    }
}

fn shows_flags(l4: &L4, wanted: u8, mask: u8) -> bool
    ensures { result ≡ shows_flags l4.now wanted mask }
{
    match l4 {
        L4::Tcp { seg, .. } => seg.flags & mask == wanted,
        _ => false,
    }
}

pub(crate) fn fits_icmp(asked: Option<(u8, Option<u8>)>, l4: &L4) -> bool
    ensures { result ≡ fits_icmp asked l4.now }
{
    match (asked, l4) {
        (None, _) => true,
        (Some((asked, number)), L4::Icmp { kind, code, .. }) => {
            is_message(asked, number, *kind, *code)
        }
        (Some((asked, number)), L4::Icmp6 { kind, code, .. }) => {
            is_message(asked, number, *kind, *code)
        }
        _ => false,
    }
}

fn is_message(asked: u8, number: Option<u8>, kind: u8, code: u8) -> bool
    ensures { result ≡ is_message asked number kind code }
{
    match number {
        None => asked == kind,
        Some(number) => asked == kind && number == code,
    }
}

fn fits_ends(ends: &Ends, tables: &[Arc<Table>], addr: Addr, port: Option<u16>) -> bool
    ensures { result ≡ fits_ends ends.now (entries tables.now) addr port }
{
    fits_addrs(ends, tables, addr) && fits_ports(&ends.ports, port)
}

pub(crate) fn fits_addrs(ends: &Ends, tables: &[Arc<Table>], addr: Addr) -> bool
    ensures { result ≡ fits_addrs ends.now.excluded ends.now.addrs (entries tables.now) addr }
{
    match &ends.addrs {
        None => true,
        Some(items) if ends.excluded => is_excluded(items.as_slice(), tables, addr),
        Some(items) => has_addr(items.as_slice(), tables, addr),
    }
}

// Whether the address is of a family that some item can have, and no item has it.
fn is_excluded(items: &[AddrItem], tables: &[Arc<Table>], addr: Addr) -> bool
    ensures { result ≡ fits_addrs true (Some items.now) (entries tables.now) addr }
{
    some_allow(items, is_v6(addr)) && !has_addr(items, tables, addr)
}

fn is_v6(addr: Addr) -> bool
    ensures { result ≡ is_v6 addr }
{
    matches!(addr, Addr::V6(_))
}

fn has_addr(items: &[AddrItem], tables: &[Arc<Table>], addr: Addr) -> bool
    ensures { result ≡ list_any (item_has (entries tables.now) addr) items.now }
{
    items.iter().any(|item| item_has(item, tables, addr))
}

fn item_has(item: &AddrItem, tables: &[Arc<Table>], addr: Addr) -> bool
    ensures { result ≡ item_has (entries tables.now) addr item.now }
{
    match item {
        AddrItem::Net(prefix) => prefix.has(addr),
        AddrItem::InTable(number) => table_has(tables, *number, addr),
    }
}

pub(crate) fn fits_ports(ports: &Option<List<(u16, u16)>>, port: Option<u16>) -> bool
    ensures { result ≡ fits_ports ports.now port }
{
    match (ports, port) {
        (None, _) => true,
        (Some(_), None) => false,
        (Some(ranges), Some(port)) => has_port(ranges.as_slice(), port),
    }
}

fn has_port(ranges: &[(u16, u16)], port: u16) -> bool
    ensures { result ≡ list_any (in_range port) ranges.now }
{
    ranges.iter().any(|range| in_range(port, *range))
}

fn in_range(port: u16, range: (u16, u16)) -> bool
    ensures { result ≡ in_range port range }
{
    range.0 <= port && port <= range.1
}

pub(crate) fn source_of(l4: &L4) -> Option<u16>
    ensures { result ≡ source_of l4.now }
{
    match l4 {
        L4::Tcp { sport, .. } | L4::Udp { sport, .. } => Some(*sport),
        _ => None,
    }
}

pub(crate) fn destination_of(l4: &L4) -> Option<u16>
    ensures { result ≡ destination_of l4.now }
{
    match l4 {
        L4::Tcp { dport, .. } | L4::Udp { dport, .. } => Some(*dport),
        _ => None,
    }
}

/// Whether the packet has ports and this one lies in the range; without a range any packet does.
pub(crate) fn fits_port(range: Option<(u16, u16)>, port: Option<u16>) -> bool
    ensures { result ≡ fits_side_port range port }
{
    match (range, port) {
        (None, _) => true,
        (Some(_), None) => false,
        (Some(range), Some(port)) => in_range(port, range),
    }
}
