// What a rule asks of a packet, but for direction and interface.
ghost use Rattle.std.specs.Prelude.{◌≡◌, ◌<◌, ◌^◌, ◌==◌, ◌&&◌, ℕ, bit_and, IfOk, OnOk, map};
ghost use Rattle.std.specs.List.{list_any};
ghost use Rattle.npf_model.specs.Describes.{describes_packet, fits_flags, fits_icmp, fits_kept, fits_protocol, shows_flags};
ghost use Rattle.npf_products.specs.Adds.{AddsTest, lies_in};
ghost use Rattle.npf_products.specs.declared.kind.PacketKind.{PacketKind};
ghost use Rattle.npf_products.specs.Condition.{has_number};
ghost use Rattle.npf_products.specs.End.{own_tables};
ghost use Rattle.npf_products.specs.Kind.{has_flags};
ghost use Rattle.npf_products.specs.Rule.{keeps_passed, family_allows};

use crate::add::{add_number, add_ranges, add_test};
use crate::condition::{CONTROL, Condition, FIRST, SECOND};
use crate::ends::{WhichEnd, add_end};
use crate::kind::{IpFamily, PacketKind};
use crate::tables::TableSpan;
use npf_model::{Rule, StateOpt};
use npf_types::{Decision, NoMemory};
use std::alloc::Global;

/// Adds what the rule asks of a packet, but for direction and interface.
pub(crate) fn add_rule(
    alloc: Global,
    conditions: &mut Vec<Condition>,
    kind: PacketKind,
    rule: &Rule,
    tables: TableSpan,
) -> Result<(), NoMemory>
    ensures { OnOk result (AddsTest kind conditions.old.items conditions.new.items (λ all facts _ _. describes_packet rule.now (own_tables tables all) facts)) }
{
    add_test(alloc, conditions, allows(rule.v6, kind.family))?;
    add_protocols(alloc, conditions, kind, rule.protos.as_slice())?;
    add_flags(alloc, conditions, kind, rule)?;
    add_message(alloc, conditions, kind, rule.icmp)?;
    add_end(
        alloc,
        conditions,
        kind,
        WhichEnd::Source,
        &rule.from,
        tables,
    )?;
    add_end(
        alloc,
        conditions,
        kind,
        WhichEnd::Destination,
        &rule.to,
        tables,
    )?;
    Ok(())
}

/// Whether the family is the one that is asked for, IPv6 where that is true, if one is.
fn allows(v6: Option<bool>, family: IpFamily) -> bool
    ensures { result ≡ family_allows v6 family }
{
    match v6 {
        None => true,
        Some(v6) => v6 == (family == IpFamily::Inet6),
    }
}

fn add_protocols(
    alloc: Global,
    conditions: &mut Vec<Condition>,
    kind: PacketKind,
    protos: &[u8],
) -> Result<(), NoMemory>
    ensures { OnOk result (AddsTest kind conditions.old.items conditions.new.items (λ _ facts _ _. fits_protocol protos.now facts.proto)) }
{
    if protos.is_empty() {
        return Ok(());
    }
    match kind.protocol() {
        Some(protocol) => add_test(alloc, conditions, lists_protocol(protos, protocol)),
        None => add_listed(alloc, conditions, protos),
    }
}

/// Adds that the protocol of what isn't looked into is one of the list.
fn add_listed(alloc: Global, conditions: &mut Vec<Condition>, protos: &[u8]) -> Result<(), NoMemory>
    ensures { OnOk result ((kind : PacketKind) → AddsTest kind conditions.old.items conditions.new.items (lies_in 3 (map (λ n. (n, n)) protos.now))) }
{
    let numbers = single_numbers(alloc, protos)?;
    add_ranges(alloc, conditions, FIRST, numbers)?;
    Ok(())
}

/// Whether the list has the protocol of a kind.
fn lists_protocol(protos: &[u8], protocol: u8) -> bool
    ensures { result ≡ list_any (λ listed. listed == protocol) protos.now }
{
    protos.iter().any(|listed| *listed == protocol)
}

/// Ranges of one number each.
pub(crate) fn single_numbers(alloc: Global, numbers: &[u8]) -> Result<Vec<(u128, u128)>, NoMemory>
    ensures { IfOk result (λ ranges. ranges.items ≡ map (λ n. (n, n)) numbers.now) }
{
    let mut ranges = Vec::with_capacity(alloc, numbers.len())?;
    for number in numbers {
        ranges.push((u128::from(*number), u128::from(*number)))?;
    }
    Ok(ranges)
}

/// Adds what the rule asks of the control bits of a segment. Flags that it names are those of no other packet; without them, `pass stateful`
/// asks a segment alone for S and none of A, R and F.
fn add_flags(
    alloc: Global,
    conditions: &mut Vec<Condition>,
    kind: PacketKind,
    rule: &Rule,
) -> Result<(), NoMemory>
    ensures { OnOk result (AddsTest kind conditions.old.items conditions.new.items
        (λ _ facts _ _. fits_flags rule.now.flags rule.now.decision rule.now.state facts.l4)) }
{
    match rule.flags {
        Some((wanted, mask)) => add_control(alloc, conditions, kind, wanted, mask),
        None => add_opening(alloc, conditions, kind, rule.decision, rule.state),
    }
}

/// Adds that the packet is a segment with these control bits, looked at through the mask.
fn add_control(
    alloc: Global,
    conditions: &mut Vec<Condition>,
    kind: PacketKind,
    wanted: u8,
    mask: u8,
) -> Result<(), NoMemory>
    ensures { OnOk result (AddsTest kind conditions.old.items conditions.new.items (λ _ facts _ _. shows_flags facts.l4 wanted mask)) }
{
    add_test(alloc, conditions, kind.has_flags())?;
    add_ranges(
        alloc,
        conditions,
        CONTROL,
        control_bits(alloc, wanted, mask)?,
    )?;
    Ok(())
}

/// Adds that a segment opens a connection, where a rule without flags asks that.
fn add_opening(
    alloc: Global,
    conditions: &mut Vec<Condition>,
    kind: PacketKind,
    decision: Decision,
    state: StateOpt,
) -> Result<(), NoMemory>
    ensures { OnOk result (AddsTest kind conditions.old.items conditions.new.items (λ _ facts _ _. fits_kept decision state facts.l4)) }
{
    let asked = keeps_passed(decision, state, kind);
    if asked {
        add_ranges(alloc, conditions, CONTROL, control_bits(alloc, 2, 23)?)?;
    }
    Ok(())
}

/// Whether a rule without flags asks packets of the kind to open a connection.
fn keeps_passed(decision: Decision, state: StateOpt, kind: PacketKind) -> bool
    ensures { result ≡ (keeps_passed decision state && has_flags kind.carried) }
{
    matches!(decision, Decision::Pass) && state != StateOpt::Not && kind.has_flags()
}

/// The control bits that are these, looked at through the mask.
fn control_bits(alloc: Global, wanted: u8, mask: u8) -> Result<Vec<(u128, u128)>, NoMemory>
    ensures { IfOk result (λ ranges. (flags : ℕ) → flags < 2 ^ 8 → has_number ranges.items flags ≡ (bit_and flags mask == wanted)) }
{
    let mut ranges = Vec::new(alloc);
    for flags in 0..256u16 {
        if flags & u16::from(mask) == u16::from(wanted) {
            ranges.push((u128::from(flags), u128::from(flags)))?;
        }
    }
    Ok(ranges)
}

/// Adds that the packet is a message of the type and the code that are asked for, if they are.
fn add_message(
    alloc: Global,
    conditions: &mut Vec<Condition>,
    kind: PacketKind,
    asked: Option<(u8, Option<u8>)>,
) -> Result<(), NoMemory>
    ensures { OnOk result (AddsTest kind conditions.old.items conditions.new.items (λ _ facts _ _. fits_icmp asked facts.l4)) }
{
    let Some((message, code)) = asked else {
        return Ok(());
    };
    add_test(alloc, conditions, kind.has_type())?;
    add_number(alloc, conditions, FIRST, message)?;
    match code {
        None => Ok(()),
        Some(code) => add_number(alloc, conditions, SECOND, code),
    }
}
