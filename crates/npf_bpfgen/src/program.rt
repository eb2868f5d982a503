// A rule's program: the tests of its parts, one behind the other.
ghost use Rattle.std.specs.Prelude.{◌≡◌, ◌≤◌, ◌<◌, ◌+◌, ◌*◌, ◌↔◌, [], IfOk, IfErr, OnOk, length};
ghost use Rattle.std.specs.Result.{IsErrOf};
ghost use Rattle.npf_model.specs.Describes.{fits_addrs, fits_ends, fits_ports};
ghost use Rattle.npf_bpf.specs.Validity.{IsValid};
ghost use Rattle.npf_bpfgen.specs.Condition.{HasItemNumbers, HasTableNumbers};
ghost use Rattle.npf_bpfgen.specs.Endpoint.{address_of, port_of};
ghost use Rattle.npf_bpfgen.specs.Premise.{GuardsPacket};
ghost use Rattle.npf_bpfgen.specs.Program.{IsProgramOf, RefusesRule};
ghost use Rattle.npf_bpfgen.specs.Tail.{Extends, IsValidEnd};
ghost use Rattle.npf_bpfgen.specs.ProgramLength.{addrs_length, ends_length, ports_length, program_length};
ghost use Rattle.npf_bpfgen.specs.RuleWeight.{HasShortLists, weight_of};

use crate::addr::{put_addrs, put_excluded};
use crate::endpoint::Endpoint;
use crate::fault::GenFault;
use crate::flag::put_flags;
use crate::header::{put_family, put_protocols};
use crate::icmp::put_icmp;
use crate::port::put_ports;
use crate::rule_weight::weight;
use crate::tail::Tail;
use npf_bpf::Operation::{AskHeader, ReturnConstant};
use npf_bpf::{Program, validate};
use npf_model::{AddrItem, Ends, Rule};
use npf_types::limits::MAX_RULE_WEIGHT;
use npf_types::{List, NoMemory};
use std::alloc::Global;

/// Compiles a rule's packet part, which is all that it says but for direction and interface: the
/// program returns 2^32 - 1 on the packets that it describes, and 0 on all others. Each list of the
/// rule must have fewer than 2^56 elements, and each table's number must be below 2^31. Refused where
/// the rule's weight passes `MAX_RULE_WEIGHT`, or for want of memory.
pub fn compile(alloc: Global, rule: &Rule) -> Result<Program, GenFault>
    requires lists { HasShortLists rule.now }
    requires tables { HasTableNumbers rule.now }
    ensures value { IfOk result (IsProgramOf rule.now) }
    ensures valid { IfOk result IsValid }
    ensures count { IfOk result (λ program. length program ≡ program_length rule.now) }
    ensures size { IfOk result (λ program. length program ≤ weight_of rule.now) }
    ensures too_long { IsErrOf result (GenFault.TooLong (weight_of rule.now)) ↔ (MAX_RULE_WEIGHT < weight_of rule.now) }
    ensures refuses { IfErr result (RefusesRule rule.now) }
{
    let most = weight(rule);
    if most > MAX_RULE_WEIGHT as u64 {
        return Err(GenFault::TooLong(most));
    }
    let mut tail = Tail::with_capacity(alloc, most as usize)?;
    put_rule(&mut tail, rule)?;
    match validate(tail.into_code()) {
        Ok(program) => Ok(program),
        Err(_) => unreachable!(),
    }
}

fn put_rule(tail: &mut Tail, rule: &Rule) -> Result<(), NoMemory>
    requires empty { tail.old ≡ [] }
    requires tables { HasTableNumbers rule.now }
    requires room { program_length rule.now ≤ 4096 }
    ensures value { OnOk result (IsProgramOf rule.now tail.new) }
    ensures count { OnOk result (length tail.new ≡ program_length rule.now) }
    ensures valid { OnOk result (IsValidEnd tail.new) }
{
    tail.put(&[ReturnConstant(0xffff_ffff)])?;
    put_ends(tail, Endpoint::Destination, &rule.to)?;
    put_ends(tail, Endpoint::Source, &rule.from)?;
    put_icmp(tail, rule.icmp)?;
    put_flags(tail, rule.flags, rule.decision, rule.state)?;
    put_protocols(tail, rule.protos.as_slice())?;
    put_family(tail, rule.v6)?;
    tail.put(&[AskHeader])?;
    Ok(())
}

fn put_ends(tail: &mut Tail, endpoint: Endpoint, ends: &Ends) -> Result<(), NoMemory>
    requires tables { HasItemNumbers ends.now.addrs }
    requires room { length tail.old + ends_length ends.now ≤ 4096 }
    ensures front { OnOk result (Extends (ends_length ends.now) 1 tail.old tail.new) }
    ensures value { OnOk result (GuardsPacket (λ tables facts. fits_ends ends.now tables (address_of endpoint facts) (port_of endpoint facts.l4)) tail.old tail.new) }
{
    put_listed_ports(tail, endpoint, &ends.ports)?;
    put_listed_addrs(tail, endpoint, ends.excluded, &ends.addrs)?;
    Ok(())
}

fn put_listed_ports(
    tail: &mut Tail,
    endpoint: Endpoint,
    ports: &Option<List<(u16, u16)>>,
) -> Result<(), NoMemory>
    requires { length tail.old + ports_length ports.now ≤ 4096 }
    ensures front { OnOk result (Extends (ports_length ports.now) 1 tail.old tail.new) }
    ensures value { OnOk result (GuardsPacket (λ tables facts. fits_ports ports.now (port_of endpoint facts.l4)) tail.old tail.new) }
{
    match ports {
        Some(ranges) => put_ports(tail, endpoint, ranges.as_slice()),
        None => Ok(()),
    }
}

fn put_listed_addrs(
    tail: &mut Tail,
    endpoint: Endpoint,
    excluded: bool,
    addrs: &Option<List<AddrItem>>,
) -> Result<(), NoMemory>
    requires tables { HasItemNumbers addrs.now }
    requires room { length tail.old + addrs_length excluded addrs.now ≤ 4096 }
    ensures front { OnOk result (Extends (addrs_length excluded addrs.now) 1 tail.old tail.new) }
    ensures value { OnOk result (GuardsPacket (λ tables facts. fits_addrs excluded addrs.now tables (address_of endpoint facts)) tail.old tail.new) }
{
    match addrs {
        Some(items) if excluded => put_excluded(tail, endpoint, items.as_slice()),
        Some(items) => put_addrs(tail, endpoint, items.as_slice()),
        None => Ok(()),
    }
}
