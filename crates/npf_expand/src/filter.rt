// The filter of a rule or a map: its faults, how many elements its lists have, and the rule that it is.
ghost use Rattle.std.specs.Prelude.{◌≡◌, ◌+◌, ◌++◌, IfOk, Some, map};
ghost use Rattle.std.specs.List.{filter_map, flat_map, list_any};
ghost use Rattle.std.specs.Option.{option_map};
ghost use Rattle.npf_faults.specs.First.{first_fault};
ghost use Rattle.npf_expand_values.specs.Address.{address_items, addresses_count, addresses_faults, is_excluded, listed_addresses};
ghost use Rattle.npf_expand_values.specs.Atom.{kept_atom};
ghost use Rattle.npf_expand_values.specs.Port.{atom_ports, ports_count, ports_faults, ports_of};
ghost use Rattle.npf_expand_values.specs.Protocol.{one_binding, protocol_faults, protocol_of, protocols_faults, written_ones};
ghost use Rattle.npf_expand_values.specs.Scope.{declared_of_scope, env_of_scope, ifaces_of_scope};
ghost use Rattle.npf_expand_values.specs.Summary.{counted};
ghost use Rattle.npf_expand_values.specs.Use.{atoms_of};
ghost use Rattle.npf_expand.specs.Rule.{any_ends, destination_ends, detail_faults_beside, detail_of_part, ends_count, ends_faults, ends_of_written, filter_count, filter_faults, filter_rule, flags_of_detail, gives_atom, icmp_of_part, part_count, part_faults, part_protocols, source_ends};

use crate::message::{detail_fault, icmp_of};
use crate::rule::{flags_of, is_inet6};
use npf_expand_values::{
    Atom, Role, Scope, counted_both, empty_fault, items_of_each, listed_values,
};
use npf_faults::{ConfFault, earlier};
use npf_model::{AddrItem, Ends as ModelEnds, Rule, StateOpt};
use npf_syntax::{
    Addresses, Boxed, Detail, EndsTree, Filter, One, ProtoPart, Protocols, Value, Values, Where,
};
use npf_types::{Decision, List, NoMemory};
use std::alloc::{AllocError, Global};

fn ones_fault<'a>(scope: &Scope<'_, 'a, '_>, ones: &'a [One]) -> Option<ConfFault>
    ensures { result ≡ first_fault (flat_map (protocol_faults (env_of_scope scope.now)) ones.now) }
{
    let mut first = None;
    for one in ones {
        first = earlier(first, scope.one_fault(one));
    }
    first
}

fn written_part_fault<'a>(scope: &Scope<'_, 'a, '_>, part: &'a ProtoPart) -> Option<ConfFault>
    ensures { result ≡ first_fault (part_faults (ifaces_of_scope scope.now) (env_of_scope scope.now) (Some part.now)) }
{
    let protocols = written_ones(&part.protocols);
    match ones_fault(scope, protocols) {
        Some(fault) => Some(fault),
        None => fault_beside(scope, protocols, &part.detail),
    }
}

/// The first fault of a filter's detail. Names of messages are looked up beside a protocol alone: a variable whose definition
/// was refused gives none.
fn fault_beside<'a>(
    scope: &Scope<'_, 'a, '_>,
    protocols: &'a [One],
    detail: &'a Option<Detail>,
) -> Option<ConfFault>
    ensures { result ≡ first_fault (detail_faults_beside (env_of_scope scope.now) protocols.now detail.now) }
{
    if !gives_some(scope, protocols) {
        return None;
    }
    detail_fault(scope, scope.icmp_names(protocols), detail)
}

fn gives_some<'a>(scope: &Scope<'_, 'a, '_>, protocols: &'a [One]) -> bool
    ensures { result ≡ list_any (gives_atom (env_of_scope scope.now)) protocols.now }
{
    for one in protocols {
        if gives_atom(scope, one) {
            return true;
        }
    }
    false
}

fn gives_atom<'a>(scope: &Scope<'_, 'a, '_>, one: &'a One) -> bool
    ensures { result ≡ gives_atom (env_of_scope scope.now) one.now }
{
    scope.first_of_one(one).is_some()
}

fn part_fault<'a>(
    scope: &Scope<'_, 'a, '_>,
    part: &'a Option<Boxed<ProtoPart>>,
) -> Option<ConfFault>
    ensures { result ≡ first_fault (part_faults (ifaces_of_scope scope.now) (env_of_scope scope.now) part.now) }
{
    match part {
        Some(part) => written_part_fault(scope, part.get()),
        None => None,
    }
}

#[tactic(auto, using(npf_expand_values::proofs::FaultLemmas::both_faults))]
fn addresses_fault<'a>(scope: &Scope<'_, 'a, '_>, addresses: &'a Addresses) -> Option<ConfFault>
    ensures { result ≡ first_fault (addresses_faults (ifaces_of_scope scope.now) (env_of_scope scope.now) addresses.now) }
{
    match addresses {
        Addresses::Any { .. } => None,
        Addresses::Excluded { values, .. } => scope.values_fault(Role::AsAddress, values),
        Addresses::One { value, .. } => scope.each_value_fault(Role::AsAddress, value),
        Addresses::List { list, .. } => {
            let values = list.values.as_slice();
            earlier(
                empty_fault(values, list.span),
                scope.each_fault(Role::AsAddress, values),
            )
        }
    }
}

fn ports_fault<'a>(scope: &Scope<'_, 'a, '_>, ports: &'a Option<Values>) -> Option<ConfFault>
    ensures { result ≡ first_fault (ports_faults (ifaces_of_scope scope.now) (env_of_scope scope.now) ports.now) }
{
    match ports {
        Some(values) => scope.values_fault(Role::AsPort, values),
        None => None,
    }
}

#[tactic(auto, using(npf_expand_values::proofs::FaultLemmas::both_faults))]
fn ends_fault<'a>(scope: &Scope<'_, 'a, '_>, ends: Option<&'a EndsTree>) -> Option<ConfFault>
    ensures { result ≡ first_fault (ends_faults (ifaces_of_scope scope.now) (env_of_scope scope.now) (option_map (λ written. written.now) ends.entry)) }
{
    match ends {
        None => None,
        Some(
            EndsTree::Addresses {
                addresses,
                ports,
                ..
            },
        ) => earlier(addresses_fault(scope, addresses), ports_fault(scope, ports)),
        Some(EndsTree::Ports { ports, .. }) => scope.values_fault(Role::AsPort, ports),
    }
}

/// The first fault of a filter.
#[tactic(auto, using(npf_expand_values::proofs::FaultLemmas::both_faults))]
pub(crate) fn filter_fault<'a>(scope: &Scope<'_, 'a, '_>, filter: &'a Filter) -> Option<ConfFault>
    ensures { result ≡ first_fault (filter_faults (ifaces_of_scope scope.now) (env_of_scope scope.now) filter.now) }
{
    earlier(
        earlier(
            part_fault(scope, &filter.proto),
            ends_fault(scope, source_ends(&filter.ends)),
        ),
        ends_fault(scope, destination_ends(&filter.ends)),
    )
}

fn addresses_count<'a>(
    scope: &Scope<'_, 'a, '_>,
    alloc: Global,
    addresses: &'a Addresses,
) -> Result<usize, NoMemory>
    ensures { IfOk result (λ count. count ≡ counted (addresses_count (ifaces_of_scope scope.now) (env_of_scope scope.now) addresses.now)) }
{
    match listed_addresses(addresses) {
        Some(values) => scope.count_hosts(alloc, values),
        None => Ok(0),
    }
}

fn ports_count<'a>(
    scope: &Scope<'_, 'a, '_>,
    alloc: Global,
    ports: &'a Option<Values>,
) -> Result<usize, NoMemory>
    ensures { IfOk result (λ count. count ≡ counted (ports_count (ifaces_of_scope scope.now) (env_of_scope scope.now) ports.now)) }
{
    match ports {
        Some(values) => scope.count(alloc, listed_values(values)),
        None => Ok(0),
    }
}

fn part_count<'a>(
    scope: &Scope<'_, 'a, '_>,
    alloc: Global,
    part: &'a Option<Boxed<ProtoPart>>,
) -> Result<usize, NoMemory>
    ensures { IfOk result (λ count. count ≡ counted (part_count (ifaces_of_scope scope.now) (env_of_scope scope.now) part.now)) }
{
    match part {
        Some(part) => scope.count_ones(alloc, written_ones(&part.get().protocols)),
        None => Ok(0),
    }
}

#[tactic(auto, using(npf_expand_values::proofs::SummaryLemmas::counted_of_both))]
fn ends_count<'a>(
    scope: &Scope<'_, 'a, '_>,
    alloc: Global,
    ends: Option<&'a EndsTree>,
) -> Result<usize, NoMemory>
    ensures { IfOk result (λ count. count ≡ counted (ends_count (ifaces_of_scope scope.now) (env_of_scope scope.now) (option_map (λ written. written.now) ends.entry))) }
{
    match ends {
        None => Ok(0),
        Some(
            EndsTree::Addresses {
                addresses,
                ports,
                ..
            },
        ) => {
            let of_addresses = addresses_count(scope, alloc, addresses)?;
            let of_ports = ports_count(scope, alloc, ports)?;
            Ok(counted_both(of_addresses, of_ports))
        }
        Some(EndsTree::Ports { ports, .. }) => scope.count(alloc, listed_values(ports)),
    }
}

/// How many elements the lists of a filter have.
#[tactic(auto, using(npf_expand_values::proofs::SummaryLemmas::counted_of_both))]
pub(crate) fn filter_count<'a>(
    scope: &Scope<'_, 'a, '_>,
    alloc: Global,
    filter: &'a Filter,
) -> Result<usize, NoMemory>
    ensures { IfOk result (λ count. count ≡ counted (filter_count (ifaces_of_scope scope.now) (env_of_scope scope.now) filter.now)) }
{
    let of_part = part_count(scope, alloc, &filter.proto)?;
    let of_source = ends_count(scope, alloc, source_ends(&filter.ends))?;
    let of_destination = ends_count(scope, alloc, destination_ends(&filter.ends))?;
    Ok(counted_both(counted_both(of_part, of_source), of_destination))
}

fn address_items<'a>(
    scope: &Scope<'_, 'a, '_>,
    alloc: Global,
    addresses: &'a Addresses,
) -> Result<Option<List<AddrItem>>, NoMemory>
    ensures { IfOk result (λ items. items
        ≡ address_items (ifaces_of_scope scope.now) (env_of_scope scope.now) (declared_of_scope scope.now).tables addresses.now) }
{
    match listed_addresses(addresses) {
        Some(values) => {
            let atoms = scope.atoms(alloc, values)?;
            let items = items_of_each(
                alloc,
                scope.interfaces(),
                scope.declarations,
                atoms.as_slice(),
            )?;
            Ok(Some(List::of_vec(items)))
        }
        None => Ok(None),
    }
}

fn ports_of<'a>(
    scope: &Scope<'_, 'a, '_>,
    alloc: Global,
    ports: &'a Option<Values>,
) -> Result<Option<List<(u16, u16)>>, NoMemory>
    ensures { IfOk result (λ all. all ≡ ports_of (ifaces_of_scope scope.now) (env_of_scope scope.now) ports.now) }
{
    match ports {
        Some(ports) => Ok(Some(listed_ports(scope, alloc, ports)?)),
        None => Ok(None),
    }
}

fn listed_ports<'a>(
    scope: &Scope<'_, 'a, '_>,
    alloc: Global,
    ports: &'a Values,
) -> Result<List<(u16, u16)>, NoMemory>
    ensures { IfOk result (λ all. Some all ≡ ports_of (ifaces_of_scope scope.now) (env_of_scope scope.now) (Some ports.now)) }
{
    let atoms = scope.atoms(alloc, listed_values(ports))?;
    let all = ports_of_each(alloc, atoms.as_slice())?;
    Ok(List::of_vec(all))
}

fn protocols_of<'a>(
    scope: &Scope<'_, 'a, '_>,
    alloc: Global,
    part: &'a Option<Boxed<ProtoPart>>,
) -> Result<List<u8>, NoMemory>
    ensures { IfOk result (λ all. all ≡ part_protocols (ifaces_of_scope scope.now) (env_of_scope scope.now) part.now) }
{
    match part {
        Some(part) => listed_protocols(scope, alloc, written_ones(&part.get().protocols)),
        None => Ok(List::of_vec(Vec::new(alloc))),
    }
}

fn listed_protocols<'a>(
    scope: &Scope<'_, 'a, '_>,
    alloc: Global,
    ones: &'a [One],
) -> Result<List<u8>, NoMemory>
    ensures { IfOk result (λ all. all ≡ filter_map protocol_of (flat_map (λ one. atoms_of (one_binding (env_of_scope scope.now) one)) ones.now)) }
{
    let atoms = scope.atoms_of_ones(alloc, ones)?;
    let all = protocols_of_each(alloc, atoms.as_slice())?;
    Ok(List::of_vec(all))
}

fn ends_of<'a>(
    scope: &Scope<'_, 'a, '_>,
    alloc: Global,
    ends: Option<&'a EndsTree>,
) -> Result<ModelEnds, NoMemory>
    ensures { IfOk result (λ all. all ≡ ends_of_written (ifaces_of_scope scope.now) (env_of_scope scope.now) (declared_of_scope scope.now).tables (option_map (λ written. written.now) ends.entry)) }
{
    match ends {
        None => Ok(any_ends()),
        Some(
            EndsTree::Addresses {
                addresses,
                ports,
                ..
            },
        ) => Ok(ModelEnds {
            excluded: is_excluded(addresses),
            addrs: address_items(scope, alloc, addresses)?,
            ports: ports_of(scope, alloc, ports)?,
        }),
        Some(EndsTree::Ports { ports, .. }) => Ok(ModelEnds {
            excluded: false,
            addrs: None,
            ports: Some(listed_ports(scope, alloc, ports)?),
        }),
    }
}

/// The rule of a filter, which passes and is bound to nothing.
pub(crate) fn filter_rule<'a>(
    scope: &Scope<'_, 'a, '_>,
    alloc: Global,
    filter: &'a Filter,
) -> Result<Rule, NoMemory>
    ensures { IfOk result (λ rule. rule ≡ filter_rule (ifaces_of_scope scope.now) (env_of_scope scope.now) (declared_of_scope scope.now).tables filter.now) }
{
    let protos = protocols_of(scope, alloc, &filter.proto)?;
    let from = ends_of(scope, alloc, source_ends(&filter.ends))?;
    let to = ends_of(scope, alloc, destination_ends(&filter.ends))?;
    Ok(Rule {
        decision: Decision::Pass,
        state: StateOpt::Not,
        dir: None,
        last: false,
        on: None,
        v6: is_inet6(&filter.family),
        protos,
        flags: part_flags(&filter.proto),
        icmp: part_icmp(scope, &filter.proto),
        from,
        to,
        procedure: None,
    })
}

// What is written of the source, if anything is.
fn source_ends(ends: &Where) -> Option<&EndsTree>
    ensures { option_map (λ written. written.now) result ≡ source_ends ends.now }
{
    match ends {
        Where::From { from, .. } => Some(from.get()),
        _ => None,
    }
}

fn destination_ends(ends: &Where) -> Option<&EndsTree>
    ensures { option_map (λ written. written.now) result ≡ destination_ends ends.now }
{
    match ends {
        Where::All { .. } | Where::PcapFilter { .. } => None,
        Where::From { to, .. } => match to {
            Some(to) => Some(to.get()),
            None => None,
        },
        Where::To { to, .. } => Some(to.get()),
    }
}

fn any_ends() -> ModelEnds
    ensures { result ≡ any_ends }
{
    ModelEnds {
        excluded: false,
        addrs: None,
        ports: None,
    }
}

fn part_flags(part: &Option<Boxed<ProtoPart>>) -> Option<(u8, u8)>
    ensures { result ≡ flags_of_detail (detail_of_part part.now) }
{
    match part {
        Some(part) => flags_of(&part.get().detail),
        None => None,
    }
}

fn written_part_icmp<'a>(scope: &Scope<'_, 'a, '_>, part: &'a ProtoPart) -> Option<(u8, Option<u8>)>
    ensures { result ≡ icmp_of_part (env_of_scope scope.now) (Some part.now) }
{
    let names = scope.icmp_names(written_ones(&part.protocols));
    icmp_of(scope, names, &part.detail)
}

fn part_icmp<'a>(
    scope: &Scope<'_, 'a, '_>,
    part: &'a Option<Boxed<ProtoPart>>,
) -> Option<(u8, Option<u8>)>
    ensures { result ≡ icmp_of_part (env_of_scope scope.now) part.now }
{
    match part {
        Some(part) => written_part_icmp(scope, part.get()),
        None => None,
    }
}

fn is_excluded(addresses: &Addresses) -> bool
    ensures { result ≡ is_excluded addresses.now }
{
    matches!(addresses, Addresses::Excluded { .. })
}

fn listed_addresses(addresses: &Addresses) -> Option<&[Value]>
    ensures { option_map (λ values. values.now) result ≡ listed_addresses addresses.now }
{
    match addresses {
        Addresses::Any { .. } => None,
        Addresses::Excluded { values, .. } => Some(listed_values(values)),
        Addresses::One { value, .. } => Some(std::slice::from_ref(value)),
        Addresses::List { list, .. } => Some(list.values.as_slice()),
    }
}

fn written_ones(protocols: &Protocols) -> &[One]
    ensures { result.now ≡ written_ones protocols.now }
{
    match protocols {
        Protocols::One { one, .. } => std::slice::from_ref(one),
        Protocols::List { list, .. } => list.ones.as_slice(),
    }
}

fn ports_of_each(alloc: Global, atoms: &[Atom]) -> Result<Vec<(u16, u16)>, AllocError>
    ensures { IfOk result (λ all. all.items ≡ filter_map (λ atom. atom_ports (kept_atom atom)) atoms.now) }
{
    atoms.iter().filter_map(|atom| atom.ports()).collect(alloc)
}

fn protocols_of_each(alloc: Global, atoms: &[Atom]) -> Result<Vec<u8>, AllocError>
    ensures { IfOk result (λ all. all.items ≡ filter_map (λ atom. protocol_of (kept_atom atom)) atoms.now) }
{
    atoms
        .iter()
        .filter_map(|atom| atom.protocol())
        .collect(alloc)
}
