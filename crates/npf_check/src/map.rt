// What a map can be. Of an algorithm that isn't known no lengths are compared, since which ones it asks for isn't known either.
ghost use Rattle.std.specs.Prelude.{◌≡◌, ◌∷◌, ◌||◌, IfOk, OnOk, List};
ghost use Rattle.npf_syntax.specs.declared.stmt.Stmt.{Stmt as WrittenStmt};
ghost use Rattle.npf_faults.specs.First.{first_fault};
ghost use Rattle.npf_model.specs.Describes.{is_v6};
ghost use Rattle.npf_model.specs.MapOf.{comes_inside};
ghost use Rattle.npf_check.specs.Map.{asks_for_ports, bad_map, bad_map_faults, breaks_algo, breaks_arrow, first_bad, fits_npt66, has_ports, is_bad_map, is_one_address, is_one_port, of_one_family, of_one_length};
ghost use Rattle.npf_check.specs.Pair.{first_beside};
ghost use Rattle.npf_check.specs.Unbuilt.{is_built_kind};
ghost use Rattle.npf_check.specs.WrittenMap.{WrittenMap};

use crate::port::carries_ports;
use crate::unbuilt::is_built_kind;
use crate::written_map::TableVariables;
use npf_faults::{ConfFault, Fault, earlier, fault_if};
use npf_model::{Algo, Arrow, Map, Model};
use npf_syntax::{MapKind, Stmt, Tree};
use npf_types::{Addr, NoMemory, Prefix, Span};
use std::alloc::Global;

/// The first `BadMap`.
pub(crate) fn map_fault(
    alloc: Global,
    tree: &Tree,
    model: &Model,
) -> Result<Option<ConfFault>, NoMemory>
    ensures { IfOk result (λ first. first ≡ first_fault (bad_map_faults tree.now model.now)) }
{
    let mut so_far = MapsLeft {
        variables: TableVariables::new(alloc),
        rest: model.maps.as_slice(),
        first: None,
    };
    for stmt in tree.stmts.as_slice() {
        so_far.pass(stmt)?;
    }
    Ok(so_far.first)
}

// The maps of a model that are left behind some statements, with the variables and the first fault of those statements.
#[derive(Drop)]
struct MapsLeft<'a> {
    variables: TableVariables<'a>,
    rest: &'a [Map],
    first: Option<ConfFault>,
}

impl<'a> MapsLeft<'a> {
    fn pass(&mut self, stmt: &'a Stmt) -> Result<(), NoMemory>
        ensures { OnOk result ((stmts : List WrittenStmt) → first_bad self.old (stmt.now ∷ stmts) ≡ first_bad self.new stmts) }
    {
        match stmt {
            Stmt::Define { var, values, .. } => self.variables.define(var, values),
            Stmt::Map {
                kind,
                left,
                right,
                span,
                ..
            } => {
                let by_table = self
                    .variables
                    .has_table(&left.get().value, &right.get().value);
                self.pass_map(by_table, kind.get(), *span);
                Ok(())
            }
            _ => Ok(()),
        }
    }

    fn pass_map(&mut self, by_table: bool, kind: &MapKind, span: Span)
        ensures variables { self.new.variables ≡ self.old.variables }
        ensures first { (written : List WrittenMap) → let here : WrittenMap = record { span = span; kind = kind.now; by_table = by_table } in
            first_beside bad_map self.old.first (here ∷ written) self.old.rest.now ≡ first_beside bad_map self.new.first written self.new.rest.now }
    {
        if let Some((map, rest)) = self.rest.split_first() {
            let bad = is_refused(by_table, kind, map);
            self.first = earlier(self.first, fault_if(bad, span, Fault::BadMap));
            self.rest = rest;
        }
    }
}

fn is_refused(by_table: bool, kind: &MapKind, map: &Map) -> bool
    ensures { result ≡ (by_table || is_bad_map (is_built_kind kind.now) map.now) }
{
    by_table || is_bad(is_built_kind(kind), map)
}

// Whether a map without tables, whose algorithm is known or isn't, can't be.
fn is_bad(known: bool, map: &Map) -> bool
    ensures { result ≡ is_bad_map known map.now }
{
    !of_one_family(map) || breaks_algo(known, map) || breaks_arrow(map)
}

fn of_one_family(map: &Map) -> bool
    ensures { result ≡ of_one_family map.now }
{
    is_v6(map.inside.net) == is_v6(map.outside.net)
}

fn is_v6(net: Prefix) -> bool
    ensures { result ≡ is_v6 net.addr }
{
    match net.addr {
        Addr::V4(_) => false,
        Addr::V6(_) => true,
    }
}

fn of_one_length(map: &Map) -> bool
    ensures { result ≡ of_one_length map.now }
{
    map.inside.net.len == map.outside.net.len
}

fn breaks_algo(known: bool, map: &Map) -> bool
    ensures { result ≡ breaks_algo known map.now map.now.algo }
{
    match map.algo {
        Algo::Dynamic => {
            !is_one_address(map.outside.net)
                || (comes_inside(map.arrow) && !is_one_address(map.inside.net))
        }
        Algo::Netmap => has_ports(map) || (known && !of_one_length(map)),
        Algo::Npt66 => {
            let fits = fits_npt66(map.inside.net) && fits_npt66(map.outside.net);
            has_ports(map) || !of_one_length(map) || !fits
        }
    }
}

fn is_one_address(net: Prefix) -> bool
    ensures { result ≡ is_one_address net }
{
    net.len == net.addr.width()
}

fn comes_inside(arrow: Arrow) -> bool
    ensures { result ≡ comes_inside arrow }
{
    match arrow {
        Arrow::ToOutside => false,
        Arrow::ToInside | Arrow::Both => true,
    }
}

fn has_ports(map: &Map) -> bool
    ensures { result ≡ has_ports map.now }
{
    map.inside.ports.is_some() || map.outside.ports.is_some()
}

fn fits_npt66(net: Prefix) -> bool
    ensures { result ≡ fits_npt66 net }
{
    is_v6(net) && net.len <= 48
}

fn breaks_arrow(map: &Map) -> bool
    ensures { result ≡ breaks_arrow map.now map.now.arrow }
{
    match map.arrow {
        Arrow::ToOutside => map.inside.ports.is_some(),
        Arrow::ToInside => {
            let port_for_port = is_one_port(map.inside.ports) && is_one_port(map.outside.ports);
            has_ports(map) && !(port_for_port && asks_for_ports(map.proto))
        }
        Arrow::Both => has_ports(map),
    }
}

fn is_one_port(ports: Option<(u16, u16)>) -> bool
    ensures { result ≡ is_one_port ports }
{
    match ports {
        None => false,
        Some((first, last)) => first == last,
    }
}

fn asks_for_ports(proto: Option<u8>) -> bool
    ensures { result ≡ asks_for_ports proto }
{
    match proto {
        None => false,
        Some(proto) => carries_ports(proto),
    }
}
