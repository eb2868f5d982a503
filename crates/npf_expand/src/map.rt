// The maps of a configuration.
ghost use Rattle.std.specs.Prelude.{◌≡◌, ◌≤◌, IfOk};
ghost use Rattle.std.specs.Option.{option_map};
ghost use Rattle.npf_types.specs.declared.limits.TheConstants.{MAX_LIST_ELEMENTS};
ghost use Rattle.npf_faults.specs.First.{first_fault};
ghost use Rattle.npf_expand_values.specs.Atom.{kept_atom};
ghost use Rattle.npf_expand_values.specs.Variable.{binding_of};
ghost use Rattle.npf_expand_values.specs.Protocol.{one_protocol, one_protocol_faults};
ghost use Rattle.npf_expand_values.specs.Scope.{declared_of_scope, env_of_scope, ifaces_of_scope};
ghost use Rattle.npf_expand_values.specs.Summary.{counted};
ghost use Rattle.npf_expand_values.specs.Use.{atoms_of};
ghost use Rattle.npf_expand.specs.Elaborates.{filter_elements};
ghost use Rattle.npf_expand.specs.Map.{algo_named, algo_of, arrow_of_sign, every_v4, first_block, first_host, map_faults, map_filter_faults, map_of_tree, side_block, side_faults, side_of, side_port, side_port_faults};
ghost use Rattle.npf_expand.specs.Rule.{filter_rule};

use crate::filter::{filter_count, filter_fault, filter_rule};
use npf_expand_values::{Atom, Role, Scope, block_of};
use npf_faults::{ConfFault, earlier};
use npf_model::{Algo, Arrow, Map, Rule, Side as ModelSide};
use npf_syntax::{
    ArrowTree as Sign, Boxed, Filter, IfaceTree, MapKind, One, SideTree, Value, Word,
};
use npf_types::{Addr, NoMemory, Prefix};
use std::alloc::Global;

/// The parts of a map's line.
#[derive(Clone, Copy)]
pub(crate) struct MapLine<'a> {
    pub(crate) iface: &'a IfaceTree,
    pub(crate) kind: &'a MapKind,
    pub(crate) proto: &'a Option<Boxed<One>>,
    pub(crate) left: &'a SideTree,
    pub(crate) arrow: Sign,
    pub(crate) right: &'a SideTree,
    pub(crate) pass: &'a Option<Boxed<Filter>>,
}

/// The first fault of a map, but for the number of its filter's elements.
#[tactic(auto, using(npf_expand_values::proofs::FaultLemmas::both_faults))]
pub(crate) fn map_fault<'a>(scope: &Scope<'_, 'a, '_>, line: &MapLine<'a>) -> Option<ConfFault>
    ensures { result ≡ first_fault (map_faults (ifaces_of_scope scope.now) (env_of_scope scope.now)
        line.now.iface.now line.now.proto.now line.now.left.now line.now.right.now line.now.pass.now) }
{
    let named = earlier(
        scope.iface_fault(line.iface),
        one_protocol_fault(scope, line.proto),
    );
    let sides = earlier(
        earlier(named, side_fault(scope, line.left)),
        side_fault(scope, line.right),
    );
    earlier(sides, map_filter_fault(scope, line.pass))
}

/// The map as a model has it, where the elements of its filter keep the limit.
pub(crate) fn map_of<'a>(
    scope: &Scope<'_, 'a, '_>,
    alloc: Global,
    line: &MapLine<'a>,
) -> Result<Map, NoMemory>
    requires { filter_elements (ifaces_of_scope scope.now) (declared_of_scope scope.now) (env_of_scope scope.now) line.now.pass.now
        ≤ MAX_LIST_ELEMENTS }
    ensures { IfOk result (λ map. map ≡ map_of_tree (ifaces_of_scope scope.now) (env_of_scope scope.now) (declared_of_scope scope.now).tables
        line.now.iface.now line.now.kind.now line.now.proto.now line.now.left.now line.now.arrow line.now.right.now line.now.pass.now) }
{
    let filter = map_filter(scope, alloc, line.pass)?;
    Ok(Map {
        on: scope.on_iface(line.iface),
        algo: algo_of(line.kind),
        arrow: arrow_of(line.arrow),
        proto: one_protocol(scope, line.proto),
        inside: side_of(scope, line.left),
        outside: side_of(scope, line.right),
        filter,
    })
}

fn one_protocol_fault<'a>(
    scope: &Scope<'_, 'a, '_>,
    proto: &'a Option<Boxed<One>>,
) -> Option<ConfFault>
    ensures { result ≡ first_fault (one_protocol_faults (env_of_scope scope.now) proto.now) }
{
    match proto {
        Some(one) => scope.single_one_fault(one.get()),
        None => None,
    }
}

fn side_port_fault<'a>(scope: &Scope<'_, 'a, '_>, port: &'a Option<Value>) -> Option<ConfFault>
    ensures { result ≡ first_fault (side_port_faults (ifaces_of_scope scope.now) (env_of_scope scope.now) port.now) }
{
    match port {
        Some(value) => scope.single_value_fault(Role::AsPort, value),
        None => None,
    }
}

#[tactic(auto, using(npf_expand_values::proofs::FaultLemmas::both_faults))]
fn side_fault<'a>(scope: &Scope<'_, 'a, '_>, side: &'a SideTree) -> Option<ConfFault>
    ensures { result ≡ first_fault (side_faults (ifaces_of_scope scope.now) (env_of_scope scope.now) side.now) }
{
    earlier(
        scope.single_value_fault(Role::AsAddress, &side.value),
        side_port_fault(scope, &side.port),
    )
}

fn map_filter_fault<'a>(
    scope: &Scope<'_, 'a, '_>,
    pass: &'a Option<Boxed<Filter>>,
) -> Option<ConfFault>
    ensures { result ≡ first_fault (map_filter_faults (ifaces_of_scope scope.now) (env_of_scope scope.now) pass.now) }
{
    match pass {
        Some(filter) => filter_fault(scope, filter.get()),
        None => None,
    }
}

/// How many elements the lists of a map's filter have.
pub(crate) fn pass_count<'a>(
    scope: &Scope<'_, 'a, '_>,
    alloc: Global,
    pass: &'a Option<Boxed<Filter>>,
) -> Result<usize, NoMemory>
    ensures { IfOk result (λ count. count ≡ counted (filter_elements (ifaces_of_scope scope.now) (declared_of_scope scope.now) (env_of_scope scope.now) pass.now)) }
{
    match pass {
        Some(filter) => filter_count(scope, alloc, filter.get()),
        None => Ok(0),
    }
}

fn map_filter<'a>(
    scope: &Scope<'_, 'a, '_>,
    alloc: Global,
    pass: &'a Option<Boxed<Filter>>,
) -> Result<Option<Rule>, NoMemory>
    ensures { IfOk result (λ rule. rule ≡ option_map (filter_rule (ifaces_of_scope scope.now) (env_of_scope scope.now) (declared_of_scope scope.now).tables) pass.now) }
{
    match pass {
        Some(filter) => Ok(Some(filter_rule(scope, alloc, filter.get())?)),
        None => Ok(None),
    }
}

#[tactic(auto, using(crate::proofs::FirstAtom::first_protocol_is))]
fn one_protocol<'a>(scope: &Scope<'_, 'a, '_>, proto: &'a Option<Boxed<One>>) -> Option<u8>
    ensures { result ≡ one_protocol (env_of_scope scope.now) proto.now }
{
    let Some(one) = proto else {
        return None;
    };
    match scope.first_of_one(one.get()) {
        Some(atom) => atom.protocol(),
        None => None,
    }
}

#[tactic(auto, using(crate::proofs::FirstAtom::first_port_is))]
fn side_port<'a>(scope: &Scope<'_, 'a, '_>, port: &'a Option<Value>) -> Option<(u16, u16)>
    ensures { result ≡ side_port (ifaces_of_scope scope.now) (env_of_scope scope.now) port.now }
{
    let Some(value) = port else {
        return None;
    };
    match scope.first_of_value(value) {
        Some(atom) => atom.ports(),
        None => None,
    }
}

#[tactic(auto, using(crate::proofs::FirstAtom::first_block_is))]
fn side_net<'a>(scope: &Scope<'_, 'a, '_>, value: &'a Value) -> Prefix
    ensures { result ≡ first_block (ifaces_of_scope scope.now) (atoms_of (binding_of (ifaces_of_scope scope.now) (env_of_scope scope.now) value.now)) }
{
    match scope.first_of_value(value) {
        Some(atom) => side_block(scope, &atom),
        None => every_v4(),
    }
}

fn side_of<'a>(scope: &Scope<'_, 'a, '_>, side: &'a SideTree) -> ModelSide
    ensures { result ≡ side_of (ifaces_of_scope scope.now) (env_of_scope scope.now) side.now }
{
    ModelSide {
        net: side_net(scope, &side.value),
        ports: side_port(scope, &side.port),
    }
}

fn every_v4() -> Prefix
    ensures { result ≡ every_v4 }
{
    block_of(Addr::V4(0), Some(0))
}

// The block of a side; of the addresses of an interface or a function the first.
fn side_block<'a>(scope: &Scope<'_, 'a, '_>, atom: &Atom<'a>) -> Prefix
    ensures { result ≡ side_block (ifaces_of_scope scope.now) (kept_atom atom.now) }
{
    match atom {
        Atom::Block(addr, len) => block_of(*addr, *len),
        _ => first_host(scope.interfaces().hosts(atom)),
    }
}

fn first_host(addrs: &[Addr]) -> Prefix
    ensures { result ≡ first_host addrs.now }
{
    match addrs.first() {
        Some(addr) => block_of(*addr, None),
        None => every_v4(),
    }
}

pub(crate) fn algo_of(kind: &MapKind) -> Algo
    ensures { result ≡ algo_of kind.now }
{
    match kind {
        MapKind::Dynamic { .. } => Algo::Dynamic,
        MapKind::Static { algo, .. } => algo_named(algo),
    }
}

fn algo_named(word: &Option<Word>) -> Algo
    ensures { result ≡ algo_named word.now }
{
    match word {
        None => Algo::Netmap,
        Some(word) => {
            if word.text.as_slice() == "npt66".as_bytes() {
                Algo::Npt66
            } else {
                Algo::Netmap
            }
        }
    }
}

pub(crate) fn arrow_of(sign: Sign) -> Arrow
    ensures { result ≡ arrow_of_sign sign }
{
    match sign {
        Sign::Right { .. } => Arrow::ToOutside,
        Sign::Left { .. } => Arrow::ToInside,
        Sign::Both { .. } => Arrow::Both,
    }
}
