// What isn't built of the language.
ghost use Rattle.std.specs.Prelude.{◌≡◌, ◌++◌, not};
ghost use Rattle.std.specs.List.{flat_map};
ghost use Rattle.npf_faults.specs.First.{fault_if, first_fault};
ghost use Rattle.npf_faults.specs.declared.fault.Fault.TheVariants.{Unbuilt};
ghost use Rattle.npf_check.specs.Unbuilt.{is_built_algo, is_built_kind, iface_place, layer_of, no_ports_of, unbuilt, unbuilt_at, unbuilt_call, unbuilt_faults, unbuilt_in_pass, unbuilt_in_rule, unbuilt_in_where, unbuilt_item, unbuilt_option};

use crate::parameter::{is_built_set, range_fault};
use npf_faults::{ConfFault, Fault, earlier, fault_if};
use npf_syntax::{
    Boxed, Call, Filter, GroupHead, IfaceTree, ItemTree, MapKind, Opt, RuleTree, Stmt, Tree, Where,
    Word,
};
use npf_types::Span;

/// The first `Unbuilt`.
#[tactic(auto, using(crate::proofs::FaultLemmas::joined))]
pub(crate) fn unbuilt_fault(tree: &Tree) -> Option<ConfFault>
    ensures { result ≡ first_fault (unbuilt_faults tree.now) }
{
    let stmts = tree.stmts.as_slice();
    earlier(unbuilt_in_stmts(stmts), range_fault(stmts))
}

fn unbuilt_in_stmts(stmts: &[Stmt]) -> Option<ConfFault>
    ensures { result ≡ first_fault (flat_map unbuilt stmts.now) }
{
    let mut first = None;
    for stmt in stmts {
        first = earlier(first, unbuilt_stmt(stmt));
    }
    first
}

#[tactic(auto, using(crate::proofs::FaultLemmas::joined))]
fn unbuilt_stmt(stmt: &Stmt) -> Option<ConfFault>
    ensures { result ≡ first_fault (unbuilt stmt.now) }
{
    match stmt {
        Stmt::Set { span, .. } => {
            let built = is_built_set(stmt);
            fault_if(!built, *span, Fault::Unbuilt)
        }
        Stmt::Alg { name, span } => {
            let built = name.text.as_slice() == "icmp".as_bytes();
            fault_if(!built, *span, Fault::Unbuilt)
        }
        Stmt::Map {
            kind,
            pass,
            span,
            ..
        } => {
            let in_kind = unbuilt_in_kind(kind.get(), *span);
            earlier(in_kind, unbuilt_in_pass(pass))
        }
        Stmt::MapRuleset { iface, .. } => fault_if(true, iface_place(iface.get()), Fault::Unbuilt),
        Stmt::Group { head, items, .. } => {
            earlier(
                unbuilt_at(layer_of(head)),
                unbuilt_in_items(items.as_slice()),
            )
        }
        Stmt::Procedure { calls, .. } => unbuilt_in_calls(calls.as_slice()),
        _ => None,
    }
}

#[tactic(auto, using(crate::proofs::FaultLemmas::joined))]
fn unbuilt_in_kind(kind: &MapKind, span: Span) -> Option<ConfFault>
    ensures { result ≡ first_fault (fault_if (not (is_built_kind kind.now)) span Unbuilt ++ unbuilt_at (no_ports_of kind.now)) }
{
    let built = is_built_kind(kind);
    earlier(
        fault_if(!built, span, Fault::Unbuilt),
        unbuilt_at(no_ports_of(kind)),
    )
}

fn no_ports_of(kind: &MapKind) -> Option<Span>
    ensures { result ≡ no_ports_of kind.now }
{
    match kind {
        MapKind::Dynamic { no_ports, .. } | MapKind::Static { no_ports, .. } => *no_ports,
    }
}

fn layer_of(head: &GroupHead) -> Option<Span>
    ensures { result ≡ layer_of head.now }
{
    match head {
        GroupHead::Named { layer, .. } | GroupHead::Default { layer, .. } => *layer,
    }
}

fn iface_place(iface: &IfaceTree) -> Span
    ensures { result ≡ iface_place iface.now }
{
    match iface {
        IfaceTree::Word { span, .. } | IfaceTree::Str { span, .. } | IfaceTree::Var { span, .. } =>
            { *span }
    }
}

fn unbuilt_in_items(items: &[ItemTree]) -> Option<ConfFault>
    ensures { result ≡ first_fault (flat_map unbuilt_item items.now) }
{
    let mut first = None;
    for item in items {
        first = earlier(first, unbuilt_item(item));
    }
    first
}

fn unbuilt_item(item: &ItemTree) -> Option<ConfFault>
    ensures { result ≡ first_fault (unbuilt_item item.now) }
{
    match item {
        ItemTree::Rule { rule, .. } => unbuilt_in_rule(rule),
        ItemTree::Ruleset { .. } => None,
    }
}

/// The first `Unbuilt` of a rule of the text, or of one that is added to a ruleset.
#[tactic(auto, using(crate::proofs::FaultLemmas::joined))]
pub(crate) fn unbuilt_in_rule(rule: &RuleTree) -> Option<ConfFault>
    ensures { result ≡ first_fault (unbuilt_in_rule rule.now) }
{
    earlier(unbuilt_in_where(&rule.filter.ends), unbuilt_at(rule.owner))
}

fn unbuilt_in_pass(pass: &Option<Boxed<Filter>>) -> Option<ConfFault>
    ensures { result ≡ first_fault (unbuilt_in_pass pass.now) }
{
    match pass {
        None => None,
        Some(filter) => unbuilt_in_where(&filter.get().ends),
    }
}

fn unbuilt_in_where(ends: &Where) -> Option<ConfFault>
    ensures { result ≡ first_fault (unbuilt_in_where ends.now) }
{
    match ends {
        Where::PcapFilter { span } => fault_if(true, *span, Fault::Unbuilt),
        _ => None,
    }
}

fn unbuilt_at(place: Option<Span>) -> Option<ConfFault>
    ensures { result ≡ first_fault (unbuilt_at place) }
{
    match place {
        None => None,
        Some(span) => fault_if(true, span, Fault::Unbuilt),
    }
}

fn unbuilt_in_calls(calls: &[Call]) -> Option<ConfFault>
    ensures { result ≡ first_fault (flat_map unbuilt_call calls.now) }
{
    let mut first = None;
    for call in calls {
        first = earlier(first, unbuilt_call(call));
    }
    first
}

fn unbuilt_call(call: &Call) -> Option<ConfFault>
    ensures { result ≡ first_fault (unbuilt_call call.now) }
{
    match call {
        Call::Log { .. } => None,
        Call::Normalize { options, .. } => unbuilt_in_options(options.as_slice()),
        Call::Route { span } => fault_if(true, *span, Fault::Unbuilt),
    }
}

fn unbuilt_in_options(options: &[Opt]) -> Option<ConfFault>
    ensures { result ≡ first_fault (flat_map unbuilt_option options.now) }
{
    let mut first = None;
    for option in options {
        first = earlier(first, unbuilt_option(option));
    }
    first
}

fn unbuilt_option(option: &Opt) -> Option<ConfFault>
    ensures { result ≡ first_fault (unbuilt_option option.now) }
{
    match option {
        Opt::RandomId { span } => fault_if(true, *span, Fault::Unbuilt),
        _ => None,
    }
}

/// Whether the kind's algorithm, if it names one, is built.
pub(crate) fn is_built_kind(kind: &MapKind) -> bool
    ensures { result ≡ is_built_kind kind.now }
{
    match kind {
        MapKind::Dynamic { algo, .. } => algo.is_none(),
        MapKind::Static { algo, .. } => is_built_algo(algo),
    }
}

fn is_built_algo(algo: &Option<Word>) -> bool
    ensures { result ≡ is_built_algo algo.now }
{
    match algo {
        None => true,
        Some(word) => {
            let text = word.text.as_slice();
            text == "netmap".as_bytes() || text == "npt66".as_bytes()
        }
    }
}
