// What values are bound to where they stand, and the faults that they have there by themselves.
ghost use Rattle.std.specs.Prelude.{◌≡◌, IfOk, Some};
ghost use Rattle.std.specs.List.{flat_map};
ghost use Rattle.std.specs.Option.{option_map};
ghost use Rattle.npf_faults.specs.First.{first_fault};
ghost use Rattle.npf_expand_values.specs.Atom.{AddressesAtom, kept_atom};
ghost use Rattle.npf_expand_values.specs.Iface.{address_faults, addresses_of, function_faults, iface_binding, iface_faults, iface_name, iface_span, on_iface};
ghost use Rattle.npf_expand_values.specs.Kept.{AreSpliced, IsBoundWhere};
ghost use Rattle.npf_expand_values.specs.Protocol.{one_binding, one_span};
ghost use Rattle.npf_expand_values.specs.Scope.{all_known, env_of_scope, ifaces_of_scope, known_of_scope};
ghost use Rattle.npf_expand_values.specs.Use.{atoms_of};
ghost use Rattle.npf_expand_values.specs.Variable.{alone_binding, binding_of, length_of_block, number_atom, own_faults, spliced, value_span};

use crate::atom::Atom;
use crate::declarations::Declarations;
use crate::iface::Interfaces;
use crate::name::name_of;
use crate::role::Role;
use crate::variable::{Bound, Spliced, Variables};
use npf_faults::{ConfFault, Fault, earlier, fault_if};
use npf_model::OnIf;
use npf_syntax::{Function, IfaceTree, Number, One, Value};
use npf_types::{IfId, NoMemory, Span};
use std::alloc::Global;

/// What names are known where a statement stands.
#[derive(Clone, Copy)]
pub struct Scope<'s, 'a, 'i> {
    pub variables: &'s Variables<'a, 'i>,
    pub declarations: &'s Declarations<'a>,
}

impl<'a, 'i> Scope<'_, 'a, 'i> {
    /// The interfaces of the run.
    pub fn interfaces(&self) -> &'a Interfaces<'i>
        ensures { result.now.list.now ≡ ifaces_of_scope self.now }
    {
        self.variables.interfaces
    }

    fn alone(&self, atom: Atom<'a>) -> Bound<'a>
        ensures { IsBoundWhere (all_known self.now) (Some result) (alone_binding (kept_atom atom.entry)) }
    {
        Bound::alone(self.variables.interfaces, atom)
    }

    pub(crate) fn value_binding(&self, value: &'a Value) -> Option<Bound<'a>>
        ensures { IsBoundWhere (all_known self.now) result (binding_of (ifaces_of_scope self.now) (env_of_scope self.now) value.now) }
    {
        match value {
            Value::Var { var, .. } => self.variables.find(var.name.as_slice()),
            Value::Number { first, last, .. } => Some(self.alone(number_atom(first, last))),
            Value::Word { word, .. } => Some(self.alone(Atom::Word(word))),
            Value::Str { string, .. } => Some(self.alone(Atom::Str(string))),
            Value::Address { address, len, .. } => {
                Some(self.alone(Atom::Block(address.get().addr, length_of_block(len))))
            }
            Value::Table { name, .. } => Some(self.alone(Atom::Table(name))),
            Value::Function {
                function,
                iface,
                ..
            } => { Some(self.alone(self.addresses(*function, iface.get()))) }
        }
    }

    fn addresses(&self, function: Function, iface: &'a IfaceTree) -> Atom<'a>
        ensures { kept_atom result ≡ AddressesAtom (iface_name (env_of_scope self.now) iface.now)
            (addresses_of (ifaces_of_scope self.now) function (iface_name (env_of_scope self.now) iface.now)) }
    {
        match self.iface_name(iface) {
            Some(name) => {
                let addrs = self.variables.interfaces.addresses(function, name);
                Atom::Addresses(Some(name), addrs)
            }
            None => Atom::Addresses(None, &[]),
        }
    }

    pub(crate) fn one_binding(&self, one: &'a One) -> Option<Bound<'a>>
        ensures { IsBoundWhere (all_known self.now) result (one_binding (env_of_scope self.now) one.now) }
    {
        match one {
            One::Var { var, .. } => self.variables.find(var.name.as_slice()),
            One::Word { word, .. } => Some(self.alone(Atom::Word(word))),
            One::Number { number, .. } => Some(self.alone(Atom::Number(number.value))),
        }
    }

    pub(crate) fn iface_binding(&self, iface: &'a IfaceTree) -> Option<Bound<'a>>
        ensures { IsBoundWhere (all_known self.now) result (iface_binding (env_of_scope self.now) iface.now) }
    {
        match iface {
            IfaceTree::Var { var, .. } => self.variables.find(var.name.as_slice()),
            IfaceTree::Word { word, .. } => Some(self.alone(Atom::Word(word))),
            IfaceTree::Str { string, .. } => Some(self.alone(Atom::Str(string))),
        }
    }

    /// The name of the interface that stands there, where it is one.
    fn iface_name(&self, iface: &'a IfaceTree) -> Option<&'a [u8]>
        ensures { option_map (λ name. name.now) result ≡ iface_name (env_of_scope self.now) iface.now }
    {
        match self.iface_binding(iface) {
            Some(bound) => bound.name(),
            None => None,
        }
    }

    /// The first fault of an interface where it is named.
    pub fn iface_fault(&self, iface: &'a IfaceTree) -> Option<ConfFault>
        ensures { result ≡ first_fault (iface_faults (env_of_scope self.now) iface.now) }
    {
        match self.iface_binding(iface) {
            Some(bound) => bound.single_fault(Role::AsInterface, iface_span(iface)),
            None => undefined(iface_span(iface)),
        }
    }

    /// The interface as a model has it.
    pub fn on_iface(&self, iface: &'a IfaceTree) -> OnIf
        ensures { result ≡ on_iface (ifaces_of_scope self.now) (env_of_scope self.now) iface.now }
    {
        match self.iface_name(iface) {
            Some(text) => {
                let name = name_of(text);
                OnIf {
                    name,
                    id: self.variables.interfaces.number(&name),
                }
            }
            None => OnIf {
                name: name_of(&[]),
                id: IfId::UNKNOWN,
            },
        }
    }

    /// The first fault that a value has by itself, wherever it stands.
    pub(crate) fn own_fault(&self, value: &'a Value) -> Option<ConfFault>
        ensures { result ≡ first_fault (own_faults (ifaces_of_scope self.now) (env_of_scope self.now) value.now) }
    {
        match value {
            Value::Var { var, span } => match self.variables.find(var.name.as_slice()) {
                Some(_) => None,
                None => undefined(*span),
            },
            Value::Function {
                function,
                iface,
                span,
            } => self.function_fault(*function, iface.get(), *span),
            _ => None,
        }
    }

    #[tactic(auto, using(crate::proofs::FaultLemmas::both_faults))]
    fn function_fault(
        &self,
        function: Function,
        iface: &'a IfaceTree,
        span: Span,
    ) -> Option<ConfFault>
        ensures { result ≡ first_fault (function_faults (ifaces_of_scope self.now) (env_of_scope self.now) function iface.now span) }
    {
        earlier(
            self.iface_fault(iface),
            self.address_fault(function, iface, span),
        )
    }

    fn address_fault(
        &self,
        function: Function,
        iface: &'a IfaceTree,
        span: Span,
    ) -> Option<ConfFault>
        ensures { result ≡ first_fault (address_faults (ifaces_of_scope self.now) function (iface_name (env_of_scope self.now) iface.now) span) }
    {
        match self.iface_name(iface) {
            Some(name) => {
                let addrs = self.variables.interfaces.addresses(function, name);
                fault_if(addrs.is_empty(), span, Fault::UnknownInterface)
            }
            None => None,
        }
    }

    /// What values of a list are, one behind the other.
    pub(crate) fn splice(&self, alloc: Global, values: &'a [Value]) -> Result<Spliced<'a>, NoMemory>
        ensures { IfOk result (λ all. AreSpliced (ifaces_of_scope self.now) (known_of_scope self.now) all (spliced (ifaces_of_scope self.now) (env_of_scope self.now) values.now)) }
    {
        let mut all = Spliced::new(alloc, values.len())?;
        for value in values {
            all.add_where(self.value_binding(value))?;
        }
        Ok(all)
    }
}

impl<'a> Scope<'_, 'a, '_> {
    /// What protocols of a list are, one behind the other.
    pub(crate) fn splice_ones(
        &self,
        alloc: Global,
        ones: &'a [One],
    ) -> Result<Spliced<'a>, NoMemory>
        ensures { IfOk result (λ all. AreSpliced (ifaces_of_scope self.now) (known_of_scope self.now) all (flat_map (λ one. atoms_of (one_binding (env_of_scope self.now) one)) ones.now)) }
    {
        let mut all = Spliced::new(alloc, ones.len())?;
        for one in ones {
            all.add_where(self.one_binding(one))?;
        }
        Ok(all)
    }
}

/// The fault of a name that isn't defined before its use.
pub(crate) fn undefined(span: Span) -> Option<ConfFault>
    ensures { result ≡ Some (record { span = span; fault = Fault.UnknownVariable }) }
{
    Some(ConfFault {
        span,
        fault: Fault::UnknownVariable,
    })
}

pub(crate) fn iface_span(iface: &IfaceTree) -> Span
    ensures { result ≡ iface_span iface.now }
{
    match iface {
        IfaceTree::Word { span, .. } => *span,
        IfaceTree::Str { span, .. } => *span,
        IfaceTree::Var { span, .. } => *span,
    }
}

pub(crate) fn one_span(one: &One) -> Span
    ensures { result ≡ one_span one.now }
{
    match one {
        One::Word { span, .. } => *span,
        One::Number { span, .. } => *span,
        One::Var { span, .. } => *span,
    }
}

pub(crate) fn value_span(value: &Value) -> Span
    ensures { result ≡ value_span value.now }
{
    match value {
        Value::Number { span, .. } => *span,
        Value::Word { span, .. } => *span,
        Value::Str { span, .. } => *span,
        Value::Var { span, .. } => *span,
        Value::Address { span, .. } => *span,
        Value::Table { span, .. } => *span,
        Value::Function { span, .. } => *span,
    }
}

fn number_atom<'a>(first: &Number, last: &Option<Number>) -> Atom<'a>
    ensures { kept_atom result ≡ number_atom first.now.value last.now }
{
    match last {
        None => Atom::Number(first.value),
        Some(last) => Atom::Range(first.value, last.value),
    }
}

fn length_of_block(len: &Option<Number>) -> Option<u32>
    ensures { result ≡ length_of_block len.now }
{
    match len {
        None => None,
        Some(len) => Some(len.value),
    }
}
