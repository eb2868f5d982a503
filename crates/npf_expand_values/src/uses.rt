// The faults of values where they are used, and the values that a list gives there. A list where one value stands is one fault, whatever is
// in it.
ghost use Rattle.std.specs.Prelude.{◌≡◌, ◌≤◌, ◌++◌, IfOk, false, length, map};
ghost use Rattle.std.specs.List.{flat_map};
ghost use Rattle.std.specs.Option.{option_map};
ghost use Rattle.npf_faults.specs.First.{first_fault};
ghost use Rattle.npf_expand_values.specs.Atom.{kept_atom};
ghost use Rattle.npf_expand_values.specs.Host.{host_count, place_faults};
ghost use Rattle.npf_expand_values.specs.Kept.{IsDefBehind, def_binding, first_atom};
ghost use Rattle.npf_expand_values.specs.Protocol.{one_binding, one_protocol_faults, protocol_faults};
ghost use Rattle.npf_expand_values.specs.Scope.{env_of_scope, ifaces_of_scope, known_of_scope};
ghost use Rattle.npf_expand_values.specs.Summary.{counted};
ghost use Rattle.npf_expand_values.specs.Use.{atoms_of, element_count};
ghost use Rattle.npf_expand_values.specs.Variable.{binding_of, bound_faults, defined, definition_faults, each_value_faults, empty_list_at, empty_list_faults, is_list, listed_values, own_faults, single_value_faults, spliced, value_span};

use crate::atom::Atom;
use crate::role::Role;
use crate::scope::{Scope, one_span, undefined, value_span};
use crate::variable::Def;
use npf_faults::{ConfFault, Fault, earlier, fault_if};
use npf_syntax::{One, Value, Values};
use npf_types::{NoMemory, Span};
use std::alloc::Global;

impl<'a> Scope<'_, 'a, '_> {
    fn place_fault(&self, role: Role, value: &'a Value) -> Option<ConfFault>
        ensures { result ≡ first_fault (place_faults (ifaces_of_scope self.now) role (value_span value.now) (atoms_of (binding_of (ifaces_of_scope self.now) (env_of_scope self.now) value.now))) }
    {
        match self.value_binding(value) {
            Some(bound) => bound.summary.place_fault(role, value_span(value)),
            None => None,
        }
    }

    /// The first fault of a value that is used in this place, one or many.
    #[tactic(auto, using(crate::proofs::FaultLemmas::both_faults))]
    pub fn each_value_fault(&self, role: Role, value: &'a Value) -> Option<ConfFault>
        ensures { result ≡ first_fault (each_value_faults (ifaces_of_scope self.now) (env_of_scope self.now) role value.now) }
    {
        earlier(self.own_fault(value), self.place_fault(role, value))
    }

    /// The first fault of the values of a list that is used in this place.
    pub fn each_fault(&self, role: Role, values: &'a [Value]) -> Option<ConfFault>
        ensures { result ≡ first_fault (flat_map (each_value_faults (ifaces_of_scope self.now) (env_of_scope self.now) role) values.now) }
    {
        let mut first = None;
        for value in values {
            first = earlier(first, self.each_value_fault(role, value));
        }
        first
    }

    /// The first fault of values that are used in this place, an empty list among them.
    #[tactic(auto, using(crate::proofs::FaultLemmas::both_faults))]
    pub fn values_fault(&self, role: Role, values: &'a Values) -> Option<ConfFault>
        ensures { result ≡ first_fault (empty_list_faults values.now
            ++ flat_map (each_value_faults (ifaces_of_scope self.now) (env_of_scope self.now) role) (listed_values values.now)) }
    {
        earlier(
            empty_list_fault(values),
            self.each_fault(role, listed_values(values)),
        )
    }

    /// The first fault of a protocol that is used in a list.
    #[tactic(auto, using(crate::proofs::FaultLemmas::both_faults))]
    pub fn one_fault(&self, one: &'a One) -> Option<ConfFault>
        ensures { result ≡ first_fault (protocol_faults (env_of_scope self.now) one.now) }
    {
        match self.one_binding(one) {
            Some(bound) => bound.each_fault(Role::AsProtocol, one_span(one)),
            None => undefined(one_span(one)),
        }
    }

    /// The first fault of a protocol where one stands.
    pub fn single_one_fault(&self, one: &'a One) -> Option<ConfFault>
        ensures { result ≡ first_fault (one_protocol_faults (env_of_scope self.now) (Some one.now)) }
    {
        match self.one_binding(one) {
            Some(bound) => bound.single_fault(Role::AsProtocol, one_span(one)),
            None => undefined(one_span(one)),
        }
    }

    fn bound_fault(&self, role: Role, value: &'a Value) -> Option<ConfFault>
        ensures { result ≡ first_fault (bound_faults (ifaces_of_scope self.now) role value.now (binding_of (ifaces_of_scope self.now) (env_of_scope self.now) value.now)) }
    {
        match self.value_binding(value) {
            Some(bound) => bound.one_place_fault(role, value_span(value)),
            None => None,
        }
    }

    /// The first fault of a value where one value stands.
    #[tactic(auto, using(crate::proofs::FaultLemmas::both_faults))]
    pub fn single_value_fault(&self, role: Role, value: &'a Value) -> Option<ConfFault>
        ensures { result ≡ first_fault (single_value_faults (ifaces_of_scope self.now) (env_of_scope self.now) role value.now) }
    {
        earlier(self.own_fault(value), self.bound_fault(role, value))
    }

    fn own_fault_of_each(&self, values: &'a [Value]) -> Option<ConfFault>
        ensures { result ≡ first_fault (flat_map (own_faults (ifaces_of_scope self.now) (env_of_scope self.now)) values.now) }
    {
        let mut first = None;
        for value in values {
            first = earlier(first, self.own_fault(value));
        }
        first
    }

    /// The first fault for which a definition of these values is refused.
    #[tactic(auto, using(crate::proofs::FaultLemmas::both_faults))]
    pub fn definition_fault(&self, values: &'a Values) -> Option<ConfFault>
        ensures { result ≡ first_fault (definition_faults (ifaces_of_scope self.now) (env_of_scope self.now) values.now) }
    {
        earlier(
            empty_list_fault(values),
            self.own_fault_of_each(listed_values(values)),
        )
    }

    /// The definition of these values, of which none are left where it is refused.
    pub fn definition(
        &self,
        alloc: Global,
        values: &'a Values,
        fault: &Option<ConfFault>,
    ) -> Result<Def<'a>, NoMemory>
        requires { fault.now ≡ first_fault (definition_faults (ifaces_of_scope self.now) (env_of_scope self.now) values.now) }
        ensures behind { IfOk result (λ def. IsDefBehind (ifaces_of_scope self.now) (known_of_scope self.now) def) }
        ensures binding { IfOk result (λ def. def_binding (known_of_scope self.now) def
            ≡ defined (ifaces_of_scope self.now) (env_of_scope self.now) values.now) }
    {
        let many = self.is_list(values);
        if fault.is_some() {
            return Ok(Def::refused(many));
        }
        let values = self.splice(alloc, listed_values(values))?;
        Def::of(alloc, many, values)
    }

    fn is_list(&self, values: &'a Values) -> bool
        ensures value { result ≡ is_list (ifaces_of_scope self.now) (env_of_scope self.now) values.now }
        ensures alone { result ≡ false → length (spliced (ifaces_of_scope self.now) (env_of_scope self.now) (listed_values values.now)) ≤ 1 }
    {
        match values {
            Values::List { .. } => true,
            Values::One { value, .. } => match self.value_binding(value) {
                Some(bound) => bound.many,
                None => false,
            },
        }
    }

    /// What the values of a list are.
    pub fn atoms(&self, alloc: Global, values: &'a [Value]) -> Result<Vec<Atom<'a>>, NoMemory>
        ensures { IfOk result (λ atoms. map kept_atom atoms.items ≡ spliced (ifaces_of_scope self.now) (env_of_scope self.now) values.now) }
    {
        let all = self.splice(alloc, values)?;
        self.variables.gather(alloc, all.parts.as_slice())
    }

    /// What the protocols of a list are.
    pub fn atoms_of_ones(&self, alloc: Global, ones: &'a [One]) -> Result<Vec<Atom<'a>>, NoMemory>
        ensures { IfOk result (λ atoms. map kept_atom atoms.items ≡ flat_map (λ one. atoms_of (one_binding (env_of_scope self.now) one)) ones.now) }
    {
        let all = self.splice_ones(alloc, ones)?;
        self.variables.gather(alloc, all.parts.as_slice())
    }

    /// How many elements a list of addresses has.
    pub fn count_hosts(&self, alloc: Global, values: &'a [Value]) -> Result<usize, NoMemory>
        ensures { IfOk result (λ count. count ≡ counted (host_count (ifaces_of_scope self.now) (spliced (ifaces_of_scope self.now) (env_of_scope self.now) values.now))) }
    {
        Ok(self.splice(alloc, values)?.summary.hosts)
    }

    /// How many elements a list has, but of addresses.
    pub fn count(&self, alloc: Global, values: &'a [Value]) -> Result<usize, NoMemory>
        ensures { IfOk result (λ count. count ≡ counted (element_count (spliced (ifaces_of_scope self.now) (env_of_scope self.now) values.now))) }
    {
        Ok(self.splice(alloc, values)?.summary.count)
    }

    /// How many elements a list of protocols has.
    pub fn count_ones(&self, alloc: Global, ones: &'a [One]) -> Result<usize, NoMemory>
        ensures { IfOk result (λ count. count ≡ counted (element_count (flat_map (λ one. atoms_of (one_binding (env_of_scope self.now) one)) ones.now))) }
    {
        Ok(self.splice_ones(alloc, ones)?.summary.count)
    }

    /// The first of what a value is.
    pub fn first_of_value(&self, value: &'a Value) -> Option<Atom<'a>>
        ensures { option_map kept_atom result ≡ first_atom (atoms_of (binding_of (ifaces_of_scope self.now) (env_of_scope self.now) value.now)) }
    {
        match self.value_binding(value) {
            Some(bound) => bound.leader.first,
            None => None,
        }
    }

    /// The first of what a protocol is.
    pub fn first_of_one(&self, one: &'a One) -> Option<Atom<'a>>
        ensures { option_map kept_atom result ≡ first_atom (atoms_of (one_binding (env_of_scope self.now) one.now)) }
    {
        match self.one_binding(one) {
            Some(bound) => bound.leader.first,
            None => None,
        }
    }
}

/// The values, one or many.
pub fn listed_values(values: &Values) -> &[Value]
    ensures { result.now ≡ listed_values values.now }
{
    match values {
        Values::One { value, .. } => std::slice::from_ref(value),
        Values::List { list, .. } => list.values.as_slice(),
    }
}

fn empty_list_fault(values: &Values) -> Option<ConfFault>
    ensures { result ≡ first_fault (empty_list_faults values.now) }
{
    match values {
        Values::One { .. } => None,
        Values::List { list, .. } => empty_fault(list.values.as_slice(), list.span),
    }
}

/// The fault of a list without values; None of a list with some.
pub fn empty_fault(values: &[Value], span: Span) -> Option<ConfFault>
    ensures { result ≡ first_fault (empty_list_at span values.now) }
{
    fault_if(values.is_empty(), span, Fault::EmptyList)
}
