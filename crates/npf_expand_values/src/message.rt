// Types and codes of ICMP's messages where they are used. One value stands there; a list of several is one fault, whatever is in it.
ghost use Rattle.std.specs.Prelude.{◌≡◌, ◌++◌, List, Some};
ghost use Rattle.std.specs.List.{flat_map, list_any};
ghost use Rattle.npf_faults.specs.First.{fault_if, first_fault};
ghost use Rattle.npf_faults.specs.declared.fault.Fault.TheVariants.{Expected};
ghost use Rattle.npf_names.specs.Icmp.{names_in};
ghost use Rattle.npf_expand_values.specs.Atom.{Binding};
ghost use Rattle.npf_expand_values.specs.Kept.{IsBound, KnownNames};
ghost use Rattle.npf_expand_values.specs.Message.{first_name_faults, icmp_names, message_faults, message_number, message_use_faults};
ghost use Rattle.npf_expand_values.specs.Protocol.{one_binding};
ghost use Rattle.npf_expand_values.specs.Scope.{env_of_scope, ifaces_of_scope};
ghost use Rattle.npf_expand_values.specs.Summary.{summary_of};
ghost use Rattle.npf_expand_values.specs.Use.{atoms_of, is_unfit};
ghost use Rattle.npf_expand_values.specs.declared.role.Role.TheVariants.{AsProtocol};

use crate::role::Role;
use crate::scope::{Scope, one_span, undefined};
use crate::summary::Summary;
use crate::variable::Bound;
use npf_faults::{ConfFault, Fault, earlier, fault_if};
use npf_names::{IcmpNames, IcmpTable};
use npf_syntax::One;
use npf_types::Span;

impl Bound<'_> {
    fn name_fault(&self, table: IcmpTable) -> Option<ConfFault>
        ensures { (known : KnownNames) → (binding : Binding) → IsBound known self.now binding
            → result ≡ first_fault (first_name_faults (names_in table) binding.atoms) }
    {
        match self.leader.first {
            Some(atom) => atom.name_fault(table),
            None => None,
        }
    }

    #[tactic(auto, using(crate::proofs::FaultLemmas::both_faults))]
    fn single_message_fault(&self, table: IcmpTable, span: Span) -> Option<ConfFault>
        ensures { (known : KnownNames) → (binding : Binding) → IsBound known self.now binding
            → result ≡ first_fault (fault_if (list_any (is_unfit AsProtocol) binding.atoms) span Expected ++ first_name_faults (names_in table) binding.atoms) }
    {
        earlier(
            fault_if(self.summary.protocol.unfit, span, Fault::Expected),
            self.name_fault(table),
        )
    }

    fn message_fault(&self, table: IcmpTable, span: Span) -> Option<ConfFault>
        ensures { (known : KnownNames) → (binding : Binding) → IsBound known self.now binding
            → result ≡ first_fault (message_use_faults (names_in table) span (Some binding)) }
    {
        if self.many && self.is_several(Role::AsProtocol) {
            return fault_if(true, span, Fault::Expected);
        }
        self.single_message_fault(table, span)
    }
}

impl<'a> Scope<'_, 'a, '_> {
    /// The first fault of a type or code of this table.
    pub fn message_fault(&self, table: IcmpTable, one: &'a One) -> Option<ConfFault>
        ensures { result ≡ first_fault (message_faults (names_in table) (env_of_scope self.now) one.now) }
    {
        match self.one_binding(one) {
            Some(bound) => bound.message_fault(table, one_span(one)),
            None => undefined(one_span(one)),
        }
    }

    /// The number of a type or code of this table; None where it has none.
    pub fn message_number(&self, table: IcmpTable, one: &'a One) -> Option<u8>
        ensures { result ≡ message_number (names_in table) (env_of_scope self.now) one.now }
    {
        match self.first_of_one(one) {
            Some(atom) => atom.number_among(table),
            None => None,
        }
    }

    fn summary_of_one(&self, one: &'a One) -> Summary
        ensures { result ≡ summary_of (ifaces_of_scope self.now) (atoms_of (one_binding (env_of_scope self.now) one.now)) }
    {
        match self.one_binding(one) {
            Some(bound) => bound.summary,
            None => Summary::none(),
        }
    }

    /// Whose names the messages of these protocols have.
    pub fn icmp_names(&self, protocols: &'a [One]) -> IcmpNames
        ensures { result ≡ icmp_names (flat_map (λ one. atoms_of (one_binding (env_of_scope self.now) one)) protocols.now) }
    {
        let mut icmp = true;
        let mut icmp6 = true;
        for one in protocols {
            let summary = self.summary_of_one(one);
            icmp = icmp & summary.icmp;
            icmp6 = icmp6 & summary.icmp6;
        }
        if icmp {
            return IcmpNames::OfIcmp;
        }
        if icmp6 {
            return IcmpNames::OfIcmp6;
        }
        IcmpNames::OfNeither
    }
}
