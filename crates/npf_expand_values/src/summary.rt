// What becomes of values in each place.
ghost use Rattle.std.specs.Prelude.{◌≡◌, ◌+◌, ◌∷◌, [], List, false};
ghost use Rattle.npf_faults.specs.First.{first_fault};
ghost use Rattle.npf_model.specs.declared.iface.Iface.{Iface};
ghost use Rattle.npf_expand_values.specs.Atom.{Atom as Plain, kept_atom};
ghost use Rattle.npf_expand_values.specs.Summary.{counted, fate_in, fate_of, joined_summary, joined_fate, summary_of};
ghost use Rattle.npf_expand_values.specs.Host.{missing_faults, place_faults};
ghost use Rattle.npf_expand_values.specs.Use.{use_faults};

use crate::atom::Atom;
use crate::iface::Interfaces;
use crate::role::Role;
use npf_faults::{ConfFault, Fault, earlier, fault_if};
use npf_types::Span;
use npf_types::limits::MAX_LIST_ELEMENTS;

/// Whether one of some values can't stand in a place, and the first fault of their words there.
#[derive(Clone, Copy)]
pub(crate) struct Fate {
    pub(crate) unfit: bool,
    pub(crate) word: Option<ConfFault>,
}

impl Fate {
    fn none() -> Fate
        ensures { result ≡ record { unfit = false; word = None } }
    {
        Fate {
            unfit: false,
            word: None,
        }
    }

    fn of(atom: &Atom, role: Role) -> Fate
        ensures { result ≡ fate_of role (kept_atom atom.now ∷ []) }
    {
        Fate {
            unfit: atom.is_unfit(role),
            word: atom.word_fault(role),
        }
    }

    fn join(self, other: Fate) -> Fate
        ensures { result ≡ joined_fate self other }
    {
        Fate {
            unfit: self.unfit || other.unfit,
            word: earlier(self.word, other.word),
        }
    }

    /// The first fault of the values where they are used at this place.
    fn fault(self, span: Span) -> Option<ConfFault>
        ensures { (role : Role) → (atoms : List Plain) → self ≡ fate_of role atoms
            → result ≡ first_fault (use_faults role span atoms) }
    {
        earlier(fault_if(self.unfit, span, Fault::Expected), self.word)
    }
}

/// What becomes of values in each place, and how many elements they are: at most one more than all lists may have.
#[derive(Clone, Copy)]
pub(crate) struct Summary {
    pub(crate) count: usize,
    /// As many as they are among addresses.
    pub(crate) hosts: usize,
    /// Whether one names an interface that has no address.
    pub(crate) missing: bool,
    pub(crate) port: Fate,
    pub(crate) address: Fate,
    pub(crate) protocol: Fate,
    pub(crate) interface: Fate,
    /// Whether each is the protocol of ICMP.
    pub(crate) icmp: bool,
    /// Whether each is that of ICMPv6.
    pub(crate) icmp6: bool,
}

/// A number of elements, where all that are more than a configuration may have are one.
pub(crate) fn counted(number: usize) -> usize
    ensures { result ≡ counted number }
{
    number.min(MAX_LIST_ELEMENTS + 1)
}

/// The number of elements of both.
pub fn counted_both(one: usize, other: usize) -> usize
    ensures { result ≡ counted (one + other) }
{
    counted(one.saturating_add(other))
}

impl Summary {
    /// That of no values.
    pub(crate) fn none() -> Summary
        ensures { result ≡ summary_of [] [] }
    {
        Summary {
            count: 0,
            hosts: 0,
            missing: false,
            port: Fate::none(),
            address: Fate::none(),
            protocol: Fate::none(),
            interface: Fate::none(),
            icmp: true,
            icmp6: true,
        }
    }

    pub(crate) fn of(interfaces: &Interfaces, atom: &Atom) -> Summary
        ensures { result ≡ summary_of interfaces.now.list.now (kept_atom atom.now ∷ []) }
    {
        Summary {
            count: counted(atom.count()),
            hosts: counted(interfaces.host_count(atom)),
            missing: interfaces.is_missing(atom),
            port: Fate::of(atom, Role::AsPort),
            address: Fate::of(atom, Role::AsAddress),
            protocol: Fate::of(atom, Role::AsProtocol),
            interface: Fate::of(atom, Role::AsInterface),
            icmp: atom.is_protocol(1),
            icmp6: atom.is_protocol(58),
        }
    }

    /// That of both, one behind the other.
    pub(crate) fn join(&self, other: &Summary) -> Summary
        ensures { result ≡ joined_summary self.now other.now }
    {
        Summary {
            count: counted_both(self.count, other.count),
            hosts: counted_both(self.hosts, other.hosts),
            missing: self.missing || other.missing,
            port: self.port.join(other.port),
            address: self.address.join(other.address),
            protocol: self.protocol.join(other.protocol),
            interface: self.interface.join(other.interface),
            icmp: self.icmp && other.icmp,
            icmp6: self.icmp6 && other.icmp6,
        }
    }

    fn fate(&self, role: Role) -> Fate
        ensures { result ≡ fate_in role self.now }
    {
        match role {
            Role::AsPort => self.port,
            Role::AsAddress => self.address,
            Role::AsProtocol => self.protocol,
            Role::AsInterface => self.interface,
        }
    }

    /// The first fault of the values where they are used in this place, but for interfaces that have no address.
    pub(crate) fn fault(&self, role: Role, span: Span) -> Option<ConfFault>
        ensures { (ifaces : List Iface) → (atoms : List Plain) → self.now ≡ summary_of ifaces atoms
            → result ≡ first_fault (use_faults role span atoms) }
    {
        self.fate(role).fault(span)
    }

    fn missing_fault(&self, role: Role, span: Span) -> Option<ConfFault>
        ensures { (ifaces : List Iface) → (atoms : List Plain) → self.now ≡ summary_of ifaces atoms
            → result ≡ first_fault (missing_faults ifaces role span atoms) }
    {
        match role {
            Role::AsAddress => fault_if(self.missing, span, Fault::UnknownInterface),
            _ => None,
        }
    }

    /// The first fault of the values where they are used in this place.
    #[tactic(auto, using(crate::proofs::FaultLemmas::both_faults))]
    pub(crate) fn place_fault(&self, role: Role, span: Span) -> Option<ConfFault>
        ensures { (ifaces : List Iface) → (atoms : List Plain) → self.now ≡ summary_of ifaces atoms
            → result ≡ first_fault (place_faults ifaces role span atoms) }
    {
        earlier(self.fault(role, span), self.missing_fault(role, span))
    }
}
