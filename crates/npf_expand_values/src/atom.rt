// Values in which no variable is left.
ghost use Rattle.std.specs.Prelude.{◌≡◌, None, Some, if◌then◌else◌, nat_lt};
ghost use Rattle.std.specs.Option.{option_map};
ghost use Rattle.npf_types.specs.NameText.{is_name};
ghost use Rattle.npf_faults.specs.First.{first_fault};
ghost use Rattle.npf_expand_values.specs.Atom.{kept_atom};
ghost use Rattle.npf_expand_values.specs.Leader.{host_name, name_text};
ghost use Rattle.npf_expand_values.specs.Port.{atom_ports};
ghost use Rattle.npf_expand_values.specs.Message.{name_faults, number_among};
ghost use Rattle.npf_expand_values.specs.Protocol.{is_protocol, protocol_of};
ghost use Rattle.npf_names.specs.Icmp.{names_in};
ghost use Rattle.npf_expand_values.specs.Use.{count_of, is_unfit, word_faults};

use crate::role::Role;
use npf_faults::{ConfFault, Fault, fault_if};
use npf_names::{IcmpTable, protocol_number, service_port};
use npf_syntax::{Str, Word, is_iface_word};
use npf_types::{Addr, Name};

/// What a value stands for: its texts stand in the tree, and the addresses of a function in the list of the run's interfaces.
#[derive(Clone, Copy)]
pub enum Atom<'a> {
    Number(u32),
    Range(u32, u32),
    Word(&'a Word),
    Str(&'a Str),
    Block(Addr, Option<u32>),
    Table(&'a Word),
    /// Those of this interface, where one is named.
    Addresses(Option<&'a [u8]>, &'a [Addr]),
}

fn octet(number: u32) -> Option<u8>
    ensures { result ≡ (if nat_lt 255 number then None else Some number) }
{
    if number > 255 {
        return None;
    }
    Some(number as u8)
}

fn name_in(text: &[u8]) -> Option<&[u8]>
    ensures { option_map (λ name. name.now) result ≡ (if is_name text.now then Some text.now else None) }
{
    if Name::of(text).is_none() {
        return None;
    }
    Some(text)
}

impl<'a> Atom<'a> {
    /// The name of the interface that it stands for, where it does for one.
    pub(crate) fn name_text(&self) -> Option<&'a [u8]>
        ensures { option_map (λ name. name.now) result ≡ name_text (kept_atom self.now) }
    {
        match self {
            Atom::Word(word) => name_in(word.text.as_slice()),
            Atom::Str(string) => name_in(string.text.as_slice()),
            Atom::Addresses(iface, _) => *iface,
            _ => None,
        }
    }

    /// The name of the interface whose addresses it stands for, where it names one there.
    pub(crate) fn host_name(&self) -> Option<&'a [u8]>
        ensures { option_map (λ name. name.now) result ≡ host_name (kept_atom self.now) }
    {
        match self {
            Atom::Word(word) => {
                let text = word.text.as_slice();
                if is_iface_word(text) {
                    Some(text)
                } else {
                    None
                }
            }
            Atom::Str(string) => name_in(string.text.as_slice()),
            _ => None,
        }
    }

    /// Whether it can't stand in this place.
    pub(crate) fn is_unfit(&self, role: Role) -> bool
        ensures { result ≡ is_unfit role (kept_atom self.now) }
    {
        match role {
            Role::AsPort => match self {
                Atom::Number(number) => *number > 65535,
                Atom::Range(first, last) => *first > 65535 || *last > 65535,
                Atom::Word(_) => false,
                _ => true,
            },
            Role::AsAddress => match self {
                Atom::Block(_, _) | Atom::Table(_) | Atom::Addresses(_, _) => false,
                Atom::Word(word) => !is_iface_word(word.text.as_slice()),
                Atom::Str(string) => Name::of(string.text.as_slice()).is_none(),
                _ => true,
            },
            Role::AsProtocol => match self {
                Atom::Number(number) => *number > 255,
                Atom::Word(_) => false,
                _ => true,
            },
            Role::AsInterface => match self {
                Atom::Word(word) => Name::of(word.text.as_slice()).is_none(),
                Atom::Str(string) => Name::of(string.text.as_slice()).is_none(),
                Atom::Addresses(iface, _) => iface.is_none(),
                _ => true,
            },
        }
    }

    /// The fault of a word that names nothing in this place.
    pub(crate) fn word_fault(&self, role: Role) -> Option<ConfFault>
        ensures { result ≡ first_fault (word_faults role (kept_atom self.now)) }
    {
        let Atom::Word(word) = self else {
            return None;
        };
        let text = word.text.as_slice();
        match role {
            Role::AsPort => {
                let unknown = service_port(text).is_none();
                fault_if(unknown, word.span, Fault::UnknownService)
            }
            Role::AsProtocol => {
                let unknown = protocol_number(text).is_none();
                fault_if(unknown, word.span, Fault::UnknownService)
            }
            Role::AsAddress | Role::AsInterface => None,
        }
    }

    /// How many elements it is in a list, but among addresses.
    pub(crate) fn count(&self) -> usize
        ensures { result ≡ count_of (kept_atom self.now) }
    {
        match self {
            Atom::Addresses(_, addrs) => addrs.len(),
            _ => 1,
        }
    }

    /// The ports that it is, first and last; None where it is none.
    pub fn ports(&self) -> Option<(u16, u16)>
        ensures { result ≡ atom_ports (kept_atom self.now) }
    {
        match self {
            Atom::Number(number) => {
                if *number > 65535 {
                    return None;
                }
                Some((*number as u16, *number as u16))
            }
            Atom::Range(first, last) => {
                if *first > 65535 || *last > 65535 {
                    return None;
                }
                Some((*first as u16, *last as u16))
            }
            Atom::Word(word) => match service_port(word.text.as_slice()) {
                Some(port) => Some((port, port)),
                None => None,
            },
            _ => None,
        }
    }

    /// The number that it is, by itself or as a name of this table; None where it is none.
    pub(crate) fn number_among(&self, table: IcmpTable) -> Option<u8>
        ensures { result ≡ number_among (names_in table) (kept_atom self.now) }
    {
        match self {
            Atom::Number(number) => octet(*number),
            Atom::Word(word) => table.number_named(word.text.as_slice()),
            _ => None,
        }
    }

    /// The fault of a word that is no name of this table.
    pub(crate) fn name_fault(&self, table: IcmpTable) -> Option<ConfFault>
        ensures { result ≡ first_fault (name_faults (names_in table) (kept_atom self.now)) }
    {
        let Atom::Word(word) = self else {
            return None;
        };
        let unknown = table.number_named(word.text.as_slice()).is_none();
        fault_if(unknown, word.span, Fault::UnknownService)
    }

    /// Whether it is this protocol.
    pub(crate) fn is_protocol(&self, wanted: u8) -> bool
        ensures { result ≡ is_protocol wanted (kept_atom self.now) }
    {
        match self.protocol() {
            Some(number) => number == wanted,
            None => false,
        }
    }

    /// The protocol that it is; None where it is none.
    pub fn protocol(&self) -> Option<u8>
        ensures { result ≡ protocol_of (kept_atom self.now) }
    {
        match self {
            Atom::Number(number) => octet(*number),
            Atom::Word(word) => protocol_number(word.text.as_slice()),
            _ => None,
        }
    }
}
