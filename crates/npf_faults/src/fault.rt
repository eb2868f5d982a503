// The faults of a configuration's text, by number and name.
ghost use Rattle.std.specs.Prelude.{◌≡◌};
ghost use Rattle.npf_faults.specs.Fault.{fault_number, fault_name, excess_name};

use npf_types::{NoMemory, Span};
use std::alloc::AllocFailed;

/// A quantity that has a greatest number.
#[derive(Clone, Copy, Debug, PartialEq, Eq)]
pub enum Excess {
    Rules,
    Tables,
    Maps,
    Procedures,
    /// Elements of a rule's lists once variables are replaced.
    Elements,
    /// Entries of address tables.
    Entries,
    /// The weight of a rule: a bound on the instructions that it is compiled to.
    Weight,
    Instructions,
}

impl Excess {
    /// The quantity as it is printed, in lower case.
    pub fn name(&self) -> &'static str
        ensures { result.now ≡ excess_name self.now }
    {
        match self {
            Excess::Rules => "rules",
            Excess::Tables => "tables",
            Excess::Maps => "maps",
            Excess::Procedures => "procedures",
            Excess::Elements => "elements",
            Excess::Entries => "entries",
            Excess::Weight => "weight",
            Excess::Instructions => "instructions",
        }
    }
}

/// What is wrong with a configuration of npf.conf(5), or with a file that it needs.
#[derive(Clone, Copy, Debug, PartialEq, Eq)]
pub enum Fault {
    /// A byte or a run that is no token.
    BadByte,
    /// A string without its end.
    OpenString,
    /// Digits whose number doesn't fit in 32 bits.
    NumberTooLarge,
    /// No statement goes on with this token, or a value can't stand in its place.
    Expected,
    UnknownVariable,
    /// No such interface, or it has no such address.
    UnknownInterface,
    /// A word that is no protocol or service.
    UnknownService,
    EmptyList,
    /// A line of the file of interfaces that is none.
    BadIfaceFile,
    /// The line of a table's file, from 1, that is none.
    BadTableFile(u32),
    NoDefault,
    TwoDefaults,
    UnknownTable,
    UnknownProcedure,
    /// No address family is left for a rule.
    FamilyMix,
    /// A port beside a protocol that has none.
    PortNeedsTcpUdp,
    DuplicateName,
    BadMap,
    /// A form that this project doesn't build.
    Unbuilt,
    /// A quantity passes its greatest number, and how many there are.
    TooMany(Excess, u64),
}

impl Fault {
    /// The number that is printed for the fault.
    pub fn number(&self) -> u8
        ensures { result ≡ fault_number self.now }
    {
        match self {
            Fault::BadByte => 10,
            Fault::OpenString => 11,
            Fault::NumberTooLarge => 12,
            Fault::Expected => 20,
            Fault::UnknownVariable => 30,
            Fault::UnknownInterface => 31,
            Fault::UnknownService => 32,
            Fault::EmptyList => 33,
            Fault::BadIfaceFile => 34,
            Fault::BadTableFile(_) => 35,
            Fault::NoDefault => 40,
            Fault::TwoDefaults => 41,
            Fault::UnknownTable => 42,
            Fault::UnknownProcedure => 43,
            Fault::FamilyMix => 44,
            Fault::PortNeedsTcpUdp => 45,
            Fault::DuplicateName => 46,
            Fault::BadMap => 47,
            Fault::Unbuilt => 48,
            Fault::TooMany(_, _) => 49,
        }
    }

    /// The name that is printed for the fault.
    pub fn name(&self) -> &'static str
        ensures { result.now ≡ fault_name self.now }
    {
        match self {
            Fault::BadByte => "BadByte",
            Fault::OpenString => "OpenString",
            Fault::NumberTooLarge => "NumberTooLarge",
            Fault::Expected => "Expected",
            Fault::UnknownVariable => "UnknownVariable",
            Fault::UnknownInterface => "UnknownInterface",
            Fault::UnknownService => "UnknownService",
            Fault::EmptyList => "EmptyList",
            Fault::BadIfaceFile => "BadIfaceFile",
            Fault::BadTableFile(_) => "BadTableFile",
            Fault::NoDefault => "NoDefault",
            Fault::TwoDefaults => "TwoDefaults",
            Fault::UnknownTable => "UnknownTable",
            Fault::UnknownProcedure => "UnknownProcedure",
            Fault::FamilyMix => "FamilyMix",
            Fault::PortNeedsTcpUdp => "PortNeedsTcpUdp",
            Fault::DuplicateName => "DuplicateName",
            Fault::BadMap => "BadMap",
            Fault::Unbuilt => "Unbuilt",
            Fault::TooMany(_, _) => "TooMany",
        }
    }
}

/// A fault and the place at which it stands.
#[derive(Clone, Copy, Debug, PartialEq, Eq)]
pub struct ConfFault {
    pub span: Span,
    pub fault: Fault,
}

/// Why a text isn't read: a fault that it has, or want of memory, which says nothing of the text.
#[derive(Clone, Copy, Debug, PartialEq, Eq)]
pub enum Refused {
    Fault(ConfFault),
    NoMemory,
}

impl From<NoMemory> for Refused {
    ghost use Rattle.npf_faults.specs.declared.fault.Refused.TheVariants.{NoMemory};

    ghost from_gives = { λ _ refused. refused ≡ NoMemory };

    fn from(_error: NoMemory) -> Refused {
        Refused::NoMemory
    }
}

impl<T: Drop> From<AllocFailed<T>> for Refused {
    ghost use Rattle.npf_faults.specs.declared.fault.Refused.TheVariants.{NoMemory};

    ghost from_gives = { λ _ refused. refused ≡ NoMemory };

    fn from(_error: AllocFailed<T>) -> Refused {
        Refused::NoMemory
    }
}
