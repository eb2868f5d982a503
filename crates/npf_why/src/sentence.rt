// What is said of a fault, a sentence for each of its numbers and for each condition that has its own.
ghost use Rattle.std.specs.Prelude.{◌≡◌};
ghost use Rattle.npf_faults.specs.declared.fault.Fault.{Fault as FaultType};
ghost use Rattle.npf_why.specs.Sentence.{sentence_of, words};

use npf_faults::{Excess, Fault};

/// A sentence on a fault. `shown`, where it is true of the sentence, is what stands at the fault's place.
#[derive(Clone, Copy, Debug, PartialEq, Eq)]
pub enum Sentence {
    NoToken,
    HardwareAddress,
    OpenString,
    NumberTooLarge,
    /// The text can't go on with what is shown.
    CannotGoOn,
    LineEnds,
    TextEnds,
    /// A number is at most this.
    NumberUnfit(u32),
    RangeUnfit,
    PrefixUnfit,
    NameUnfit,
    FlagsUnfit,
    FileNameUnfit,
    /// The value of the variable that is shown can't stand there.
    VariableUnfit,
    /// The variable that is shown isn't defined.
    UndefinedVariable,
    NoSuchInterface,
    UnknownName,
    EmptyList,
    BadIfaceLine,
    BadTableLine,
    NoDefaultGroup,
    SecondDefaultGroup,
    UndefinedTable,
    UndefinedProcedure,
    NoCommonFamily,
    PortsWithoutTcpUdp,
    RepeatedName,
    ImpossibleMap,
    Unbuilt,
    ManyRules,
    ManyTables,
    ManyMaps,
    ManyProcedures,
    ManyElements,
    ManyEntries,
    HeavyRule,
    ManyInstructions,
}

impl Sentence {
    /// The sentence on a fault by its number alone, and for a quantity by what there is too much of.
    pub fn of(fault: &Fault) -> Sentence
        ensures { result ≡ sentence_of fault.now }
    {
        match fault {
            Fault::BadByte => Sentence::NoToken,
            Fault::OpenString => Sentence::OpenString,
            Fault::NumberTooLarge => Sentence::NumberTooLarge,
            Fault::Expected => Sentence::CannotGoOn,
            Fault::UnknownVariable => Sentence::UndefinedVariable,
            Fault::UnknownInterface => Sentence::NoSuchInterface,
            Fault::UnknownService => Sentence::UnknownName,
            Fault::EmptyList => Sentence::EmptyList,
            Fault::BadIfaceFile => Sentence::BadIfaceLine,
            Fault::BadTableFile(_) => Sentence::BadTableLine,
            Fault::NoDefault => Sentence::NoDefaultGroup,
            Fault::TwoDefaults => Sentence::SecondDefaultGroup,
            Fault::UnknownTable => Sentence::UndefinedTable,
            Fault::UnknownProcedure => Sentence::UndefinedProcedure,
            Fault::FamilyMix => Sentence::NoCommonFamily,
            Fault::PortNeedsTcpUdp => Sentence::PortsWithoutTcpUdp,
            Fault::DuplicateName => Sentence::RepeatedName,
            Fault::BadMap => Sentence::ImpossibleMap,
            Fault::Unbuilt => Sentence::Unbuilt,
            Fault::TooMany(excess, _) => Sentence::of_excess(*excess),
        }
    }

    fn of_excess(excess: Excess) -> Sentence
        ensures { result ≡ sentence_of (FaultType.TooMany excess 0) }
    {
        match excess {
            Excess::Rules => Sentence::ManyRules,
            Excess::Tables => Sentence::ManyTables,
            Excess::Maps => Sentence::ManyMaps,
            Excess::Procedures => Sentence::ManyProcedures,
            Excess::Elements => Sentence::ManyElements,
            Excess::Entries => Sentence::ManyEntries,
            Excess::Weight => Sentence::HeavyRule,
            Excess::Instructions => Sentence::ManyInstructions,
        }
    }

    /// Its words, before what is shown or the number, if it has one.
    pub fn words(self) -> &'static str
        ensures { result.now ≡ words self }
    {
        match self {
            Sentence::NoToken => "no token begins so",
            Sentence::HardwareAddress => {
                "no token begins so: addresses of layer 2, six pairs of hexadecimal digits, aren't built"
            }
            Sentence::OpenString => "the string has no end in its line",
            Sentence::NumberTooLarge => "a number is at most 4294967295",
            Sentence::CannotGoOn => "the text can't go on with ",
            Sentence::LineEnds => "the text can't go on with the end of the line",
            Sentence::TextEnds => "the text can't go on with its end",
            Sentence::NumberUnfit(_) => "a number here is at most ",
            Sentence::RangeUnfit => "a range goes up, and both of its numbers have to fit here",
            Sentence::PrefixUnfit => "a prefix has at most 32 bits, or 128 of IPv6",
            Sentence::NameUnfit => {
                "a name has 1 to 15 letters, digits, dots, dashes and underscores, a letter first"
            }
            Sentence::FlagsUnfit => "flags are letters of FSRPAUEW",
            Sentence::FileNameUnfit => "the name of a file is UTF-8",
            Sentence::VariableUnfit => "what can't stand here is the value of ",
            Sentence::UndefinedVariable => "nothing before here defines ",
            Sentence::NoSuchInterface => {
                "the file of interfaces (--ifaces FILE) has no such interface, or no such address of it"
            }
            Sentence::UnknownName => {
                "there is no such service, protocol or message; its number can stand here"
            }
            Sentence::EmptyList => "a list has an element at least",
            Sentence::BadIfaceLine => {
                "a line of the file of interfaces is the name of one and its addresses, with spaces between"
            }
            Sentence::BadTableLine => {
                "a line of the file of a table is an address, or where its type takes them a prefix"
            }
            Sentence::NoDefaultGroup => "there is no `group default`",
            Sentence::SecondDefaultGroup => "there is a second `group default`",
            Sentence::UndefinedTable => "nothing defines this table",
            Sentence::UndefinedProcedure => "nothing defines this procedure",
            Sentence::NoCommonFamily =>
                "`family`, `from` and `to` have no address family in common",
            Sentence::PortsWithoutTcpUdp => "ports stand beside TCP and UDP alone",
            Sentence::RepeatedName => "this name is given already",
            Sentence::ImpossibleMap => {
                "its two sides aren't those of a map; npf.conf(5), under Maps, has which are"
            }
            Sentence::Unbuilt => {
                "this program doesn't have this, or not with this value, whether npf.conf(5) has it or not"
            }
            Sentence::ManyRules => "there are more rules than a configuration may have",
            Sentence::ManyTables => "there are more tables than a configuration may have",
            Sentence::ManyMaps => "there are more maps than a configuration may have",
            Sentence::ManyProcedures => "there are more procedures than a configuration may have",
            Sentence::ManyElements => {
                "there are more elements of lists than a configuration may have; a table can stand for a list of addresses"
            }
            Sentence::ManyEntries => {
                "the tables up to here have more entries than a configuration may have"
            }
            Sentence::HeavyRule => {
                "this rule weighs more than one may, as its lists are long; a table can stand for a list of addresses"
            }
            Sentence::ManyInstructions => {
                "the rules take more instructions than a configuration may have; a table can stand for a list of addresses"
            }
        }
    }
}
