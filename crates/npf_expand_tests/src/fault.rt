// Places and faults as they are printed.
use npf_faults::{ConfFault, Excess, Fault, Refused};
use npf_table::TableFault;
use npf_types::Span;
use std::fmt;

/// Why a text is refused: `LINE:COLUMN NUMBER NAME`.
#[derive(Clone, Copy)]
pub struct Told(pub Refused);

impl fmt::Display for Told {
    fn fmt<W: fmt::Write>(&self, f: &mut fmt::Formatter<W>) -> fmt::Result {
        match self.0 {
            Refused::NoMemory => write!(f, "out of memory"),
            Refused::Fault(ConfFault { span, fault }) => {
                write!(f, "{}:{} {}", span.line, span.col, Named(fault))
            }
        }
    }
}

/// A place: `LINE:COLUMN`, and then the first byte, counted from 0, and how many there are.
#[derive(Clone, Copy)]
pub struct Place(pub Span);

impl fmt::Display for Place {
    fn fmt<W: fmt::Write>(&self, f: &mut fmt::Formatter<W>) -> fmt::Result {
        let Span { line, col, at, len } = self.0;
        write!(f, "{line}:{col} {at}+{len}")
    }
}

/// A fault's number and name, and the quantity that is too great and how many there are, or the line of a table's file.
#[derive(Clone, Copy)]
pub struct Named(pub Fault);

impl fmt::Display for Named {
    fn fmt<W: fmt::Write>(&self, f: &mut fmt::Formatter<W>) -> fmt::Result {
        write!(f, "{} {}", self.0.number(), self.0.name())?;
        match self.0 {
            Fault::TooMany(excess, count) => write!(f, " {} {count}", excess.name()),
            Fault::BadTableFile(line) => write!(f, " {line}"),
            _ => Ok(()),
        }
    }
}

/// The same of a table's fault.
#[derive(Clone, Copy)]
pub struct NamedOfTable(pub TableFault);

impl fmt::Display for NamedOfTable {
    fn fmt<W: fmt::Write>(&self, f: &mut fmt::Formatter<W>) -> fmt::Result {
        write!(f, "{} {}", self.0.number(), self.0.name())?;
        match self.0.line_number() {
            Some(line) => write!(f, " {line}"),
            None => Ok(()),
        }
    }
}

/// All faults, a line each.
#[derive(Clone, Copy)]
pub struct AllFaults;

impl fmt::Display for AllFaults {
    fn fmt<W: fmt::Write>(&self, f: &mut fmt::Formatter<W>) -> fmt::Result {
        write!(f, "numbers and names")?;
        for fault in FAULTS {
            write!(f, "\n  {}", Named(fault))?;
        }
        write_table_faults(f)
    }
}

fn write_table_faults<W: fmt::Write>(f: &mut fmt::Formatter<W>) -> fmt::Result {
    for fault in TABLE_FAULTS {
        write!(f, "\n  {}", NamedOfTable(fault))?;
    }
    Ok(())
}

const FAULTS: [Fault; 20] = [
    Fault::BadByte,
    Fault::OpenString,
    Fault::NumberTooLarge,
    Fault::Expected,
    Fault::UnknownVariable,
    Fault::UnknownInterface,
    Fault::UnknownService,
    Fault::EmptyList,
    Fault::BadIfaceFile,
    Fault::BadTableFile(7),
    Fault::NoDefault,
    Fault::TwoDefaults,
    Fault::UnknownTable,
    Fault::UnknownProcedure,
    Fault::FamilyMix,
    Fault::PortNeedsTcpUdp,
    Fault::DuplicateName,
    Fault::BadMap,
    Fault::Unbuilt,
    Fault::TooMany(Excess::Weight, 4102),
];

const TABLE_FAULTS: [TableFault; 6] = [
    TableFault::Present,
    TableFault::Absent,
    TableFault::ReadOnly,
    TableFault::WrongKind,
    TableFault::BadLine(2),
    TableFault::NoMemory,
];
