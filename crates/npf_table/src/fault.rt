// Why a table is refused. A bad line is printed by the name that the configuration's fault has.
ghost use Rattle.std.specs.Prelude.{◌≡◌};
ghost use Rattle.npf_table.specs.Fault.{table_fault_number, table_fault_name, fault_line};

use npf_types::NoMemory;
use thiserror::Error;

/// Why a table isn't read or changed.
#[derive(Clone, Copy, Debug, PartialEq, Eq, Error)]
pub enum TableFault {
    /// The prefix is in the table already.
    #[error("the prefix is in the table already")]
    Present,
    /// The prefix isn't in the table.
    #[error("the prefix isn't in the table")]
    Absent,
    /// The table is a `const` one, which doesn't change.
    #[error("a const table doesn't change")]
    ReadOnly,
    /// The table is an `ipset` one, and the prefix isn't a single address.
    #[error("an ipset table has single addresses only")]
    WrongKind,
    /// This line of the file, counted from 1, is neither blank nor an entry of the table's kind.
    #[error("line {0} is no entry of the table")]
    BadLine(u32),
    /// Memory ran out.
    #[error("out of memory")]
    NoMemory,
}

impl TableFault {
    /// The number that is printed for the fault; 0 for want of memory, which has none.
    pub fn number(&self) -> u8
        ensures { result ≡ table_fault_number self.now }
    {
        match self {
            TableFault::Present => 50,
            TableFault::Absent => 51,
            TableFault::ReadOnly => 52,
            TableFault::WrongKind => 53,
            TableFault::BadLine(_) => 35,
            TableFault::NoMemory => 0,
        }
    }

    /// The name that is printed for the fault.
    pub fn name(&self) -> &'static str
        ensures { result.now ≡ table_fault_name self.now }
    {
        match self {
            TableFault::Present => "Present",
            TableFault::Absent => "Absent",
            TableFault::ReadOnly => "ReadOnly",
            TableFault::WrongKind => "WrongKind",
            TableFault::BadLine(_) => "BadTableFile",
            TableFault::NoMemory => "NoMemory",
        }
    }

    /// The number, from 1, of the line that the fault speaks of; None where it speaks of none.
    pub fn line_number(&self) -> Option<u32>
        ensures { result ≡ fault_line self.now }
    {
        match self {
            TableFault::BadLine(number) => Some(*number),
            _ => None,
        }
    }
}

impl From<NoMemory> for TableFault {
    ghost use Rattle.npf_table.specs.declared.fault.TableFault.TheVariants as fault;

    ghost from_gives = { λ _ e. e ≡ fault.NoMemory };

    fn from(_error: NoMemory) -> TableFault {
        TableFault::NoMemory
    }
}
