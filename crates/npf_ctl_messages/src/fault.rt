// Why a command fails: the exit status, the number and the name of each fault.
ghost use Rattle.std.specs.Prelude.{◌≡◌};
ghost use Rattle.npf_ctl_messages.specs.Message.{line_fault_name, line_fault_number, saved_count, saved_name, saved_number, status_of_fault};

use npf_faults::{ConfFault, Fault};
use npf_pcap::CaptureFault;
use npf_table::TableFault;
use npf_types::{NoMemory, Text};
use std::alloc::{AllocError, AllocFailed};

/// The first fault that a command met.
#[derive(Debug, Drop)]
pub enum CommandFault {
    /// The words are no command line.
    Usage,
    /// The file is refused at a place: a configuration, a file of interfaces, or for a line of a table's file the configuration that
    /// names it.
    Configuration {
        file: Text,
        fault: ConfFault,
    },
    /// The file can't be read.
    Unread {
        file: Text,
    },
    /// The file has more bytes than its kind may have, and how many those are.
    Long {
        file: Text,
        most: u64,
    },
    /// The saved connections of the file aren't loaded.
    Saved {
        file: Text,
        fault: SavedRefusal,
    },
    /// The file is no capture.
    Capture {
        file: Text,
        fault: CaptureFault,
    },
    /// A line of the script, counted from 1, is refused.
    Line {
        script: Text,
        line: u32,
        fault: LineFault,
    },
    /// The run has more of it than it may have.
    Many {
        what: Quantity,
        count: u64,
    },
    /// The search wants more steps than it may take: so many at least, and the most.
    Steps {
        count: u64,
        most: u64,
    },
    /// The file can't be written.
    Unwritten {
        file: Text,
    },
    /// The standard output can't be written.
    OutputUnwritten,
    /// Memory ran out, which says nothing of the words or the files.
    NoMemory,
}

/// Why a line of a script is refused.
#[derive(Clone, Copy, Debug, PartialEq, Eq)]
pub enum LineFault {
    /// It is no command, or stands where its command may not.
    BadLine,
    /// The rule that it adds is refused, or a limit of the configuration is passed.
    Conf(ConfFault),
    /// No table has the name.
    UnknownTable,
    /// The table's change is refused.
    Table(TableFault),
    /// No ruleset has the name.
    UnknownRuleset,
    /// No rule of the ruleset has the number.
    UnknownRule,
}

impl LineFault {
    /// The number that is printed for the fault.
    pub fn number(&self) -> u8
        ensures { result ≡ line_fault_number self.now }
    {
        match *self {
            LineFault::BadLine => 70,
            LineFault::Conf(fault) => fault.fault.number(),
            LineFault::UnknownTable => Fault::UnknownTable.number(),
            LineFault::Table(fault) => fault.number(),
            LineFault::UnknownRuleset => 60,
            LineFault::UnknownRule => 61,
        }
    }

    /// The name that is printed for the fault.
    pub fn name(&self) -> &'static str
        ensures { result.now ≡ line_fault_name self.now }
    {
        match *self {
            LineFault::BadLine => "BadLine",
            LineFault::Conf(fault) => fault.fault.name(),
            LineFault::UnknownTable => Fault::UnknownTable.name(),
            LineFault::Table(fault) => fault.name(),
            LineFault::UnknownRuleset => "UnknownRuleset",
            LineFault::UnknownRule => "UnknownRule",
        }
    }
}

/// Why the saved connections of a file aren't loaded. Lines are counted from 1.
#[derive(Clone, Copy, Debug, PartialEq, Eq)]
pub enum SavedRefusal {
    /// The first line that is bad: it isn't one of such a file, or may not stand where it does.
    BadSaved(u32),
    /// The first line that has another interface than the run, or where one is missing.
    OtherInterfaces(u32),
    /// So many connections are listed, more than the table has slots.
    TooManySaved(u64),
    /// The table had no node for a key.
    SavedNoNode,
}

impl SavedRefusal {
    /// The number that is printed for the fault.
    pub fn number(&self) -> u8
        ensures { result ≡ saved_number self.now }
    {
        match *self {
            SavedRefusal::BadSaved(_) => 80,
            SavedRefusal::OtherInterfaces(_) => 81,
            SavedRefusal::TooManySaved(_) => 82,
            SavedRefusal::SavedNoNode => 83,
        }
    }

    /// The name that is printed for the fault.
    pub fn name(&self) -> &'static str
        ensures { result.now ≡ saved_name self.now }
    {
        match *self {
            SavedRefusal::BadSaved(_) => "BadSaved",
            SavedRefusal::OtherInterfaces(_) => "OtherInterfaces",
            SavedRefusal::TooManySaved(_) => "TooManySaved",
            SavedRefusal::SavedNoNode => "SavedNoNode",
        }
    }

    /// The line, from 1, or the count that is printed behind them; None where neither is.
    pub fn count(&self) -> Option<u64>
        ensures { result ≡ saved_count self.now }
    {
        match *self {
            SavedRefusal::BadSaved(line) | SavedRefusal::OtherInterfaces(line) => {
                Some(u64::from(line))
            }
            SavedRefusal::TooManySaved(count) => Some(count),
            SavedRefusal::SavedNoNode => None,
        }
    }
}

/// What a run, or the answer to a question, may have only so many of.
#[derive(Clone, Copy, Debug, PartialEq, Eq)]
pub enum Quantity {
    Captures,
    Phases,
    /// Changes of the configuration.
    Changes,
    Interfaces,
    /// Bytes of all captures.
    CaptureBytes,
    Packets,
    /// Pairs of rules or of maps by which two configurations treat a packet otherwise.
    Pairs,
    /// Packets of an answer that are written to files.
    Witnesses,
    /// Expiries at multiples of a period.
    Expiries,
}

impl CommandFault {
    /// The status that the program ends with, from 1 on.
    pub fn status(&self) -> u8
        ensures { result ≡ status_of_fault self.now }
    {
        match self {
            CommandFault::NoMemory => 1,
            CommandFault::Usage => 2,
            CommandFault::Configuration { .. } => 3,
            CommandFault::Unread { .. } => 4,
            CommandFault::Unwritten { .. } | CommandFault::OutputUnwritten => 5,
            CommandFault::Saved { .. } => 6,
            CommandFault::Capture { .. } => 7,
            CommandFault::Line { .. } => 8,
            CommandFault::Long { .. } | CommandFault::Many { .. } | CommandFault::Steps { .. } => 9,
        }
    }
}

impl From<NoMemory> for CommandFault {
    ghost use Rattle.npf_ctl_messages.specs.declared.fault.CommandFault.{CommandFault};

    ghost from_gives = { λ _ fault. fault ≡ CommandFault.NoMemory };

    fn from(_error: NoMemory) -> CommandFault {
        CommandFault::NoMemory
    }
}

impl From<AllocError> for CommandFault {
    ghost use Rattle.npf_ctl_messages.specs.declared.fault.CommandFault.{CommandFault};

    ghost from_gives = { λ _ fault. fault ≡ CommandFault.NoMemory };

    fn from(_error: AllocError) -> CommandFault {
        CommandFault::NoMemory
    }
}

impl<T: Drop> From<AllocFailed<T>> for CommandFault {
    ghost use Rattle.npf_ctl_messages.specs.declared.fault.CommandFault.{CommandFault};

    ghost from_gives = { λ _ fault. fault ≡ CommandFault.NoMemory };

    fn from(_error: AllocFailed<T>) -> CommandFault {
        CommandFault::NoMemory
    }
}
