// A script, and why a text is none.
ghost use Rattle.std.specs.Prelude.{◌≡◌};

use npf_types::{Dir, List, Name, NoMemory, Prefix, Text};
use std::alloc::AllocFailed;
use thiserror::Error;

/// The commands of a run's script, each with the number of its line, from 1.
#[derive(Debug, Drop)]
pub struct Script {
    pub lines: List<(u32, ScriptLine)>,
}

/// A command of a script.
#[derive(Debug, Drop)]
pub enum ScriptLine {
    /// The packets of the file came on the interface in this direction.
    Capture { name: Name, dir: Dir, file: Text },
    /// Begins a phase.
    Phase,
    /// How many packets the phase has; None for all that are left.
    Packets(Option<u64>),
    /// The file's configuration is published.
    Reload { file: Text },
    /// The rule that the text writes is added to the ruleset.
    RuleAdd { name: Name, text: Text },
    /// The rule of this number is taken out of the ruleset.
    RuleRem { name: Name, id: u32 },
    /// All rules are taken out of the ruleset.
    RuleFlush { name: Name },
    /// The prefix is added to the table.
    TableAdd { name: Name, prefix: Prefix },
    /// The prefix is taken out of the table.
    TableRem { name: Name, prefix: Prefix },
    /// The connections that are due at this moment, in nanoseconds, expire.
    Expire(u64),
}

/// Why a script isn't read.
#[derive(Clone, Copy, Debug, PartialEq, Eq, Error)]
pub enum ScriptFault {
    /// This line, counted from 1, is the first that is no command, or stands where its command may not.
    #[error("line {line} is no command of a script")]
    BadLine { line: u32 },
    /// Memory ran out.
    #[error("out of memory")]
    NoMemory,
}

impl From<NoMemory> for ScriptFault {
    ghost use Rattle.npf_ctl_script.specs.declared.script.ScriptFault.TheVariants as fault;

    ghost from_gives = { λ _ e. e ≡ fault.NoMemory };

    fn from(_error: NoMemory) -> ScriptFault {
        ScriptFault::NoMemory
    }
}

impl<T: Drop> From<AllocFailed<T>> for ScriptFault {
    ghost use Rattle.npf_ctl_script.specs.declared.script.ScriptFault.TheVariants as fault;

    ghost from_gives = { λ _ e. e ≡ fault.NoMemory };

    fn from(_error: AllocFailed<T>) -> ScriptFault {
        ScriptFault::NoMemory
    }
}
