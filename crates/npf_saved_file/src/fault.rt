// Why a file of connections is refused.
ghost use Rattle.std.specs.Prelude.{◌≡◌};

use npf_types::NoMemory;
use std::alloc::AllocFailed;
use thiserror::Error;

/// Why saved connections aren't loaded. Lines are counted from 1.
#[derive(Clone, Copy, Debug, PartialEq, Eq, Error)]
pub enum SavedFault {
    /// This line is the first that isn't a line of such a file or may not stand where it does, or
    /// that no line feed ends.
    #[error("line {line} is bad")]
    BadSaved { line: u32 },
    /// This line is the first that names another interface than the run has there; or an interface
    /// is missing there.
    #[error("line {line} has another interface")]
    OtherInterfaces { line: u32 },
    /// So many connections are listed, more than there are slots.
    #[error("{count} connections are too many")]
    TooManySaved { count: u64 },
    /// No node of the table was free for a key.
    #[error("no node for a key")]
    SavedNoNode,
    /// Memory ran out.
    #[error("out of memory")]
    NoMemory,
}

impl From<NoMemory> for SavedFault {
    ghost use Rattle.npf_saved_file.specs.declared.fault.SavedFault.TheVariants as fault;

    ghost from_gives = { λ _ e. e ≡ fault.NoMemory };

    fn from(_error: NoMemory) -> SavedFault {
        SavedFault::NoMemory
    }
}

impl<T: Drop> From<AllocFailed<T>> for SavedFault {
    ghost use Rattle.npf_saved_file.specs.declared.fault.SavedFault.TheVariants as fault;

    ghost from_gives = { λ _ e. e ≡ fault.NoMemory };

    fn from(_error: AllocFailed<T>) -> SavedFault {
        SavedFault::NoMemory
    }
}
