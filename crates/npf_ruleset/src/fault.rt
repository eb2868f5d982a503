// Why a configuration can't be built.
ghost use Rattle.std.specs.Prelude.{◌≡◌};

use npf_types::NoMemory;
use std::alloc::{AllocError, AllocFailed};
use thiserror::Error;

/// Why a model isn't laid out.
#[derive(Clone, Copy, Debug, PartialEq, Eq, Error)]
pub enum BuildFault {
    /// The rule at this place, counted from 0 in the order of inspection, is the first whose weight
    /// passes 4,096; this is its weight.
    #[error("rule {rule} has the weight {weight}, over 4096")]
    TooLong { rule: u32, weight: u64 },
    /// The programs of all rules together have this many instructions, which passes 524,288.
    #[error("{0} instructions, over 524288")]
    TooMuch(u64),
    /// Memory ran out.
    #[error("out of memory")]
    NoMemory,
}

impl From<NoMemory> for BuildFault {
    ghost use Rattle.npf_ruleset.specs.declared.fault.BuildFault.{BuildFault};

    ghost from_gives = { λ _ fault. fault ≡ BuildFault.NoMemory };

    fn from(_error: NoMemory) -> BuildFault {
        BuildFault::NoMemory
    }
}

impl From<AllocError> for BuildFault {
    ghost use Rattle.npf_ruleset.specs.declared.fault.BuildFault.{BuildFault};

    ghost from_gives = { λ _ fault. fault ≡ BuildFault.NoMemory };

    fn from(_error: AllocError) -> BuildFault {
        BuildFault::NoMemory
    }
}

impl<T: Drop> From<AllocFailed<T>> for BuildFault {
    ghost use Rattle.npf_ruleset.specs.declared.fault.BuildFault.{BuildFault};

    ghost from_gives = { λ _ fault. fault ≡ BuildFault.NoMemory };

    fn from(_error: AllocFailed<T>) -> BuildFault {
        BuildFault::NoMemory
    }
}
