// Why a rule can't be compiled.
ghost use Rattle.std.specs.Prelude.{◌≡◌};

use npf_types::NoMemory;
use thiserror::Error;

/// Why a rule isn't compiled.
#[derive(Clone, Copy, Debug, PartialEq, Eq, Error)]
pub enum GenFault {
    /// The rule has this weight, which passes 4,096.
    #[error("the rule's weight is {0}, over 4096")]
    TooLong(u64),
    /// Memory ran out.
    #[error("out of memory")]
    NoMemory,
}

impl From<NoMemory> for GenFault {
    ghost use Rattle.npf_bpfgen.specs.declared.fault.GenFault.{GenFault};

    ghost from_gives = { λ _ fault. fault ≡ GenFault.NoMemory };

    fn from(_error: NoMemory) -> GenFault {
        GenFault::NoMemory
    }
}
