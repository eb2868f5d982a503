// Why a configuration can't be loaded.
ghost use Rattle.std.specs.Prelude.{◌≡◌};

use npf_faults::{ConfFault, Fault, Refused};
use npf_outside::FileFault;
use npf_types::{NoMemory, Span, Text};
use std::alloc::{AllocError, AllocFailed};

/// Why a configuration isn't loaded.
#[derive(Debug, Drop)]
pub enum LoadFault {
    /// The text has this fault, or a table's file has it, or the compiled rules do.
    Conf(ConfFault),
    /// The file of this name, which is written at this place, isn't read. Want of memory never stands here.
    File {
        span: Span,
        file: Text,
        fault: FileFault,
    },
    /// Memory ran out.
    NoMemory,
}

impl LoadFault {
    pub(crate) fn at(span: Span, fault: Fault) -> LoadFault
        ensures { result ≡ LoadFault.Conf (record { span = span; fault = fault }) }
    {
        LoadFault::Conf(ConfFault { span, fault })
    }
}

impl From<Refused> for LoadFault {
    ghost use Rattle.npf_config.specs.Stage.{told_by};

    ghost from_gives = { λ refused fault. fault ≡ told_by refused };

    fn from(refused: Refused) -> LoadFault {
        match refused {
            Refused::Fault(fault) => LoadFault::Conf(fault),
            Refused::NoMemory => LoadFault::NoMemory,
        }
    }
}

impl From<NoMemory> for LoadFault {
    ghost use Rattle.npf_config.specs.declared.fault.LoadFault.{LoadFault};

    ghost from_gives = { λ _ fault. fault ≡ LoadFault.NoMemory };

    fn from(_error: NoMemory) -> LoadFault {
        LoadFault::NoMemory
    }
}

impl From<AllocError> for LoadFault {
    ghost use Rattle.npf_config.specs.declared.fault.LoadFault.{LoadFault};

    ghost from_gives = { λ _ fault. fault ≡ LoadFault.NoMemory };

    fn from(_error: AllocError) -> LoadFault {
        LoadFault::NoMemory
    }
}

impl<T: Drop> From<AllocFailed<T>> for LoadFault {
    ghost use Rattle.npf_config.specs.declared.fault.LoadFault.{LoadFault};

    ghost from_gives = { λ _ fault. fault ≡ LoadFault.NoMemory };

    fn from(_error: AllocFailed<T>) -> LoadFault {
        LoadFault::NoMemory
    }
}
