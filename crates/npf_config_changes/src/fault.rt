// Why a configuration can't be changed.
ghost use Rattle.std.specs.Prelude.{◌≡◌};

use npf_faults::{ConfFault, Fault, Refused};
use npf_table::TableFault;
use npf_types::{NoMemory, Span};
use std::alloc::{AllocError, AllocFailed};

/// Why a change isn't made.
#[derive(Clone, Copy, Debug, PartialEq, Eq)]
pub enum ChangeFault {
    /// The rule's text has this fault, or the configuration would have it with the change.
    Conf(ConfFault),
    /// No table has this name.
    UnknownTable,
    /// The table refuses the change: neither a bad line nor want of memory stands here.
    Table(TableFault),
    /// No ruleset has this name.
    UnknownRuleset,
    /// No rule of the ruleset has this number.
    UnknownRule,
    /// Memory ran out.
    NoMemory,
}

impl ChangeFault {
    pub(crate) fn at(span: Span, fault: Fault) -> ChangeFault
        ensures { result ≡ ChangeFault.Conf (record { span = span; fault = fault }) }
    {
        ChangeFault::Conf(ConfFault { span, fault })
    }
}

impl From<Refused> for ChangeFault {
    ghost use Rattle.npf_config_changes.specs.Told.{told_of_text};

    ghost from_gives = { λ refused fault. fault ≡ told_of_text refused };

    fn from(refused: Refused) -> ChangeFault {
        match refused {
            Refused::Fault(fault) => ChangeFault::Conf(fault),
            Refused::NoMemory => ChangeFault::NoMemory,
        }
    }
}

impl From<ConfFault> for ChangeFault {
    ghost use Rattle.npf_config_changes.specs.declared.fault.ChangeFault.TheVariants.{Conf};

    ghost from_gives = { λ told fault. fault ≡ Conf told };

    fn from(told: ConfFault) -> ChangeFault {
        ChangeFault::Conf(told)
    }
}

impl From<TableFault> for ChangeFault {
    ghost use Rattle.npf_config_changes.specs.Told.{told_of_table};

    ghost from_gives = { λ refused fault. fault ≡ told_of_table refused };

    fn from(refused: TableFault) -> ChangeFault {
        match refused {
            TableFault::NoMemory => ChangeFault::NoMemory,
            _ => ChangeFault::Table(refused),
        }
    }
}

impl From<NoMemory> for ChangeFault {
    ghost use Rattle.npf_config_changes.specs.declared.fault.ChangeFault.{ChangeFault};

    ghost from_gives = { λ _ fault. fault ≡ ChangeFault.NoMemory };

    fn from(_error: NoMemory) -> ChangeFault {
        ChangeFault::NoMemory
    }
}

impl From<AllocError> for ChangeFault {
    ghost use Rattle.npf_config_changes.specs.declared.fault.ChangeFault.{ChangeFault};

    ghost from_gives = { λ _ fault. fault ≡ ChangeFault.NoMemory };

    fn from(_error: AllocError) -> ChangeFault {
        ChangeFault::NoMemory
    }
}

impl<T: Drop> From<AllocFailed<T>> for ChangeFault {
    ghost use Rattle.npf_config_changes.specs.declared.fault.ChangeFault.{ChangeFault};

    ghost from_gives = { λ _ fault. fault ≡ ChangeFault.NoMemory };

    fn from(_error: AllocFailed<T>) -> ChangeFault {
        ChangeFault::NoMemory
    }
}
