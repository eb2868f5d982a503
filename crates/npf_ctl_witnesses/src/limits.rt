// How many witnesses, and captures of them, a run takes.
ghost use Rattle.std.specs.Prelude.{◌≡◌, ◌≤◌, ◌<◌, IfErr, OnErr, OnOk};
ghost use Rattle.npf_ctl_messages.specs.declared.fault.CommandFault.{CommandFault as FaultType};

use npf_ctl_messages::{CommandFault, MAX_WITNESSES, Quantity};
use npf_types::limits::MAX_CAPTURES;

/// Refuses more witnesses than `MAX_WITNESSES`.
pub(crate) fn test_witnesses(count: usize) -> Result<(), CommandFault>
    ensures ok { OnOk result (count ≤ MAX_WITNESSES) }
    ensures err { OnErr result (MAX_WITNESSES < count) }
    ensures fault { IfErr result (λ fault. fault ≡ FaultType.Many Quantity.Witnesses count) }
{
    if count > MAX_WITNESSES {
        return Err(CommandFault::Many {
            what: Quantity::Witnesses,
            count: count as u64,
        });
    }
    Ok(())
}

/// Refuses more captures than a run takes.
pub(crate) fn test_captures(count: usize) -> Result<(), CommandFault>
    ensures ok { OnOk result (count ≤ MAX_CAPTURES) }
    ensures err { OnErr result (MAX_CAPTURES < count) }
    ensures fault { IfErr result (λ fault. fault ≡ FaultType.Many Quantity.Captures count) }
{
    if count > MAX_CAPTURES {
        return Err(CommandFault::Many {
            what: Quantity::Captures,
            count: count as u64,
        });
    }
    Ok(())
}
