// How much of captures a run may have.
ghost use Rattle.std.specs.Prelude.{◌≤◌, OnOk};
ghost use Rattle.npf_ctl_arrivals.specs.Arrivals.{AreWithinRun};

use npf_ctl_messages::{CommandFault, Quantity};
use npf_types::limits::{MAX_BYTES_OF_CAPTURES, MAX_PACKETS};

/// Tests that a run may have captures of so many bytes and packets. A fault tells the first of the two that is too many.
pub(crate) fn within_run(bytes: u64, packets: u64) -> Result<(), CommandFault>
    ensures stage { AreWithinRun bytes packets result }
    ensures bytes { OnOk result (bytes ≤ MAX_BYTES_OF_CAPTURES) }
    ensures packets { OnOk result (packets ≤ MAX_PACKETS) }
{
    if bytes > MAX_BYTES_OF_CAPTURES as u64 {
        return Err(CommandFault::Many {
            what: Quantity::CaptureBytes,
            count: bytes,
        });
    }
    if packets > MAX_PACKETS as u64 {
        return Err(CommandFault::Many {
            what: Quantity::Packets,
            count: packets,
        });
    }
    Ok(())
}
