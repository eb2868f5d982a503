// What the part on epochs says of passes. The function does nothing: it is a theorem.
ghost use Rattle.npf_cells_pins.specs.PinsLaw.{HoldsEpochBack, ScansPassBy};

/// The pins law: where a pass is protected with an epoch, the table's is that one or the next; and a pass that a scan passed by isn't
/// protected from before the epoch that was loaded for the scan.
pub fn pins_law()
    ensures within { HoldsEpochBack }
    ensures scans { ScansPassBy }
{}
