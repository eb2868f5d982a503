// Texts, put and flushed.
ghost use Rattle.std.specs.Prelude.{◌≡◌, ◌≤◌, [], OnOk, IfErr};
ghost use Rattle.npf_outside.specs.Sink.{Appends, AppendsFront};
ghost use Rattle.npf_ctl_output.specs.SinkText.{HasPutFault};

use npf_ctl_messages::CommandFault;
use npf_outside::{Sink, SinkFault};

/// Puts the text in one call, and flushes it. The fault is that of the output, or want of memory.
pub fn put_text<O: Sink>(text: &[u8], out: &mut O) -> Result<(), CommandFault>
    ensures whole { OnOk result (Appends (O.moment out.old).held (O.moment out.new).held text.now) }
    ensures flushed { OnOk result ((O.moment out.new).waiting ≡ 0) }
    ensures front { AppendsFront (O.moment out.old).held (O.moment out.new).held text.now }
    ensures fault { IfErr result (HasPutFault (O.moment out.old).faults (O.moment out.new).faults) }
{
    put(text, out)?;
    flush(out)
}

// Puts the text, which may then wait.
pub(crate) fn put<O: Sink>(text: &[u8], out: &mut O) -> Result<(), CommandFault>
    ensures whole { OnOk result (Appends (O.moment out.old).held (O.moment out.new).held text.now) }
    ensures front { AppendsFront (O.moment out.old).held (O.moment out.new).held text.now }
    ensures fault { IfErr result (HasPutFault (O.moment out.old).faults (O.moment out.new).faults) }
    ensures counted { (O.moment out.old).faults ≤ (O.moment out.new).faults }
{
    match out.put(text) {
        Ok(()) => Ok(()),
        Err(SinkFault::Failed) => Err(CommandFault::OutputUnwritten),
        Err(SinkFault::NoMemory) => Err(CommandFault::NoMemory),
    }
}

// Passes on what waits.
pub(crate) fn flush<O: Sink>(out: &mut O) -> Result<(), CommandFault>
    ensures flushed { OnOk result ((O.moment out.new).waiting ≡ 0) }
    ensures stays { Appends (O.moment out.old).held (O.moment out.new).held [] }
    ensures fault { IfErr result (HasPutFault (O.moment out.old).faults (O.moment out.new).faults) }
{
    match out.flush() {
        Ok(()) => Ok(()),
        Err(SinkFault::Failed) => Err(CommandFault::OutputUnwritten),
        Err(SinkFault::NoMemory) => Err(CommandFault::NoMemory),
    }
}
