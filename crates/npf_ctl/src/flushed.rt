// Bytes that are put in one call and passed on.
ghost use Rattle.std.specs.Prelude.{◌≡◌, [], IsErrOf, OnOk};
ghost use Rattle.npf_outside.specs.Counts.{Rose};
ghost use Rattle.npf_outside.specs.Sink.{Appends, AppendsFront};

use npf_outside::{Sink, SinkFault};

/// Puts the bytes in one call, and passes them on. Where memory is wanting nothing is put.
pub(crate) fn put_flushed<E: Sink>(bytes: &[u8], sink: &mut E) -> Result<(), SinkFault>
    ensures whole { OnOk result (Appends (E.moment sink.old).held (E.moment sink.new).held bytes.now) }
    ensures flushed { OnOk result ((E.moment sink.new).waiting ≡ 0) }
    ensures front { AppendsFront (E.moment sink.old).held (E.moment sink.new).held bytes.now }
    ensures failed { IsErrOf result SinkFault.Failed → Rose (E.moment sink.old).faults (E.moment sink.new).faults }
    ensures memory { IsErrOf result SinkFault.NoMemory → Appends (E.moment sink.old).held (E.moment sink.new).held [] }
{
    sink.put(bytes)?;
    sink.flush()
}
