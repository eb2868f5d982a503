// What a sink is to those that put bytes on it.
//
// A put that runs out of memory has put nothing, and one that failed may have put a front. So what is to be whole or nothing is one put.
ghost use Rattle.std.specs.Prelude.{◌≡◌, ℕ, ◌≤◌, List, [], OnOk, IsErrOf};
ghost use Rattle.npf_outside.specs.Counts.{Rose};
ghost use Rattle.npf_outside.specs.Sink.{SinkMoment, Appends, AppendsFront};

/// Why bytes were not put, or not flushed.
#[derive(Clone, Copy, Debug, PartialEq, Eq)]
pub enum SinkFault {
    /// The outside refused: the object's count of faults rose.
    Failed,
    NoMemory,
}

/// Where bytes are put, one after the other. `moment` is what the object shows: what was put so far, if it tells it, the count
/// of its failures, which never falls, and how many of the bytes wait in a buffer of its own.
pub trait Sink {
    ghost moment: { Self → SinkMoment };

    /// Appends the bytes, which may then wait. After an error a front of them may have been appended, and after `NoMemory`
    /// nothing was.
    fn put(&mut self, bytes: &[u8]) -> Result<(), SinkFault>
        ensures whole { OnOk result (Appends (moment self.old).held (moment self.new).held bytes.now) }
        ensures faultless { OnOk result ((moment self.new).faults ≡ (moment self.old).faults) }
        ensures front { AppendsFront (moment self.old).held (moment self.new).held bytes.now }
        ensures memory { IsErrOf result SinkFault.NoMemory
            → Appends (moment self.old).held (moment self.new).held [] }
        ensures failed { IsErrOf result SinkFault.Failed → Rose (moment self.old).faults (moment self.new).faults }
        ensures counted { (moment self.old).faults ≤ (moment self.new).faults };

    /// Passes on what waits, for which no memory is wanted. After an error some of it may have been passed on.
    fn flush(&mut self) -> Result<(), SinkFault>
        ensures flushed { OnOk result ((moment self.new).waiting ≡ 0) }
        ensures faultless { OnOk result ((moment self.new).faults ≡ (moment self.old).faults) }
        ensures stays { Appends (moment self.old).held (moment self.new).held [] }
        ensures memory { IsErrOf result SinkFault.NoMemory → ⊥ }
        ensures failed { IsErrOf result SinkFault.Failed → Rose (moment self.old).faults (moment self.new).faults }
        ensures counted { (moment self.old).faults ≤ (moment self.new).faults };
}
