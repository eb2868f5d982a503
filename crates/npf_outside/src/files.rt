// What files are to those that read and write them.
//
// An object shows a moment, one ghost record, and a clause compares two of them. Told contents are a function from names to bytes, compared
// name by name: that only finitely many files are there isn't said, and nothing needs it. An answer that is Ok raises no count.
ghost use Rattle.std.specs.Prelude.{◌≡◌, ℕ, ◌≤◌, List, [], length, IfOk, OnOk, IsErrOf};
ghost use Rattle.npf_outside.specs.Counts.{Rose, count_after};
ghost use Rattle.npf_outside.specs.Files.{FilesMoment, Has, IsLonger, SameFiles, SameOthers, SameReadFaults};

use crate::parts::Parts;
use std::alloc::Global;

/// Why a file was not read or written.
#[derive(Clone, Copy, Debug, PartialEq, Eq)]
pub enum FileFault {
    /// The outside refused: the object's count of faults rose. A missing file is one.
    Failed,
    /// The file has more bytes than the caller allows.
    Long,
    NoMemory,
}

/// Files by name, read whole, and written whole or part by part. `moment` is what the object shows: the contents, if it tells them,
/// the counts of its failures, and the bytes that reads took. No count falls.
pub trait Files {
    ghost moment: { Self → FilesMoment };

    /// The whole file, of at most `most` bytes.
    fn read(&mut self, alloc: Global, name: &str, most: u64) -> Result<Vec<u8>, FileFault>
        ensures whole { IfOk result (λ bytes. Has (moment self.old).contents name.now bytes.items) }
        ensures fits { IfOk result (λ bytes. length bytes.items ≤ most) }
        ensures took { IfOk result (λ bytes. (moment self.new).taken
            ≡ count_after (moment self.old).taken (length bytes.items)) }
        ensures faultless { OnOk result (SameReadFaults (moment self.old) (moment self.new)) }
        ensures long { IsErrOf result FileFault.Long → IsLonger (moment self.old).contents name.now
            most (moment self.old).taken (moment self.new).taken }
        ensures failed { IsErrOf result FileFault.Failed
            → Rose (moment self.old).read_faults (moment self.new).read_faults }
        ensures failed_of { IsErrOf result FileFault.Failed → Rose
            ((moment self.old).read_faults_of name.now) ((moment self.new).read_faults_of name.now) }
        ensures reads { (moment self.old).read_faults ≤ (moment self.new).read_faults }
        ensures reads_of { (other : List ℕ) →
            (moment self.old).read_faults_of other ≤ (moment self.new).read_faults_of other }
        ensures writes { (moment self.new).write_faults ≡ (moment self.old).write_faults }
        ensures taken { (moment self.old).taken ≤ (moment self.new).taken }
        ensures same { (moment self.new).contents ≡ (moment self.old).contents };

    /// Replaces the file's contents. After `Failed` they are unknown, and all other files are as before; `Long` never comes.
    fn write(&mut self, name: &str, bytes: &[u8]) -> Result<(), FileFault>
        ensures whole { OnOk result (Has (moment self.new).contents name.now bytes.now) }
        ensures faultless { OnOk result ((moment self.new).write_faults ≡ (moment self.old).write_faults) }
        ensures short { IsErrOf result FileFault.Long → ⊥ }
        ensures failed { IsErrOf result FileFault.Failed
            → Rose (moment self.old).write_faults (moment self.new).write_faults }
        ensures memory { IsErrOf result FileFault.NoMemory
            → SameFiles (moment self.old).contents (moment self.new).contents }
        ensures others { SameOthers (moment self.old).contents (moment self.new).contents name.now }
        ensures writes { (moment self.old).write_faults ≤ (moment self.new).write_faults }
        ensures reads { SameReadFaults (moment self.old) (moment self.new) }
        ensures taken { (moment self.new).taken ≡ (moment self.old).taken };

    /// As `write`, of the parts put together in their order.
    fn write_parts<P: Parts>(
        &mut self,
        alloc: Global,
        name: &str,
        parts: &mut P,
    ) -> Result<(), FileFault>
        ensures whole { OnOk result (Has (moment self.new).contents name.now (P.rest parts.old)) }
        ensures given { OnOk result (P.rest parts.new ≡ []) }
        ensures faultless { OnOk result ((moment self.new).write_faults ≡ (moment self.old).write_faults) }
        ensures short { IsErrOf result FileFault.Long → ⊥ }
        ensures failed { IsErrOf result FileFault.Failed
            → Rose (moment self.old).write_faults (moment self.new).write_faults }
        ensures memory { IsErrOf result FileFault.NoMemory
            → SameFiles (moment self.old).contents (moment self.new).contents }
        ensures others { SameOthers (moment self.old).contents (moment self.new).contents name.now }
        ensures writes { (moment self.old).write_faults ≤ (moment self.new).write_faults }
        ensures reads { SameReadFaults (moment self.old) (moment self.new) }
        ensures taken { (moment self.new).taken ≡ (moment self.old).taken };
}
