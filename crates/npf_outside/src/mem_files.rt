// Files in memory. The name of a failed read is noted; where memory runs out for the note, it does so for the read.
ghost use Rattle.std.specs.Prelude.{◌≡◌, ◌⊎◌, ◌++◌, [], ◌∷◌, ℕ, ◌<◌, ◌≤◌, List, Some, length, IfOk, OnOk, OnErr, IsErrOf};
ghost use Rattle.npf_outside.specs.Calls.{planned, next_call};
ghost use Rattle.npf_outside.specs.Counts.{Rose, count_after};
ghost use Rattle.npf_outside.specs.Files.{Has, IsLonger, SameFiles, SameOthers, SameReadFaults};

use crate::calls::Calls;
use crate::files::{FileFault, Files};
use crate::parts::{Parts, gather};
use npf_types::NoMemory;
use std::alloc::Global;
use std::collections::BTreeMap;

/// Files in memory, for tests and for input that is made and not read. Calls, of reads and writes together, are
/// numbered from 1, and those that were named to `fail` do so, as does each read of a missing file.
#[derive(Drop)]
pub struct MemFiles {
    alloc: Global,
    files: BTreeMap<String, Vec<u8>>,
    calls: Calls,
    /// The name of each read that failed.
    unread: Vec<String>,
    write_faults: u64,
    taken: u64,
}

impl MemFiles {
    ghost use Rattle.npf_outside.specs.MemFiles.{tree_of, unread_names, times, IsNewFiles, SameCounts};

    /// No files, no faults and no calls that are to fail.
    pub fn new(alloc: Global) -> Result<MemFiles, NoMemory>
        ensures { IfOk result IsNewFiles }
    {
        Ok(MemFiles {
            alloc,
            files: BTreeMap::new(alloc),
            calls: Calls::new(alloc),
            unread: Vec::new(alloc),
            write_faults: 0,
            taken: 0,
        })
    }

    /// Adds or replaces one file. It counts as no call.
    pub fn put_file(&mut self, name: &str, bytes: &[u8]) -> Result<(), NoMemory>
        ensures put { OnOk result (tree_of self.new name.now ≡ Some bytes.now) }
        ensures others { SameOthers (Some (tree_of self.old)) (Some (tree_of self.new)) name.now }
        ensures err { OnErr result (SameFiles (Some (tree_of self.old)) (Some (tree_of self.new))) }
        ensures counts { SameCounts self.old self.new }
        ensures plan { planned self.new.calls ≡ planned self.old.calls }
    {
        let name = String::from_str(self.alloc, name)?;
        let bytes = Vec::from_slice(self.alloc, bytes)?;
        self.files.insert(name, bytes)?;
        Ok(())
    }

    /// Makes the call of this number fail.
    pub fn fail(&mut self, call: u64) -> Result<(), NoMemory>
        ensures planned { OnOk result (planned self.new.calls ≡ planned self.old.calls ++ call ∷ []) }
        ensures err { OnErr result (planned self.new.calls ≡ planned self.old.calls) }
        ensures files { SameFiles (Some (tree_of self.old)) (Some (tree_of self.new)) }
        ensures counts { SameCounts self.old self.new }
    {
        self.calls.plan(call)
    }

    /// Notes that a read of this name failed.
    fn note_unread(&mut self, name: &str) -> Result<(), NoMemory>
        ensures noted { OnOk result (unread_names self.new ≡ unread_names self.old ++ name.now ∷ []) }
        ensures rose { OnOk result
            (Rose (times (unread_names self.old) name.now) (times (unread_names self.new) name.now)) }
        ensures err { OnErr result (unread_names self.new ≡ unread_names self.old) }
        ensures others { self.new ≡ record self.old { unread = self.new.unread } }
    {
        let name = String::from_str(self.alloc, name)?;
        self.unread.push(name)?;
        Ok(())
    }
}

impl Files for MemFiles {
    ghost use Rattle.npf_outside.specs.MemFiles.{tree_of, unread_names, times, files_moment, FailsRead, IsWrite};

    ghost moment = { files_moment };

    fn read(&mut self, alloc: Global, name: &str, most: u64) -> Result<Vec<u8>, FileFault>
        ensures whole { IfOk result (λ bytes. Has (Some (tree_of self.old)) name.now bytes.items) }
        ensures fits { IfOk result (λ bytes. length bytes.items ≤ most) }
        ensures took { IfOk result (λ bytes. self.new.taken ≡ count_after self.old.taken (length bytes.items)) }
        ensures faultless { OnOk result (SameReadFaults (files_moment self.old) (files_moment self.new)) }
        ensures long { IsErrOf result FileFault.Long
            → IsLonger (Some (tree_of self.old)) name.now most self.old.taken self.new.taken }
        ensures failed { IsErrOf result FileFault.Failed
            → Rose (length (unread_names self.old)) (length (unread_names self.new)) }
        ensures failed_of { IsErrOf result FileFault.Failed
            → Rose (times (unread_names self.old) name.now) (times (unread_names self.new) name.now) }
        ensures reads { length (unread_names self.old) ≤ length (unread_names self.new) }
        ensures reads_of { (other : List ℕ)
            → times (unread_names self.old) other ≤ times (unread_names self.new) other }
        ensures writes { self.new.write_faults ≡ self.old.write_faults }
        ensures taken { self.old.taken ≤ self.new.taken }
        ensures same { self.new.files ≡ self.old.files }
        ensures noted { IsErrOf result FileFault.Failed
            → unread_names self.new ≡ unread_names self.old ++ name.now ∷ [] }
        ensures unnoted { (IsErrOf result FileFault.Failed → ⊥) → unread_names self.new ≡ unread_names self.old }
        ensures refuses { FailsRead self.old name.now
            → IsErrOf result FileFault.Failed ⊎ IsErrOf result FileFault.NoMemory }
        ensures only { IsErrOf result FileFault.Failed → FailsRead self.old name.now }
        ensures plan { planned self.new.calls ≡ planned self.old.calls }
        ensures calls { self.new.calls.made ≡ next_call self.old.calls }
    {
        let failing = self.calls.begin();
        match self.files.get(name) {
            Some(bytes) if !failing => {
                self.taken = self.taken.saturating_add(bytes.len() as u64);
                copy_of(alloc, bytes.as_slice(), most)
            }
            _ => match self.note_unread(name) {
                Ok(()) => Err(FileFault::Failed),
                Err(NoMemory) => Err(FileFault::NoMemory),
            },
        }
    }

    fn write(&mut self, name: &str, bytes: &[u8]) -> Result<(), FileFault>
        ensures write { IsWrite self.old self.new name.now result }
        ensures whole { OnOk result (Has (Some (tree_of self.new)) name.now bytes.now) }
    {
        if self.calls.begin() {
            self.write_faults = self.write_faults.saturating_add(1);
            return Err(FileFault::Failed);
        }
        match self.put_file(name, bytes) {
            Ok(()) => Ok(()),
            Err(NoMemory) => Err(FileFault::NoMemory),
        }
    }

    fn write_parts<P: Parts>(
        &mut self,
        alloc: Global,
        name: &str,
        parts: &mut P,
    ) -> Result<(), FileFault>
        ensures write { IsWrite self.old self.new name.now result }
        ensures whole { OnOk result (Has (Some (tree_of self.new)) name.now (P.rest parts.old)) }
        ensures given { OnOk result (P.rest parts.new ≡ []) }
    {
        if self.calls.begin() {
            self.write_faults = self.write_faults.saturating_add(1);
            return Err(FileFault::Failed);
        }
        let Ok(bytes) = gather(alloc, parts) else {
            return Err(FileFault::NoMemory);
        };
        match self.put_file(name, bytes.as_slice()) {
            Ok(()) => Ok(()),
            Err(NoMemory) => Err(FileFault::NoMemory),
        }
    }
}

/// The bytes, of at most `most`.
fn copy_of(alloc: Global, bytes: &[u8], most: u64) -> Result<Vec<u8>, FileFault>
    ensures whole { IfOk result (λ copy. copy.items ≡ bytes.now) }
    ensures fits { OnOk result (length bytes.now ≤ most) }
    ensures long { IsErrOf result FileFault.Long → most < length bytes.now }
    ensures failed { IsErrOf result FileFault.Failed → ⊥ }
{
    if bytes.len() as u64 > most {
        return Err(FileFault::Long);
    }
    match Vec::from_slice(alloc, bytes) {
        Ok(copy) => Ok(copy),
        Err(_) => Err(FileFault::NoMemory),
    }
}
