// The files of a generated run. They are read where they were made, and no read of them fails.
ghost use Rattle.std.specs.Prelude.{◌≡◌, IfOk};
ghost use Rattle.npf_ctl.specs.Generated.{HoldsWorkload, contents_of, generated_moment};

use npf_gen::{Workload, generate};
use npf_outside::{FileFault, Files, Parts};
use npf_types::NoMemory;
use std::alloc::Global;

/// The configuration `npf.conf`, the `script` and its capture `g.pcap`; a file of any other name is empty. None can be written.
#[derive(Drop)]
pub(crate) struct GeneratedFiles {
    workload: Workload,
    taken: u64,
    write_faults: u64,
}

impl GeneratedFiles {
    ghost use Rattle.std.specs.Prelude.{Some};
    ghost use Rattle.npf_ctl.specs.Generated.{HoldsWorkload, contents_of};

    /// The files of the run of this number.
    pub(crate) fn new(alloc: Global, number: u64) -> Result<GeneratedFiles, NoMemory>
        ensures { IfOk result (λ files. HoldsWorkload number (λ name. Some (contents_of files.workload name))) }
    {
        Ok(GeneratedFiles {
            workload: generate(alloc, number)?,
            taken: 0,
            write_faults: 0,
        })
    }

    fn contents(&self, name: &str) -> &[u8]
        ensures { result.now ≡ contents_of self.now.workload name.now }
    {
        match name {
            "npf.conf" => self.workload.conf.as_slice(),
            "script" => self.workload.script.as_slice(),
            "g.pcap" => self.workload.capture.as_slice(),
            _ => &[],
        }
    }
}

impl Files for GeneratedFiles {
    ghost moment = { generated_moment };

    fn read(&mut self, alloc: Global, name: &str, most: u64) -> Result<Vec<u8>, FileFault> {
        let contents = self.contents(name);
        if contents.len() as u64 > most {
            return Err(FileFault::Long);
        }
        let Ok(bytes) = Vec::from_slice(alloc, contents) else {
            return Err(FileFault::NoMemory);
        };
        self.taken = self.taken.saturating_add(bytes.len() as u64);
        Ok(bytes)
    }

    fn write(&mut self, _name: &str, _bytes: &[u8]) -> Result<(), FileFault> {
        self.write_faults = self.write_faults.saturating_add(1);
        Err(FileFault::Failed)
    }

    fn write_parts<P: Parts>(
        &mut self,
        _alloc: Global,
        _name: &str,
        _parts: &mut P,
    ) -> Result<(), FileFault> {
        self.write_faults = self.write_faults.saturating_add(1);
        Err(FileFault::Failed)
    }
}
