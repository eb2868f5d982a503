// The files of a subject, from which each run has a copy.
use anyhow::{Context, Result};
use npf_outside::MemFiles;
use std::alloc::Global;

#[derive(Drop)]
struct File {
    name: String,
    bytes: Vec<u8>,
}

#[derive(Drop)]
pub struct Folder {
    alloc: Global,
    files: Vec<File>,
}

impl Folder {
    pub fn new(alloc: Global) -> Folder {
        Folder {
            alloc,
            files: Vec::new(alloc),
        }
    }

    /// Begins a file with these bytes, in place of one of its name.
    pub fn begin(&mut self, name: &str, bytes: Vec<u8>) -> Result<()> {
        self.files.retain(|file| file.name.as_str() != name);
        let name = String::from_str(self.alloc, name)?;
        self.files.push(File { name, bytes })?;
        Ok(())
    }

    /// Appends to the file that was begun last.
    pub fn append(&mut self, bytes: &[u8]) -> Result<()> {
        let file = self.files.last_mut().context("no file is begun")?;
        file.bytes.extend_from_slice(bytes)?;
        Ok(())
    }

    pub fn bytes(&self, name: &str) -> Result<&[u8]> {
        let mut named = self.files.iter().filter(|file| file.name.as_str() == name);
        let file = named.next().context("no such file")?;
        Ok(file.bytes.as_slice())
    }

    /// The files in memory.
    pub fn files(&self) -> Result<MemFiles> {
        let mut files = MemFiles::new(self.alloc)?;
        for file in &self.files {
            files.put_file(&file.name, &file.bytes)?;
        }
        Ok(files)
    }
}
