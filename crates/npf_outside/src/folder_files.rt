// The files of the system.
//
// One count of failed reads serves all names, since one for each would want memory at the very read that fails.
ghost use Rattle.std.specs.Prelude.{◌≡◌, ◌≢◌, ◌↔◌, ◌<◌, ◌≤◌, [], true, None, length, take, is_ok, vec_capacity, IfSome, IfOk, IsOk, OnOk, IsErrOf};
ghost use Rattle.std.specs.IoError.{error_kind};
ghost use Rattle.std.specs.Fs.{new_options, with_create, with_truncate, with_write};
ghost use Rattle.npf_outside.specs.Ahead.{IsAhead};
ghost use Rattle.npf_outside.specs.Counts.{Rose, RoseByMore, count_after};
ghost use Rattle.npf_outside.specs.Opened.{TookBytes};

use crate::file_ahead::FileAhead;
use crate::files::{FileFault, Files};
use crate::parts::{PART_ROOM, Parts, write_each};
use crate::read_front::read_front;
use crate::write_front::write_front;
use std::alloc::Global;
use std::fs::{self, OpenFile, OpenOptions};
use std::io::{Error, ErrorKind, Read, Result as IoResult, Write};
use std::rt;

/// The files of the system, by paths from the current folder. It tells no contents, and counts the reads that failed for
/// all names together. One file may have been read ahead: the first read of its name is given those bytes.
#[derive(Drop)]
pub struct FolderFiles<'a, R: rt::Files> {
    rt: &'a R,
    ahead: Option<FileAhead>,
    read_faults: u64,
    write_faults: u64,
    taken: u64,
}

impl<'a, R: rt::Files> FolderFiles<'a, R> {
    /// No faults yet, and nothing taken.
    pub fn new(rt: &'a R) -> FolderFiles<'a, R>
        ensures read_faults { result.read_faults ≡ 0 }
        ensures write_faults { result.write_faults ≡ 0 }
        ensures taken { result.taken ≡ 0 }
    {
        FolderFiles {
            rt,
            ahead: None,
            read_faults: 0,
            write_faults: 0,
            taken: 0,
        }
    }

    /// Reads the file ahead of the call that asks for it, in place of any that was read ahead before. A file that is no regular one, such as a
    /// pipe, isn't opened, since that may wait for whoever writes to it. Where the file can't be read, has more than `most` bytes or memory runs
    /// out, it is read when it is asked for, and refused then.
    pub fn read_ahead(&mut self, alloc: Global, name: &str, most: u64)
        ensures read_faults { self.new.read_faults ≡ self.old.read_faults }
        ensures write_faults { self.new.write_faults ≡ self.old.write_faults }
        ensures taken { self.new.taken ≡ self.old.taken }
    {
        self.ahead = match fs::metadata(self.rt, name) {
            Ok(metadata) if metadata.is_file() && metadata.len() <= most => {
                FileAhead::of(alloc, name, fs::open(self.rt, name), most)
            }
            _ => None,
        };
    }

    /// The bytes that were read ahead, if they are those of the file of this name. They are given once.
    fn take_ahead(&mut self, name: &str) -> Option<Vec<u8>>
        ensures named { IfSome result (λ bytes. IsAhead self.old.ahead name.now bytes.items) }
        ensures once { IfSome result (λ _. self.new.ahead ≡ None) }
        ensures others { self.new ≡ record self.old { ahead = self.new.ahead } }
    {
        match self.ahead.take() {
            Some(file) if file.has_name(name) => Some(file.into_bytes()),
            other => {
                self.ahead = other;
                None
            }
        }
    }

    /// What comes of reading what was opened, or was not: all that it had left, of at most `most` bytes. The bytes are counted, and so is
    /// a failure.
    fn read_opened<S: Read + OpenFile + Drop>(
        &mut self,
        alloc: Global,
        opened: IoResult<S>,
        most: u64,
    ) -> Result<Vec<u8>, FileFault>
        ensures opened { OnOk result (IsOk opened) }
        ensures whole { IfOk result (λ bytes. IfOk opened (λ source. IfSome (S.remaining source)
            (λ left. bytes.items ≡ take (count_after most 1) left))) }
        ensures fits { IfOk result (λ bytes. length bytes.items ≤ most) }
        ensures long { IsErrOf result FileFault.Long → RoseByMore most self.old.taken self.new.taken }
        ensures failed { IsErrOf result FileFault.Failed → Rose self.old.read_faults self.new.read_faults }
        ensures faultless { OnOk result (self.new.read_faults ≡ self.old.read_faults) }
        ensures reads { self.old.read_faults ≤ self.new.read_faults }
        ensures took { IfOk result (λ bytes. self.new.taken ≡ count_after self.old.taken (length bytes.items)) }
        ensures taken { self.old.taken ≤ self.new.taken }
        ensures writes { self.new.write_faults ≡ self.old.write_faults }
    {
        let mut bytes = Vec::new(alloc);
        let done = match opened {
            Ok(source) => read_front(source, most, &mut bytes),
            Err(error) => Err(error),
        };
        self.read_of(bytes, done, most)
    }

    /// What a read came to that took these bytes.
    fn read_of(
        &mut self,
        bytes: Vec<u8>,
        done: IoResult<()>,
        most: u64,
    ) -> Result<Vec<u8>, FileFault>
        ensures whole { IfOk result (λ all. (all.items ≡ bytes.items) × IsOk done) }
        ensures fits { IfOk result (λ all. length all.items ≤ most) }
        ensures long { IsErrOf result FileFault.Long → most < length bytes.items }
        ensures failed { IsErrOf result FileFault.Failed → Rose self.old.read_faults self.new.read_faults }
        ensures faultless { OnOk result (self.new.read_faults ≡ self.old.read_faults) }
        ensures reads { self.old.read_faults ≤ self.new.read_faults }
        ensures took { self.new.taken ≡ count_after self.old.taken (length bytes.items) }
        ensures taken { self.old.taken ≤ self.new.taken }
        ensures writes { self.new.write_faults ≡ self.old.write_faults }
    {
        self.taken = self.taken.saturating_add(bytes.len() as u64);
        if bytes.len() as u64 > most {
            return Err(FileFault::Long);
        }
        match done {
            Ok(()) => Ok(bytes),
            Err(error) => {
                self.read_faults = self.read_faults.saturating_add(1);
                Err(fault_of(&error))
            }
        }
    }

    /// What comes of writing the bytes to what was opened, or was not. A failure is counted.
    fn write_opened<W: Write>(
        &mut self,
        opened: &mut IoResult<W>,
        bytes: &[u8],
    ) -> Result<(), FileFault>
        ensures whole { OnOk result (TookBytes W.contents opened.old opened.new bytes.now) }
        ensures faultless { OnOk result (self.new ≡ self.old) }
        ensures short { IsErrOf result FileFault.Long → ⊥ }
        ensures failed { IsErrOf result FileFault.Failed → Rose self.old.write_faults self.new.write_faults }
        ensures writes { self.old.write_faults ≤ self.new.write_faults }
        ensures others { self.new ≡ record self.old { write_faults = self.new.write_faults } }
    {
        let done = match opened {
            Ok(writer) => fault_if_any(&write_front(writer, bytes).1),
            Err(error) => Err(fault_of(error)),
        };
        self.write_of(done)
    }

    /// As `write_opened`, of the parts put together in their order, each by way of the page.
    fn write_parts_opened<W: Write, P: Parts>(
        &mut self,
        opened: &mut IoResult<W>,
        parts: &mut P,
        page: &mut Vec<u8>,
    ) -> Result<(), FileFault>
        requires { PART_ROOM ≤ vec_capacity page.old }
        ensures whole { OnOk result (TookBytes W.contents opened.old opened.new (P.rest parts.old)) }
        ensures given { OnOk result (P.rest parts.new ≡ []) }
        ensures faultless { OnOk result (self.new ≡ self.old) }
        ensures short { IsErrOf result FileFault.Long → ⊥ }
        ensures failed { IsErrOf result FileFault.Failed → Rose self.old.write_faults self.new.write_faults }
        ensures writes { self.old.write_faults ≤ self.new.write_faults }
        ensures others { self.new ≡ record self.old { write_faults = self.new.write_faults } }
    {
        let done = match opened {
            Ok(writer) => fault_if_any(&write_each(writer, parts, page)),
            Err(error) => Err(fault_of(error)),
        };
        self.write_of(done)
    }

    /// What a write came to, whose failure is counted.
    fn write_of(&mut self, done: Result<(), FileFault>) -> Result<(), FileFault>
        ensures done { result ≡ done }
        ensures faultless { OnOk result (self.new ≡ self.old) }
        ensures failed { IsErrOf result FileFault.Failed → Rose self.old.write_faults self.new.write_faults }
        ensures writes { self.old.write_faults ≤ self.new.write_faults }
        ensures others { self.new ≡ record self.old { write_faults = self.new.write_faults } }
    {
        if done.is_err() {
            self.write_faults = self.write_faults.saturating_add(1);
        }
        done
    }
}

// What opens a file is one expression of each method. What is done with what was opened is proved of every stream (`read_opened`, `write_opened`,
// `write_parts_opened`).
impl<'a, R: rt::Files> Files for FolderFiles<'a, R> {
    ghost moment = { λ files. record {
      contents = None;
      read_faults = files.read_faults;
      read_faults_of = λ _. files.read_faults;
      write_faults = files.write_faults;
      taken = files.taken;
    } };

    fn read(&mut self, alloc: Global, name: &str, most: u64) -> Result<Vec<u8>, FileFault> {
        match self.take_ahead(name) {
            Some(bytes) => self.read_of(bytes, Ok(()), most),
            None => self.read_opened(alloc, fs::open(self.rt, name), most),
        }
    }

    /// What was read ahead may be of the file that is written, so it is dropped.
    fn write(&mut self, name: &str, bytes: &[u8]) -> Result<(), FileFault> {
        self.ahead = None;
        self.write_opened(&mut replacing().open(self.rt, name), bytes)
    }

    /// The room for a part is made before the file is opened. What was read ahead is dropped, as by `write`.
    fn write_parts<P: Parts>(
        &mut self,
        alloc: Global,
        name: &str,
        parts: &mut P,
    ) -> Result<(), FileFault> {
        let Ok(mut page) = Vec::with_capacity(alloc, PART_ROOM) else {
            return Err(FileFault::NoMemory);
        };
        self.ahead = None;
        self.write_parts_opened(&mut replacing().open(self.rt, name), parts, &mut page)
    }
}

/// How a file is opened whose contents are replaced: it is made where it is missing, and emptied where it is there.
fn replacing() -> OpenOptions
    ensures { result ≡ with_truncate (with_create (with_write new_options true) true) true }
{
    let mut options = OpenOptions::new();
    options.write(true).create(true).truncate(true);
    options
}

/// The fault of what failed, if it did.
fn fault_if_any(done: &IoResult<()>) -> Result<(), FileFault>
    ensures done { is_ok result ≡ is_ok done.now }
    ensures short { IsErrOf result FileFault.Long → ⊥ }
{
    match done {
        Ok(()) => Ok(()),
        Err(error) => Err(fault_of(error)),
    }
}

/// Want of memory is told apart from a refusal of the system.
fn fault_of(error: &Error) -> FileFault
    ensures memory { (result ≡ FileFault.NoMemory) ↔ (error_kind error.now ≡ ErrorKind.OutOfMemory) }
    ensures short { result ≢ FileFault.Long }
{
    if error.kind() == ErrorKind::OutOfMemory {
        FileFault::NoMemory
    } else {
        FileFault::Failed
    }
}
