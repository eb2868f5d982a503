// A file that was read before it was asked for.
ghost use Rattle.std.specs.Prelude.{◌≡◌, ◌≤◌, ◌↔◌, length, take, IsTrue, IfSome, IfOk, IsOk};
ghost use Rattle.npf_outside.specs.Counts.{count_after};

use crate::read_front::read_front;
use npf_types::{List, Text};
use std::alloc::Global;
use std::fs::OpenFile;
use std::io::{Read, Result as IoResult};

/// A file's name and its bytes, as they were when it was read.
#[derive(Drop)]
pub(crate) struct FileAhead {
    name: Text,
    bytes: Vec<u8>,
}

impl FileAhead {
    /// All that what was opened has left, under this name; none where it wasn't opened, can't be read or has more than `most` bytes, or
    /// where memory runs out.
    pub(crate) fn of<S: Read + OpenFile + Drop>(
        alloc: Global,
        name: &str,
        opened: IoResult<S>,
        most: u64,
    ) -> Option<FileAhead>
        ensures opened { IfSome result (λ _. IsOk opened) }
        ensures named { IfSome result (λ file. file.name ≡ name.now) }
        ensures whole { IfSome result (λ file. IfOk opened (λ source. IfSome (S.remaining source)
            (λ left. file.bytes.items ≡ take (count_after most 1) left))) }
        ensures fits { IfSome result (λ file. length file.bytes.items ≤ most) }
    {
        let mut bytes = Vec::new(alloc);
        read_front(opened.ok()?, most, &mut bytes).ok()?;
        if bytes.len() as u64 > most {
            return None;
        }
        let name = List::of_vec(Vec::from_slice(alloc, name.as_bytes()).ok()?);
        Some(FileAhead { name, bytes })
    }

    /// Whether it is the file of this name.
    pub(crate) fn has_name(&self, name: &str) -> bool
        ensures { IsTrue result ↔ (self.now.name ≡ name.now) }
    {
        self.name.as_slice() == name.as_bytes()
    }

    /// Its bytes.
    pub(crate) fn into_bytes(self) -> Vec<u8>
        ensures { result ≡ self.bytes }
    {
        self.bytes
    }
}
