// Bytes that are given part by part, so that they needn't be in memory as one. The room for a part is made before a file is opened, so that
// a file stays as it was where memory runs out for it.
ghost use Rattle.std.specs.Prelude.{◌≡◌, ℕ, ◌+◌, ◌≤◌, List, [], IfOk, OnOk, vec_len, vec_capacity};
ghost use Rattle.std.specs.Io.KnownBytes.{Appends};
ghost use Rattle.npf_outside.specs.Parts.{GivesPart};

use crate::write_front::write_front;
use npf_types::NoMemory;
use npf_types::limits::MAX_PACKET_BYTES;
use std::alloc::Global;
use std::io::{Result as IoResult, Write};

/// How many bytes a part has at most: one that ends with the first record past 64 KiB, a packet behind a header of 16 bytes.
pub const PART_ROOM: usize = 65_536 + 16 + MAX_PACKET_BYTES;

/// Bytes that are given part by part, in their order. `rest` is what is still to be given.
pub trait Parts {
    ghost rest: { Self → List ℕ };

    /// Appends the next part, which isn't empty unless all was given. It takes no memory.
    fn next(&mut self, part: &mut Vec<u8>)
        requires { vec_len part.old + PART_ROOM ≤ vec_capacity part.old }
        ensures gives { GivesPart (rest self.old) (rest self.new) part.old.items part.new.items }
        ensures room { vec_capacity part.old ≤ vec_capacity part.new };
}

/// The parts put together.
pub(crate) fn gather<P: Parts>(alloc: Global, parts: &mut P) -> Result<Vec<u8>, NoMemory>
    ensures whole { IfOk result (λ bytes. bytes.items ≡ P.rest parts.old) }
    ensures given { OnOk result (P.rest parts.new ≡ []) }
{
    let mut bytes = Vec::new(alloc);
    loop {
        let before = bytes.len();
        bytes.reserve(PART_ROOM)?;
        parts.next(&mut bytes);
        if bytes.len() == before {
            return Ok(bytes);
        }
    }
}

/// Writes the parts in their order, each by way of the page.
pub(crate) fn write_each<W: Write, P: Parts>(
    writer: &mut W,
    parts: &mut P,
    page: &mut Vec<u8>,
) -> IoResult<()>
    requires { PART_ROOM ≤ vec_capacity page.old }
    ensures whole { OnOk result (Appends (W.contents writer.old) (W.contents writer.new) (P.rest parts.old)) }
    ensures given { OnOk result (P.rest parts.new ≡ []) }
{
    loop {
        page.clear();
        parts.next(page);
        if page.is_empty() {
            return Ok(());
        }
        let (_, written) = write_front(writer, page.as_slice());
        written?;
    }
}
