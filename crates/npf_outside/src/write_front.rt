// Bytes that are handed to a writer until it has them all, or refuses.
ghost use Rattle.std.specs.Prelude.{◌≡◌, ◌≤◌, length, take, OnOk};
ghost use Rattle.std.specs.Io.KnownBytes.{Appends};

use std::io::{Error, ErrorKind, Result as IoResult, Write};

/// How often a signal may interrupt the writes of some bytes.
const MOST_INTERRUPTIONS: u32 = 1_000;

/// Writes the bytes in their order: how many of them the writer took, and its refusal. A write that takes none is one, and an
/// interrupted write is tried again.
pub(crate) fn write_front<W: Write>(writer: &mut W, bytes: &[u8]) -> (usize, IoResult<()>)
    ensures bound { result.0 ≤ length bytes.now }
    ensures whole { OnOk result.1 (result.0 ≡ length bytes.now) }
    ensures taken { Appends (W.contents writer.old) (W.contents writer.new) (take result.0 bytes.now) }
{
    let mut taken = 0;
    let mut interruptions = 0;
    while taken < bytes.len() {
        match writer.write(&bytes[taken..]) {
            Ok(0) => return (taken, Err(Error::from(ErrorKind::WriteZero))),
            Ok(count) => taken += count,
            Err(error) => {
                if error.kind() != ErrorKind::Interrupted || interruptions >= MOST_INTERRUPTIONS {
                    return (taken, Err(error));
                }
                interruptions += 1;
            }
        }
    }
    (taken, Ok(()))
}
