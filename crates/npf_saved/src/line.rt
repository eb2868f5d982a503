// What a line is. A line is spelled again from what it was taken for, and is that only where both
// are the same.
ghost use Rattle.std.specs.Prelude.{IfOk};
ghost use Rattle.npf_types.specs.Reading.{IsReading};
ghost use Rattle.npf_saved.specs.File.{IsConnLine, IsIfLine};

use crate::guess_flow::guess_conn;
use crate::saved::Saved;
use crate::spelling::{write_conn, write_if};
use crate::words::cut;
use npf_types::{Name, NoMemory};
use std::alloc::Global;

/// The connection whose line this is, without its line feed; None where it is none's.
pub fn conn_of_line(alloc: Global, line: &[u8]) -> Result<Option<Saved>, NoMemory>
    ensures { IfOk result (IsReading IsConnLine line.now) }
{
    let saved = guess_conn(line);
    let mut spelled = Vec::with_capacity(alloc, line.len())?;
    write_conn(&mut spelled, &saved)?;
    if spelled.as_slice() == line {
        return Ok(Some(saved));
    }
    Ok(None)
}

/// The interface whose line this is, without its line feed; None where it is none's.
pub fn if_of_line(alloc: Global, line: &[u8]) -> Result<Option<Name>, NoMemory>
    ensures { IfOk result (IsReading IsIfLine line.now) }
{
    let (_, bytes) = cut(line, b' ');
    let Some(name) = Name::of(bytes) else {
        return Ok(None);
    };
    let mut written = Vec::new(alloc);
    write_if(&mut written, name)?;
    if written.as_slice() == line {
        return Ok(Some(name));
    }
    Ok(None)
}
