// A file of saved connections, written line by line.
ghost use Rattle.std.specs.Prelude.{◌≡◌, ◌++◌, IfOk, OnOk};
ghost use Rattle.npf_saved.specs.File.{conn_lines, ended_line, name_lines, saved_text};
ghost use Rattle.npf_saved.specs.Spelling.{conn_line};

use crate::saved::Saved;
use crate::spelling::{write_conn, write_if};
use npf_types::{Name, NoMemory};
use std::alloc::Global;

/// The first line of a file.
const HEAD: &[u8] = b"npf-connections 1";

/// The text of these interfaces and connections, in their order.
pub fn saved_text(alloc: Global, names: &[Name], conns: &[Saved]) -> Result<Vec<u8>, NoMemory>
    ensures { IfOk result (λ text. text.items ≡ saved_text names.now conns.now) }
{
    let mut text = Vec::new(alloc);
    text.extend_from_slice(HEAD)?;
    text.push(b'\n')?;
    write_names(&mut text, names)?;
    write_conns(&mut text, conns)?;
    Ok(text)
}

fn write_names(into: &mut Vec<u8>, names: &[Name]) -> Result<(), NoMemory>
    ensures { OnOk result (into.new.items ≡ into.old.items ++ name_lines names.now) }
{
    for name in names {
        write_if(into, *name)?;
        into.push(b'\n')?;
    }
    Ok(())
}

fn write_conns(into: &mut Vec<u8>, conns: &[Saved]) -> Result<(), NoMemory>
    ensures { OnOk result (into.new.items ≡ into.old.items ++ conn_lines conns.now) }
{
    for saved in conns {
        write_conn_line(into, saved)?;
    }
    Ok(())
}

fn write_conn_line(into: &mut Vec<u8>, saved: &Saved) -> Result<(), NoMemory>
    ensures { OnOk result (into.new.items ≡ into.old.items ++ ended_line (conn_line saved.now)) }
{
    write_conn(into, saved)?;
    into.push(b'\n')?;
    Ok(())
}
