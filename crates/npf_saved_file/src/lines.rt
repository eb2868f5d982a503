// The lines of a saved file, taken one behind the other.
ghost use Rattle.std.specs.Prelude.{◌≡◌, ◌≤◌, [], IfErr, IfOk, List, MatchOption, length, position, ℕ};
ghost use Rattle.npf_types.specs.Reading.{IsOnly};
ghost use Rattle.npf_saved.specs.File.{IsIfLine};
ghost use Rattle.npf_saved.specs.Spelling.{head_line};
ghost use Rattle.npf_saved_file.specs.File.{IsFirstLine, IsOnlySavedFile, is_line_feed};
ghost use Rattle.npf_saved_file.specs.Lines.{AreTaken, IsNoInterface, TakesLine};
ghost use Rattle.npf_saved_file.specs.Refusal.{RefusesLines};

use crate::conns::add_conn;
use crate::fault::SavedFault;
use npf_saved::{Saved, conn_of_line, if_of_line};
use npf_types::limits::MAX_SAVED_BYTES;
use npf_types::{Key, Name, NoMemory};
use std::alloc::Global;
use std::collections::HashSet;

/// The first line of a file.
const HEAD: &[u8] = b"npf-connections 1";

/// What the lines that were taken say, and the keys of the connections among them.
#[derive(Drop)]
pub(crate) struct Lines {
    pub names: Vec<Name>,
    pub conns: Vec<Saved>,
    pub keys: HashSet<Key>,
}

/// Takes all lines of the text. Refused with `BadSaved` at the first that is bad, or for want of
/// memory.
pub(crate) fn take_lines(alloc: Global, text: &[u8]) -> Result<Lines, SavedFault>
    requires { length text.now ≤ MAX_SAVED_BYTES }
    ensures ok { IfOk result (λ lines. IsOnlySavedFile text.now lines.names.items lines.conns.items) }
    ensures err { IfErr result (RefusesLines text.now) }
{
    let mut number = 1u32;
    let Some(mut rest) = behind_head(text) else {
        return Err(SavedFault::BadSaved { line: number });
    };
    let mut lines = Lines {
        names: Vec::new(alloc),
        conns: Vec::new(alloc),
        keys: HashSet::new(alloc),
    };
    while !rest.is_empty() {
        number += 1;
        let Some((line, behind)) = first_line(rest) else {
            return Err(SavedFault::BadSaved { line: number });
        };
        if !lines.take(alloc, line)? {
            return Err(SavedFault::BadSaved { line: number });
        }
        rest = behind;
    }
    Ok(lines)
}

/// What stands behind the head; None where the text doesn't begin with it.
fn behind_head(text: &[u8]) -> Option<&[u8]>
    ensures { MatchOption result
        ((behind : List ℕ) → ¬ IsFirstLine text.now head_line behind)
        (λ behind. IsFirstLine text.now head_line behind.now) }
{
    let Some((line, behind)) = first_line(text) else {
        return None;
    };
    if line == HEAD {
        return Some(behind);
    }
    None
}

/// The first line without its line feed, and what stands behind that; None where there is no line
/// feed.
fn first_line(text: &[u8]) -> Option<(&[u8], &[u8])>
    ensures { MatchOption result
        ((line behind : List ℕ) → ¬ IsFirstLine text.now line behind)
        (λ parts. IsFirstLine text.now parts.0.now parts.1.now) }
{
    let Some(at) = line_feed_place(text) else {
        return None;
    };
    Some((&text[..at], &text[at + 1..]))
}

fn line_feed_place(text: &[u8]) -> Option<usize>
    ensures { result ≡ position is_line_feed text.now }
{
    text.iter().position(|byte| *byte == b'\n')
}

impl Lines {
    /// Takes the line. False where it may not stand behind those that were taken.
    fn take(&mut self, alloc: Global, line: &[u8]) -> Result<bool, NoMemory>
        requires { AreTaken self.old }
        ensures { IfOk result (TakesLine self.old line.now self.new) }
    {
        match next_interface(alloc, &self.conns, line)? {
            Some(name) => {
                self.names.push(name)?;
                Ok(true)
            }
            None => self.take_conn(alloc, line),
        }
    }

    /// Takes the line, which isn't that of an interface where one may stand.
    fn take_conn(&mut self, alloc: Global, line: &[u8]) -> Result<bool, NoMemory>
        requires taken { AreTaken self.old }
        requires other { IsNoInterface self.old.conns.items line.now }
        ensures { IfOk result (TakesLine self.old line.now self.new) }
    {
        match conn_of_line(alloc, line)? {
            None => Ok(false),
            Some(saved) => add_conn(&mut self.conns, &mut self.keys, saved),
        }
    }
}

/// The interface whose line this is, if no connection stands before it.
fn next_interface(alloc: Global, conns: &[Saved], line: &[u8]) -> Result<Option<Name>, NoMemory>
    ensures { IfOk result (λ found. MatchOption found
        (IsNoInterface conns.now line.now)
        (λ name. (conns.now ≡ []) × IsOnly IsIfLine line.now name)) }
{
    if !conns.is_empty() {
        return Ok(None);
    }
    if_of_line(alloc, line)
}
