// The file of a run's interfaces and their addresses.
ghost use Rattle.std.specs.Prelude.{◌≡◌, ◌≤◌, IfOk, IfErr, List, MatchOption, length, map, position};
ghost use Rattle.std.specs.List.{before_first, filter, list_all, slice_split};
ghost use Rattle.npf_types.specs.AddressText.{IsAddressText};
ghost use Rattle.npf_expand_interfaces.specs.IfaceFile.{Each, IsIfaceFile, IsIfaceLine, RefusesIfaces, has_some, is_blank, is_hash, is_space, line_words};

use npf_faults::{ConfFault, Fault, Refused};
use npf_model::{Iface, Ifaces};
use npf_types::limits::MAX_TEXT_BYTES;
use npf_types::{Addr, List, Name, NoMemory, Span};
use std::alloc::Global;
use std::collections::HashSet;

/// What a line is.
#[derive(Drop)]
pub(crate) enum IfaceLine {
    Blank,
    Interface(Iface),
    Bad,
}

/// Reads the file of a run's interfaces, of at most `MAX_TEXT_BYTES` bytes: on each line a name and its addresses, parted by
/// spaces. Blank lines are skipped, and comments from `#` to a line's end. Refused with `BadIfaceFile` at the first byte of the
/// first line that is none of these or names an interface again, or for want of memory.
pub fn read_ifaces(alloc: Global, text: &[u8]) -> Result<Ifaces, Refused>
    requires { length text.now ≤ MAX_TEXT_BYTES }
    ensures ok { IfOk result (λ ifaces. IsIfaceFile text.now ifaces.list) }
    ensures err { IfErr result (RefusesIfaces text.now) }
{
    let mut ifaces = Vec::new(alloc);
    let mut names = HashSet::new(alloc);
    let mut number = 0u32;
    let mut at = 0u32;
    for line in text.split(|byte| *byte == b'\n') {
        let start = at;
        at += line.len() as u32 + 1;
        number += 1;
        match read_line(alloc, line)? {
            IfaceLine::Blank => {}
            IfaceLine::Interface(iface) => {
                if !names.insert(iface.name)? {
                    return Err(bad_line(number, start));
                }
                ifaces.push(iface)?;
            }
            IfaceLine::Bad => return Err(bad_line(number, start)),
        }
    }
    Ok(Ifaces {
        list: List::of_vec(ifaces),
    })
}

fn bad_line(number: u32, at: u32) -> Refused
    ensures { result ≡ Refused.Fault (record {
      span = record { line = number; col = 1; at = at; len = 1 };
      fault = Fault.BadIfaceFile;
    }) }
{
    let span = Span {
        line: number,
        col: 1,
        at,
        len: 1,
    };
    Refused::Fault(ConfFault {
        span,
        fault: Fault::BadIfaceFile,
    })
}

fn read_line(alloc: Global, line: &[u8]) -> Result<IfaceLine, NoMemory>
    ensures { IfOk result (IsIfaceLine (line_words line.now)) }
{
    let words = line_words(alloc, line)?;
    let Some((first, rest)) = words.split_first() else {
        return Ok(IfaceLine::Blank);
    };
    let Some(name) = Name::of(first) else {
        return Ok(IfaceLine::Bad);
    };
    match addresses(alloc, rest)? {
        Some(addrs) => Ok(IfaceLine::Interface(Iface { name, addrs })),
        None => Ok(IfaceLine::Bad),
    }
}

/// The words of a line before its comment, of which a blank line has none.
fn line_words(alloc: Global, line: &[u8]) -> Result<Vec<&[u8]>, NoMemory>
    ensures { IfOk result (λ words. map (λ word. word.now) words.items ≡ line_words line.now) }
{
    let text = before_comment(line);
    if is_blank(text) {
        return Ok(Vec::new(alloc));
    }
    words_of(alloc, text)
}

/// Whether the text has nothing but spaces and tabs.
fn is_blank(text: &[u8]) -> bool
    ensures { result ≡ list_all is_blank text.now }
{
    text.iter().all(|byte| is_blank_byte(*byte))
}

fn is_blank_byte(byte: u8) -> bool
    ensures { result ≡ is_blank byte }
{
    byte == b' ' || byte == b'\t'
}

fn before_comment(line: &[u8]) -> &[u8]
    ensures { result.now ≡ before_first is_hash line.now }
{
    match comment_place(line) {
        Some(at) => &line[..at],
        None => line,
    }
}

fn comment_place(line: &[u8]) -> Option<usize>
    ensures { result ≡ position is_hash line.now }
{
    line.iter().position(|byte| *byte == b'#')
}

fn words_of(alloc: Global, text: &[u8]) -> Result<Vec<&[u8]>, NoMemory>
    ensures { IfOk result (λ words. map (λ word. word.now) words.items
        ≡ filter has_some (slice_split is_space text.now)) }
{
    let mut words = Vec::new(alloc);
    for piece in text.split(|byte| *byte == b' ') {
        if !piece.is_empty() {
            words.push(piece)?;
        }
    }
    Ok(words)
}

/// The addresses that the words are, or None where one of them is none.
fn addresses(alloc: Global, words: &[&[u8]]) -> Result<Option<List<Addr>>, NoMemory>
    ensures { IfOk result (λ answer. MatchOption answer
        ((addrs : List Addr) → ¬ Each IsAddressText (map (λ word. word.now) words.now) addrs)
        (λ addrs. Each IsAddressText (map (λ word. word.now) words.now) addrs)) }
{
    let mut addrs = Vec::with_capacity(alloc, words.len())?;
    for word in words {
        let Some(addr) = Addr::parse_ascii(word) else {
            return Ok(None);
        };
        addrs.push(addr)?;
    }
    Ok(Some(List::of_vec(addrs)))
}
