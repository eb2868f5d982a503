// Names that are looked up for their numbers: of services, of protocols, and of messages of ICMP and ICMPv6.
ghost use Rattle.std.specs.Prelude.{◌≡◌, ◌++◌, IfOk, None, OnOk, map, option_map};
ghost use Rattle.npf_names.specs.Icmp.{types_of};
ghost use Rattle.npf_names.specs.Protocol.{protocols};
ghost use Rattle.npf_why.specs.declared.name_table.NameTable.TheVariants.{Unknown};
ghost use Rattle.npf_why.specs.NameTable.{code_table, looked_up, name_texts, names_of_number, names_of_table, number_said, table_at_code, table_behind, table_behind_word, table_from};

use npf_lexer::{Sign, Token, TokenKind};
use npf_names::{IcmpNames, IcmpTable, protocol_number, protocol_rows, service_rows};
use npf_types::NoMemory;
use std::alloc::Global;

/// Among which names a word is looked up.
#[derive(Clone, Copy, Debug, PartialEq, Eq)]
enum NameTable {
    /// The uses of a definition decide.
    Unknown,
    Services,
    Protocols,
    Messages(IcmpTable),
}

/// The names among which a word is looked up that stands behind these tokens.
pub fn looked_up<'a>(alloc: Global, before: &[Token]) -> Result<Vec<&'a [u8]>, NoMemory>
    ensures { IfOk result (λ names. map (λ name. name.now) names.items ≡ looked_up before.now) }
{
    names_of_table(alloc, table_before(before))
}

fn names_of_table<'a>(alloc: Global, table: NameTable) -> Result<Vec<&'a [u8]>, NoMemory>
    ensures { IfOk result (λ names. map (λ name. name.now) names.items ≡ names_of_table table) }
{
    let mut names = Vec::new(alloc);
    match table {
        NameTable::Unknown => {
            add_names(&mut names, service_rows())?;
            add_names(&mut names, protocol_rows())?;
        }
        NameTable::Services => add_names(&mut names, service_rows())?,
        NameTable::Protocols => add_names(&mut names, protocol_rows())?,
        NameTable::Messages(table) => add_names(&mut names, table.rows())?,
    }
    Ok(names)
}

fn add_names<'a>(names: &mut Vec<&'a [u8]>, rows: &[(&'a str, u16)]) -> Result<(), NoMemory>
    ensures { OnOk result (map (λ name. name.now) names.new.items
        ≡ map (λ name. name.now) names.old.items ++ name_texts (map (λ row. (row.0.now, row.1)) rows.now)) }
{
    for row in rows {
        names.push(row.0.as_bytes())?;
    }
    Ok(())
}

/// The table that the last of these tokens which names one does.
fn table_before(tokens: &[Token]) -> NameTable
    ensures { result ≡ table_from Unknown None tokens.now }
{
    let mut table = NameTable::Unknown;
    let mut last = None;
    for token in tokens {
        table = table_behind(table, last, &token.kind);
        last = Some(&token.kind);
    }
    table
}

/// The table behind a token, by that before it and by the token that stands before it.
fn table_behind(table: NameTable, last: Option<&TokenKind>, kind: &TokenKind) -> NameTable
    ensures { result ≡ table_behind table (option_map (λ kind. kind.now) last.entry) kind.now }
{
    match kind {
        TokenKind::Sign(Sign::Equals) => NameTable::Unknown,
        TokenKind::Word(word) => table_behind_word(table, last, word.as_slice()),
        _ => table,
    }
}

fn table_behind_word(table: NameTable, last: Option<&TokenKind>, word: &[u8]) -> NameTable
    ensures { result ≡ table_behind_word table (option_map (λ kind. kind.now) last.entry) word.now }
{
    if word == "port".as_bytes() {
        NameTable::Services
    } else if word == "proto".as_bytes() {
        NameTable::Protocols
    } else if word == "icmp-type".as_bytes() {
        NameTable::Messages(IcmpTable::Types(names_of_number(protocol_said(last))))
    } else if word == "code".as_bytes() {
        table_at_code(table, last)
    } else {
        table
    }
}

/// Whose names the messages of a protocol have.
fn names_of_number(protocol: Option<u8>) -> IcmpNames
    ensures { result ≡ names_of_number protocol }
{
    match protocol {
        Some(1) => IcmpNames::OfIcmp,
        Some(58) => IcmpNames::OfIcmp6,
        _ => IcmpNames::OfNeither,
    }
}

fn table_at_code(table: NameTable, last: Option<&TokenKind>) -> NameTable
    ensures { result ≡ table_at_code table (option_map (λ kind. kind.now) last.entry) }
{
    match table {
        NameTable::Messages(IcmpTable::Types(names)) => {
            NameTable::Messages(code_table(names, type_said(names, last)))
        }
        _ => table,
    }
}

fn code_table(names: IcmpNames, kind: Option<u8>) -> IcmpTable
    ensures { result ≡ code_table names kind }
{
    match kind {
        Some(kind) => IcmpTable::Codes(names, kind),
        None => IcmpTable::Types(IcmpNames::OfNeither),
    }
}

/// The protocol that a token says.
fn protocol_said(last: Option<&TokenKind>) -> Option<u8>
    ensures { result ≡ number_said protocols (option_map (λ kind. kind.now) last.entry) }
{
    match last {
        Some(TokenKind::Word(word)) => protocol_number(word.as_slice()),
        Some(TokenKind::Number(number)) if *number <= 255 => Some(*number as u8),
        _ => None,
    }
}

/// The type that a token says.
fn type_said(names: IcmpNames, last: Option<&TokenKind>) -> Option<u8>
    ensures { result ≡ number_said (types_of names) (option_map (λ kind. kind.now) last.entry) }
{
    match last {
        Some(TokenKind::Word(word)) => IcmpTable::Types(names).number_named(word.as_slice()),
        Some(TokenKind::Number(number)) if *number <= 255 => Some(*number as u8),
        _ => None,
    }
}
