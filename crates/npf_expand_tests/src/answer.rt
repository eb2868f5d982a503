use crate::again::Again;
use crate::fault::{AllFaults, Named, NamedOfTable, Place};
use crate::number::Numbers;
use crate::token::{Hexadecimal, Placed};
use npf_faults::ConfFault;
use npf_lexer::Token;
use npf_model::{Iface, Ifaces, Model, Rule};
use npf_syntax::{Stmt, Tree, Values};
use npf_table::TableFault;
use std::fmt;

/// What is printed behind a row.
#[derive(Drop)]
pub enum Answer {
    NoSuchRow,
    Accepted,
    /// A fault with its whole place.
    Fault(ConfFault),
    /// How many lines stand in front of the texts that follow.
    Given(usize),
    Tokens(Vec<Token>),
    Statements(usize),
    Definition(Tree),
    Ifaces(Ifaces),
    Shown(Vec<u8>),
    Numbers(Model),
    Rule(Rule),
    /// How many entries a table has.
    Entries(u64),
    TableFault(TableFault),
    /// Whether a table has an address, whether a copy of it has, and how many entries the copy has.
    Has(bool, bool, u64),
    /// Why a table isn't changed, if it isn't, and how many entries it has then.
    Changed(Option<TableFault>, u64),
    Faults,
    /// How many random texts are kept, or what happened to the first that isn't.
    Kept(u32),
    NotKept(Again, String),
}

impl fmt::Display for Answer {
    fn fmt<W: fmt::Write>(&self, f: &mut fmt::Formatter<W>) -> fmt::Result {
        match self {
            Answer::NoSuchRow => write!(f, "no such row"),
            Answer::Accepted => write!(f, "accepted"),
            Answer::Fault(fault) => write!(f, "{} {}", Place(fault.span), Named(fault.fault)),
            Answer::Given(lines) => write!(f, "lines {lines}"),
            Answer::Tokens(tokens) => write_tokens(f, tokens.as_slice()),
            Answer::Statements(count) => write!(f, "statements {count}"),
            Answer::Definition(tree) => write_definition(f, tree),
            Answer::Ifaces(ifaces) => write_ifaces(f, ifaces.list.as_slice()),
            Answer::Shown(text) => write_text(f, text.as_slice()),
            Answer::Numbers(model) => write!(f, "{}", Numbers(model)),
            Answer::Rule(rule) => write!(f, "{rule:?}"),
            Answer::Entries(count) => write!(f, "entries {count}"),
            Answer::TableFault(fault) => write!(f, "{}", NamedOfTable(*fault)),
            Answer::Has(table, copy, count) => write!(
                f,
                "{table}, its copy {copy}, entries {count}"
            ),
            Answer::Changed(None, count) => write!(f, "entries {count}"),
            Answer::Changed(Some(fault), count) => {
                write!(f, "{}, entries {count}", NamedOfTable(*fault))
            }
            Answer::Faults => write!(f, "{}", AllFaults),
            Answer::Kept(count) => write!(f, "kept {count}"),
            Answer::NotKept(again, text) => write!(f, "{again:?}\n{text}"),
        }
    }
}

fn write_tokens<W: fmt::Write>(f: &mut fmt::Formatter<W>, tokens: &[Token]) -> fmt::Result {
    write!(f, "tokens {}", tokens.len())?;
    for token in tokens {
        write!(f, "\n  {}", Placed(token))?;
    }
    Ok(())
}

fn write_ifaces<W: fmt::Write>(f: &mut fmt::Formatter<W>, ifaces: &[Iface]) -> fmt::Result {
    write!(f, "interfaces {}", ifaces.len())?;
    for iface in ifaces {
        write_iface(f, iface)?;
    }
    Ok(())
}

fn write_iface<W: fmt::Write>(f: &mut fmt::Formatter<W>, iface: &Iface) -> fmt::Result {
    write!(f, "\n  {}", iface.name.as_bytes().escape_ascii())?;
    for address in iface.addrs.as_slice() {
        write!(f, " {}", Hexadecimal(*address))?;
    }
    Ok(())
}

fn write_text<W: fmt::Write>(f: &mut fmt::Formatter<W>, text: &[u8]) -> fmt::Result {
    match str::from_utf8(text) {
        Ok(text) => write!(f, "canonical\n{text}"),
        Err(_) => write!(f, "no UTF-8"),
    }
}

// The first statement where it defines a list, and where the text ends.
fn write_definition<W: fmt::Write>(f: &mut fmt::Formatter<W>, tree: &Tree) -> fmt::Result {
    let Some(
        Stmt::Define {
            var,
            values: Values::List { list, .. },
            span,
        },
    ) = tree.stmts.as_slice().first()
    else {
        return write!(f, "no list is defined");
    };
    let name = var.name.as_slice().escape_ascii();
    let values = list.values.as_slice().len();
    write!(
        f,
        "{name} with {values} values at {}, the end at {}",
        Place(*span),
        Place(tree.end)
    )
}
