// The declarations of tables.
use npf_types::{Name, Span, Text};

/// The kind of an address table (npf.conf(5), "Tables").
#[derive(Clone, Copy, Debug, PartialEq, Eq)]
pub enum Kind {
    /// Single addresses, which may be added and taken out.
    Ipset,
    /// Address blocks of any length, which may be added and taken out.
    Lpm,
    /// Single addresses that stay as they were read.
    Const,
}

/// A table as it is declared: its name and kind, the file of its first entries and where its name stands where it has one,
/// and where the declaration stands. Rules name a table by its place in the model's list, counted from 0.
#[derive(Debug, Drop)]
pub struct TableDecl {
    pub name: Name,
    pub kind: Kind,
    pub file: Option<Text>,
    pub file_span: Option<Span>,
    pub span: Span,
}
