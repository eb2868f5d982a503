// The tables of a configuration. A declaration keeps where the name of its file stands, since a fault of that file is told there.
ghost use Rattle.std.specs.Prelude.{◌≡◌, ◌∷◌, [], IfOk};
ghost use Rattle.std.specs.Option.{option_map};
ghost use Rattle.npf_types.specs.Named.{named};
ghost use Rattle.npf_expand.specs.Table.{kind_of_type};

use crate::text::maybe_text;
use npf_expand_values::name_of;
use npf_model::{Kind, TableDecl};
use npf_syntax::{Str, TableType, Word};
use npf_types::{NoMemory, Span};
use std::alloc::Global;

/// A table as its statement declares it.
pub(crate) fn table_of(
    alloc: Global,
    name: &Word,
    kind: &TableType,
    file: &Option<Str>,
    span: Span,
) -> Result<TableDecl, NoMemory>
    ensures { IfOk result (λ table. table ≡ record {
      name = named name.now.text;
      kind = kind_of_type kind.now;
      file = option_map (λ string. string.text) file.now;
      file_span = option_map (λ string. string.span) file.now;
      span = span;
    }) }
{
    Ok(TableDecl {
        name: name_of(name.text.as_slice()),
        kind: kind_of(kind),
        file: maybe_text(alloc, file)?,
        file_span: span_of(file),
        span,
    })
}

fn span_of(string: &Option<Str>) -> Option<Span>
    ensures { result ≡ option_map (λ s. s.span) string.now }
{
    match string {
        Some(string) => Some(string.span),
        None => None,
    }
}

fn kind_of(kind: &TableType) -> Kind
    ensures { result ≡ kind_of_type kind.now }
{
    match kind {
        TableType::IpSet { .. } => Kind::Ipset,
        TableType::Lpm { .. } => Kind::Lpm,
        TableType::Const { .. } => Kind::Const,
    }
}
