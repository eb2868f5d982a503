// What the canonical text doesn't say of a model.
use crate::fault::Place;
use npf_model::{Group, Item, Map, Model, OnIf, TableDecl};
use std::fmt;

/// A model's tables, each with the place of its file's name; its maps, groups and items, each with the number of the interface that it is
/// bound to; and of its rulesets also the number of their next rule and how many rules they have.
#[derive(Clone, Copy)]
pub struct Numbers<'a>(pub &'a Model);

impl fmt::Display for Numbers<'_> {
    fn fmt<W: fmt::Write>(&self, f: &mut fmt::Formatter<W>) -> fmt::Result {
        let Model {
            tables,
            maps,
            groups,
            ..
        } = self.0;
        write!(
            f,
            "tables {}, maps {}, groups {}",
            tables.as_slice().len(),
            maps.as_slice().len(),
            groups.as_slice().len()
        )?;
        write_tables(f, tables.as_slice())?;
        write_maps(f, maps.as_slice())?;
        write_groups(f, groups.as_slice())
    }
}

fn write_tables<W: fmt::Write>(f: &mut fmt::Formatter<W>, tables: &[TableDecl]) -> fmt::Result {
    for table in tables {
        match table.file_span {
            Some(span) => write!(f, "\n  table with a file at {}", Place(span))?,
            None => write!(f, "\n  table")?,
        }
    }
    Ok(())
}

fn write_maps<W: fmt::Write>(f: &mut fmt::Formatter<W>, maps: &[Map]) -> fmt::Result {
    for map in maps {
        write!(f, "\n  map{}", Bound(Some(map.on)))?;
    }
    Ok(())
}

fn write_groups<W: fmt::Write>(f: &mut fmt::Formatter<W>, groups: &[Group]) -> fmt::Result {
    for group in groups {
        let name = group.name.as_slice().escape_ascii();
        let word = if group.default { "default" } else { "group" };
        write!(f, "\n  {word} \"{name}\"{}", Bound(group.on))?;
        write_items(f, group.items.as_slice())?;
    }
    Ok(())
}

fn write_items<W: fmt::Write>(f: &mut fmt::Formatter<W>, items: &[Item]) -> fmt::Result {
    for item in items {
        match item {
            Item::One(rule) => write!(f, "\n    rule{}", Bound(rule.on))?,
            Item::Dynamic {
                on,
                next_id,
                rules,
                ..
            } => write!(
                f,
                "\n    ruleset{}, next rule {next_id}, rules {}",
                Bound(*on),
                rules.as_slice().len()
            )?,
        }
    }
    Ok(())
}

// What something is bound to, if it is.
#[derive(Clone, Copy)]
struct Bound(Option<OnIf>);

impl fmt::Display for Bound {
    fn fmt<W: fmt::Write>(&self, f: &mut fmt::Formatter<W>) -> fmt::Result {
        match self.0 {
            Some(on) => write!(f, " on {}", on.id.0),
            None => Ok(()),
        }
    }
}
