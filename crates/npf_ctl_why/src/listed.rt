// Lists in a line: what could stand, and near names.
ghost use Rattle.std.specs.Prelude.{◌≡◌, ◌++◌, IfOk, OnOk, map};
ghost use Rattle.std.specs.List.{flat_map};
ghost use Rattle.npf_why.specs.Candidate.{candidate_kind};
ghost use Rattle.npf_ctl_why.specs.Listed.{behind_comma, candidate_text, named_text, names_text, number_text, quoted_text, standing_text, string_text, told_kinds, told_text, word_text};

use crate::excerpt::write_shown;
use npf_text::{write_counted, write_text};
use npf_types::NoMemory;
use npf_why::{Candidate, is_told};
use std::alloc::Global;

/// What stands around a near name: nothing, the sign of a variable, or those of a table.
#[derive(Clone, Copy, Debug, PartialEq, Eq)]
pub(crate) enum Marks {
    None,
    Variable,
    Table,
}

/// Appends the line of what could stand, if anything is told.
pub(crate) fn write_standing(
    alloc: Global,
    into: &mut Vec<u8>,
    standing: &[Candidate],
) -> Result<(), NoMemory>
    ensures { OnOk result (into.new.items ≡ into.old.items ++ standing_text (map candidate_kind standing.now)) }
{
    let told = told_of(alloc, standing)?;
    write_told(into, &told)
}

/// Those of the candidates that are named.
fn told_of(alloc: Global, standing: &[Candidate]) -> Result<Vec<Candidate>, NoMemory>
    ensures { IfOk result (λ told. map candidate_kind told.items ≡ told_kinds (map candidate_kind standing.now)) }
{
    let mut told = Vec::new(alloc);
    for candidate in standing {
        if is_told(candidate, standing) {
            told.push(*candidate)?;
        }
    }
    Ok(told)
}

fn write_told(into: &mut Vec<u8>, told: &[Candidate]) -> Result<(), NoMemory>
    ensures { OnOk result (into.new.items ≡ into.old.items ++ told_text (map candidate_kind told.now)) }
{
    let Some((first, others)) = told.split_first() else {
        return Ok(());
    };
    write_text(into, "  could stand here: ")?;
    write_candidate(into, first)?;
    write_others(into, others)?;
    write_text(into, "\n")
}

fn write_others(into: &mut Vec<u8>, others: &[Candidate]) -> Result<(), NoMemory>
    ensures { OnOk result (into.new.items ≡ into.old.items ++ flat_map behind_comma (map candidate_text (map candidate_kind others.now))) }
{
    for candidate in others {
        write_text(into, ", ")?;
        write_candidate(into, candidate)?;
    }
    Ok(())
}

fn write_candidate(into: &mut Vec<u8>, candidate: &Candidate) -> Result<(), NoMemory>
    ensures { OnOk result (into.new.items ≡ into.old.items ++ candidate_text (candidate_kind candidate.now)) }
{
    match candidate {
        Candidate::Word(text) => write_word(into, text),
        Candidate::Str(text) => write_string(into, text),
        Candidate::Sign(sign) => write_quoted(into, sign.text()),
        Candidate::Number(number) => write_number(into, *number),
        Candidate::Variable => write_text(into, "a variable"),
        Candidate::Address => write_text(into, "an address"),
        Candidate::Separator => write_text(into, "the end of the line"),
        Candidate::End => write_text(into, "the end of the text"),
    }
}

fn write_quoted(into: &mut Vec<u8>, text: &str) -> Result<(), NoMemory>
    ensures { OnOk result (into.new.items ≡ into.old.items ++ quoted_text text.now) }
{
    write_text(into, "\"")?;
    write_text(into, text)?;
    write_text(into, "\"")
}

fn write_word(into: &mut Vec<u8>, text: &str) -> Result<(), NoMemory>
    ensures { OnOk result (into.new.items ≡ into.old.items ++ word_text text.now) }
{
    if text == "a" {
        write_text(into, "a name")
    } else if text == "S" {
        write_text(into, "letters of FSRPAUEW")
    } else {
        write_quoted(into, text)
    }
}

fn write_string(into: &mut Vec<u8>, text: &str) -> Result<(), NoMemory>
    ensures { OnOk result (into.new.items ≡ into.old.items ++ string_text text.now) }
{
    if text == "a" {
        write_text(into, "a string")
    } else {
        write_quoted(into, text)
    }
}

fn write_number(into: &mut Vec<u8>, number: u32) -> Result<(), NoMemory>
    ensures { OnOk result (into.new.items ≡ into.old.items ++ number_text number) }
{
    if number == 4294967295 {
        write_text(into, "a number")
    } else {
        write_counted(into, "a number to ", u64::from(number))
    }
}

/// Appends the line of near names, if there are any.
pub(crate) fn write_names(into: &mut Vec<u8>, marks: Marks, names: &[&[u8]]) -> Result<(), NoMemory>
    ensures { OnOk result (into.new.items ≡ into.old.items ++ names_text marks (map (λ name. name.now) names.now)) }
{
    let Some((first, others)) = names.split_first() else {
        return Ok(());
    };
    write_text(into, "  near: ")?;
    write_name(into, marks, first)?;
    write_other_names(into, marks, others)?;
    write_text(into, "\n")
}

fn write_other_names(into: &mut Vec<u8>, marks: Marks, others: &[&[u8]]) -> Result<(), NoMemory>
    ensures { OnOk result (into.new.items ≡ into.old.items ++ flat_map behind_comma (map (named_text marks) (map (λ name. name.now) others.now))) }
{
    for name in others {
        write_text(into, ", ")?;
        write_name(into, marks, name)?;
    }
    Ok(())
}

fn write_name(into: &mut Vec<u8>, marks: Marks, name: &[u8]) -> Result<(), NoMemory>
    ensures { OnOk result (into.new.items ≡ into.old.items ++ named_text marks name.now) }
{
    match marks {
        Marks::None => write_shown(into, name),
        Marks::Variable => {
            write_text(into, "$")?;
            write_shown(into, name)
        }
        Marks::Table => {
            write_text(into, "<")?;
            write_shown(into, name)?;
            write_text(into, ">")
        }
    }
}
