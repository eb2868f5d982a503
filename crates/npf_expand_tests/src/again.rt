// Texts of random shapes that are shown and read again. npf_show_law proves that a text that was shown means the same model; no clause says
// that the checks accept it, too.
use crate::answer::Answer;
use crate::random::{Draws, text_of};
use crate::reading::{model_of, shown};
use npf_faults::Refused;
use npf_model::Model;
use npf_show::show;
use npf_types::NoMemory;
use std::alloc::{AllocError, Global};

/// What happens to a text that is shown and read again.
#[derive(Clone, Copy, Debug, PartialEq, Eq)]
pub enum Again {
    Kept,
    Changed,
    ShownOtherwise,
    Refused,
}

/// How many texts are kept, or the first that isn't.
pub fn random_texts(alloc: Global, file: &[u8], count: &str) -> Result<Answer, Refused> {
    let Ok(count) = count.parse::<u32>() else {
        return Ok(Answer::NoSuchRow);
    };
    let mut draws = Draws::new(1);
    for _ in 0..count {
        let text = text_of(alloc, &mut draws).map_err(NoMemory::from)?;
        let again = read_again(alloc, file, text.as_bytes())?;
        if again != Again::Kept {
            return Ok(Answer::NotKept(again, text));
        }
    }
    Ok(Answer::Kept(count))
}

fn read_again(alloc: Global, file: &[u8], text: &[u8]) -> Result<Again, Refused> {
    let model = model_of(alloc, file, text)?;
    let canonical = show(alloc, &model)?;
    let Ok(again) = model_of(alloc, file, canonical.as_slice()) else {
        return Ok(Again::Refused);
    };
    if !same(alloc, &model, &again).map_err(NoMemory::from)? {
        return Ok(Again::Changed);
    }
    if shown(alloc, file, canonical.as_slice())?.as_slice() != canonical.as_slice() {
        return Ok(Again::ShownOtherwise);
    }
    Ok(Again::Kept)
}

fn same(alloc: Global, one: &Model, other: &Model) -> Result<bool, AllocError> {
    let (one, other) = (all_but_places(alloc, one)?, all_but_places(alloc, other)?);
    Ok(one.as_str() == other.as_str())
}

// All of a model but where its tables stand in the text.
fn all_but_places(alloc: Global, model: &Model) -> Result<String, AllocError> {
    let Model {
        groups,
        tables,
        maps,
        procedures,
        settings,
        alg_icmp,
    } = model;
    let mut parts = format!(in alloc;
        "{groups:?} {maps:?} {procedures:?} {settings:?} {alg_icmp}"
    )?;
    for table in tables.as_slice() {
        let has_file = table.file_span.is_some();
        write!(
            parts,
            " {:?} {:?} {:?} {has_file}",
            table.name, table.kind, table.file
        )?;
    }
    Ok(parts)
}
