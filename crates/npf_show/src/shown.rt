// What has a form in the canonical text, and lists of it.
ghost use Rattle.std.specs.Prelude.{◌≡◌, ◌++◌, List as Seq, OnOk};
ghost use Rattle.std.specs.List.{flat_map};
ghost use Rattle.npf_model.specs.declared.model.Model.{Model as ModelData};
ghost use Rattle.npf_show.specs.Piece.{Piece, spelled, optional_pieces, comma_list, list_pieces};

use crate::page::Page;
use npf_model::Model;
use npf_types::{List, NoMemory};

/// A part of a model, which has a form in the text of that model.
pub(crate) trait Shown {
    ghost pieces: { ModelData → Self → Seq Piece };

    /// Writes the part behind what stands on the page.
    fn show(&self, model: &Model, page: &mut Page) -> Result<(), NoMemory>
        ensures { OnOk result (page.new ≡ page.old ++ spelled (pieces model.now self.now)) };
}

impl<T: Shown> Shown for Option<T> {
    ghost pieces = { λ model part. optional_pieces (T.pieces model) part };

    fn show(&self, model: &Model, page: &mut Page) -> Result<(), NoMemory> {
        match self {
            Some(part) => part.show(model, page),
            None => Ok(()),
        }
    }
}

/// All parts, one behind the other.
pub(crate) fn show_each<T: Shown>(
    parts: &List<T>,
    model: &Model,
    page: &mut Page,
) -> Result<(), NoMemory>
    ensures { OnOk result (page.new ≡ page.old ++ spelled (flat_map (T.pieces model.now) parts.now)) }
{
    for part in parts.as_slice() {
        part.show(model, page)?;
    }
    Ok(())
}

/// Elements with commas between them.
pub(crate) fn show_with_commas<T: Shown>(
    elements: &[T],
    model: &Model,
    page: &mut Page,
) -> Result<(), NoMemory>
    ensures { OnOk result (page.new ≡ page.old ++ spelled (comma_list (T.pieces model.now) elements.now)) }
{
    let Some((first, others)) = elements.split_first() else {
        return Ok(());
    };
    first.show(model, page)?;
    for element in others {
        page.glued_sign(",")?;
        element.show(model, page)?;
    }
    Ok(())
}

/// A list: one element as it is, others in braces.
pub(crate) fn show_list<T: Shown>(
    elements: &[T],
    model: &Model,
    page: &mut Page,
) -> Result<(), NoMemory>
    ensures { OnOk result (page.new ≡ page.old ++ spelled (list_pieces (T.pieces model.now) elements.now)) }
{
    if let [only] = elements {
        return only.show(model, page);
    }
    page.sign("{")?;
    show_with_commas(elements, model, page)?;
    page.sign("}")?;
    Ok(())
}
