// A model's statements in their order.
ghost use Rattle.std.specs.Prelude.{◌≡◌, IfOk};
ghost use Rattle.npf_show.specs.Piece.{spelled};
ghost use Rattle.npf_show.specs.Model.{model_pieces};

use crate::page::Page;
use crate::setting::{show_alg, show_settings};
use crate::shown::show_each;
use npf_model::Model;
use npf_types::NoMemory;
use std::alloc::Global;

/// The canonical text of a model, each line with its line feed. A table or a procedure that the model hasn't is shown without a name.
pub fn show(alloc: Global, model: &Model) -> Result<Vec<u8>, NoMemory>
    ensures { IfOk result (λ text. text.items ≡ spelled (model_pieces model.now)) }
{
    let mut page = Page::new(alloc);
    show_settings(model.settings, &mut page)?;
    show_alg(model.alg_icmp, &mut page)?;
    show_each(&model.tables, model, &mut page)?;
    show_each(&model.maps, model, &mut page)?;
    show_each(&model.procedures, model, &mut page)?;
    show_each(&model.groups, model, &mut page)?;
    Ok(page.into_text())
}
