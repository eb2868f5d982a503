// Directions and interfaces.
ghost use Rattle.std.specs.Prelude.{◌≡◌, ◌++◌, OnOk};
ghost use Rattle.npf_types.specs.Name.{name_bytes};
ghost use Rattle.npf_show.specs.Bound.{dir_pieces, on_pieces};
ghost use Rattle.npf_show.specs.Piece.{spelled, spaced, Quoted};

use crate::page::Page;
use crate::shown::Shown;
use npf_model::{Model, OnIf};
use npf_types::{Dir, Name, NoMemory};

impl Shown for Dir {
    ghost pieces = { λ model dir. dir_pieces dir };

    fn show(&self, _model: &Model, page: &mut Page) -> Result<(), NoMemory> {
        match self {
            Dir::In => page.word("in"),
            Dir::Out => page.word("out"),
        }
    }
}

impl Shown for OnIf {
    ghost pieces = { λ model on. on_pieces on };

    fn show(&self, _model: &Model, page: &mut Page) -> Result<(), NoMemory> {
        page.word("on")?;
        show_name(&self.name, page)?;
        Ok(())
    }
}

/// A name in quotes.
pub(crate) fn show_name(name: &Name, page: &mut Page) -> Result<(), NoMemory>
    ensures { OnOk result (page.new ≡ page.old ++ spelled (spaced (Quoted (name_bytes name.now)))) }
{
    page.quoted(name.as_bytes())?;
    Ok(())
}
