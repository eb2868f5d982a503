// Tables, and the names of tables.
ghost use Rattle.std.specs.Prelude.{◌≡◌, ◌++◌, OnOk};
ghost use Rattle.npf_show.specs.Ends.{angled};
ghost use Rattle.npf_show.specs.Piece.{spelled, optional_pieces};
ghost use Rattle.npf_show.specs.Table.{table_line, kind_pieces, file_pieces};

use crate::page::Page;
use crate::shown::Shown;
use npf_model::{Kind, Model, TableDecl};
use npf_types::{NoMemory, Text};

impl Shown for TableDecl {
    ghost pieces = { λ model table. table_line table };

    fn show(&self, model: &Model, page: &mut Page) -> Result<(), NoMemory> {
        page.glued_word(b"table")?;
        show_angled(self.name.as_bytes(), page)?;
        page.word("type")?;
        self.kind.show(model, page)?;
        show_file(&self.file, page)?;
        page.end_line()?;
        Ok(())
    }
}

impl Shown for Kind {
    ghost pieces = { λ model kind. kind_pieces kind };

    fn show(&self, _model: &Model, page: &mut Page) -> Result<(), NoMemory> {
        match self {
            Kind::Ipset => page.word("ipset"),
            Kind::Lpm => page.word("lpm"),
            Kind::Const => page.word("const"),
        }
    }
}

/// A table by its name.
pub(crate) fn show_angled(name: &[u8], page: &mut Page) -> Result<(), NoMemory>
    ensures { OnOk result (page.new ≡ page.old ++ spelled (angled name.now)) }
{
    page.sign("<")?;
    page.glued_word(name)?;
    page.glued_sign(">")?;
    Ok(())
}

fn show_file(file: &Option<Text>, page: &mut Page) -> Result<(), NoMemory>
    ensures { OnOk result (page.new ≡ page.old ++ spelled (optional_pieces file_pieces file.now)) }
{
    let Some(file) = file else {
        return Ok(());
    };
    page.word("file")?;
    page.quoted(file.as_slice())?;
    Ok(())
}
