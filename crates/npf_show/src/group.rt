// Groups and what stands in them.
ghost use Rattle.std.specs.Prelude.{◌≡◌, ◌++◌, OnOk};
ghost use Rattle.npf_show.specs.Group.{within_item, item_line, head_pieces, group_head, group_lines};
ghost use Rattle.npf_show.specs.Piece.{spelled};

use crate::bound::show_name;
use crate::page::Page;
use crate::shown::{Shown, show_each};
use npf_model::{Group, Item, Model};
use npf_types::NoMemory;

impl Shown for Group {
    ghost pieces = { group_lines };

    fn show(&self, model: &Model, page: &mut Page) -> Result<(), NoMemory> {
        show_head(self, model, page)?;
        show_each(&self.items, model, page)?;
        page.close()?;
        Ok(())
    }
}

fn show_head(group: &Group, model: &Model, page: &mut Page) -> Result<(), NoMemory>
    ensures { OnOk result (page.new ≡ page.old ++ spelled (group_head group.now)) }
{
    page.glued_word(b"group")?;
    show_binding(group, model, page)?;
    page.sign("{")?;
    page.end_line()?;
    Ok(())
}

/// What stands between `group` and the brace.
fn show_binding(group: &Group, model: &Model, page: &mut Page) -> Result<(), NoMemory>
    ensures { OnOk result (page.new ≡ page.old ++ spelled (head_pieces group.now.default group.now)) }
{
    if group.default {
        return page.word("default");
    }
    page.quoted(group.name.as_slice())?;
    group.dir.show(model, page)?;
    group.on.show(model, page)?;
    Ok(())
}

impl Shown for Item {
    ghost pieces = { item_line };

    fn show(&self, model: &Model, page: &mut Page) -> Result<(), NoMemory> {
        page.indent()?;
        show_item(self, model, page)?;
        page.end_line()?;
        Ok(())
    }
}

fn show_item(item: &Item, model: &Model, page: &mut Page) -> Result<(), NoMemory>
    ensures { OnOk result (page.new ≡ page.old ++ spelled (within_item model.now item.now)) }
{
    match item {
        Item::One(rule) => rule.show(model, page),
        Item::Dynamic { name, dir, on, .. } => {
            page.glued_word(b"ruleset")?;
            show_name(name, page)?;
            dir.show(model, page)?;
            on.show(model, page)
        }
    }
}
