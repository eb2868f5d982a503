// The ends of rules: addresses and ports.
ghost use Rattle.std.specs.Prelude.{◌≡◌, ◌++◌, OnOk};
ghost use Rattle.npf_show.specs.Ends.{addresses_pieces, item_pieces, prefix_pieces, length_pieces, range_pieces, last_pieces, ports_pieces, ends_pieces, end_pieces, is_said, where_pieces, name_of_table};
ghost use Rattle.npf_show.specs.Piece.{spelled, optional_pieces, list_pieces};
ghost use Rattle.std.specs.Prelude.{slice_get};

use crate::page::Page;
use crate::shown::{Shown, show_list};
use crate::table::show_angled;
use npf_model::{AddrItem, Ends, Model};
use npf_types::{List, NoMemory, Prefix};

impl Shown for Prefix {
    ghost pieces = { λ model prefix. prefix_pieces prefix };

    fn show(&self, _model: &Model, page: &mut Page) -> Result<(), NoMemory> {
        page.address(self.addr)?;
        show_length(self, page)?;
        Ok(())
    }
}

fn show_length(prefix: &Prefix, page: &mut Page) -> Result<(), NoMemory>
    ensures { OnOk result (page.new ≡ page.old ++ spelled (length_pieces prefix.now)) }
{
    if prefix.len == prefix.addr.width() {
        return Ok(());
    }
    page.glued_sign("/")?;
    page.glued_number(u32::from(prefix.len))?;
    Ok(())
}

impl Shown for AddrItem {
    ghost pieces = { item_pieces };

    fn show(&self, model: &Model, page: &mut Page) -> Result<(), NoMemory> {
        match self {
            AddrItem::Net(prefix) => prefix.show(model, page),
            AddrItem::InTable(number) => show_angled(table_name(model, *number), page),
        }
    }
}

fn table_name(model: &Model, number: u32) -> &[u8]
    ensures { result.now ≡ name_of_table (slice_get model.now.tables number) }
{
    match model.tables.as_slice().get(number as usize) {
        Some(table) => table.name.as_bytes(),
        None => b"",
    }
}

impl Shown for (u16, u16) {
    ghost pieces = { λ model range. range_pieces range };

    fn show(&self, _model: &Model, page: &mut Page) -> Result<(), NoMemory> {
        page.number(u32::from(self.0))?;
        show_last(*self, page)?;
        Ok(())
    }
}

fn show_last(range: (u16, u16), page: &mut Page) -> Result<(), NoMemory>
    ensures { OnOk result (page.new ≡ page.old ++ spelled (last_pieces range)) }
{
    let (first, last) = range;
    if first == last {
        return Ok(());
    }
    page.glued_sign("-")?;
    page.glued_number(u32::from(last))?;
    Ok(())
}

impl Shown for Ends {
    ghost pieces = { ends_pieces };

    fn show(&self, model: &Model, page: &mut Page) -> Result<(), NoMemory> {
        show_addresses(self, model, page)?;
        show_ports(&self.ports, model, page)?;
        Ok(())
    }
}

fn show_addresses(ends: &Ends, model: &Model, page: &mut Page) -> Result<(), NoMemory>
    ensures { OnOk result (page.new ≡ page.old ++ spelled (optional_pieces (addresses_pieces model.now ends.now.excluded) ends.now.addrs)) }
{
    match &ends.addrs {
        Some(items) => show_listed(ends.excluded, items.as_slice(), model, page),
        None => Ok(()),
    }
}

fn show_listed(
    excluded: bool,
    items: &[AddrItem],
    model: &Model,
    page: &mut Page,
) -> Result<(), NoMemory>
    ensures { OnOk result (page.new ≡ page.old ++ spelled (addresses_pieces model.now excluded items.now)) }
{
    if excluded {
        page.sign("!")?;
    }
    show_list(items, model, page)?;
    Ok(())
}

fn show_ports(
    ports: &Option<List<(u16, u16)>>,
    model: &Model,
    page: &mut Page,
) -> Result<(), NoMemory>
    ensures { OnOk result (page.new ≡ page.old ++ spelled (optional_pieces ports_pieces ports.now)) }
{
    let Some(ranges) = ports else {
        return Ok(());
    };
    page.word("port")?;
    show_list(ranges.as_slice(), model, page)?;
    Ok(())
}

fn is_said(ends: &Ends) -> bool
    ensures { result ≡ is_said ends.now }
{
    ends.addrs.is_some() || ends.ports.is_some()
}

fn show_end(word: &str, ends: &Ends, model: &Model, page: &mut Page) -> Result<(), NoMemory>
    ensures { OnOk result (page.new ≡ page.old ++ spelled (end_pieces model.now word.now ends.now)) }
{
    if !is_said(ends) {
        return Ok(());
    }
    page.word(word)?;
    ends.show(model, page)?;
    Ok(())
}

/// Both ends of a rule.
pub(crate) fn show_where(
    from: &Ends,
    to: &Ends,
    model: &Model,
    page: &mut Page,
) -> Result<(), NoMemory>
    ensures { OnOk result (page.new ≡ page.old ++ spelled (where_pieces model.now from.now to.now)) }
{
    if !is_said(from) && !is_said(to) {
        return page.word("all");
    }
    show_end("from", from, model, page)?;
    show_end("to", to, model, page)?;
    Ok(())
}
