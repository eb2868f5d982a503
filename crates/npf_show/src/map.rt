// Maps.
ghost use Rattle.std.specs.Prelude.{◌≡◌, ◌++◌, IfOk, OnOk};
ghost use Rattle.npf_show.specs.Map.{map_line, algo_pieces, arrow_pieces, static_pieces, one_proto_pieces, side_pieces, side_port_pieces, pass_pieces};
ghost use Rattle.npf_show.specs.Piece.{spelled, optional_pieces};

use crate::bound::show_name;
use crate::filter::show_filter;
use crate::page::Page;
use crate::shown::Shown;
use npf_model::{Algo, Arrow, Map, Model, Rule, Side};
use npf_types::NoMemory;
use std::alloc::Global;

/// A map's line as the canonical text has it, with its line feed.
pub fn show_map(alloc: Global, model: &Model, map: &Map) -> Result<Vec<u8>, NoMemory>
    ensures { IfOk result (λ text. text.items ≡ spelled (map_line model.now map.now)) }
{
    let mut page = Page::new(alloc);
    map.show(model, &mut page)?;
    Ok(page.into_text())
}

impl Shown for Map {
    ghost pieces = { map_line };

    fn show(&self, model: &Model, page: &mut Page) -> Result<(), NoMemory> {
        page.glued_word(b"map")?;
        show_name(&self.on.name, page)?;
        self.algo.show(model, page)?;
        show_protocol(self.proto, page)?;
        self.inside.show(model, page)?;
        self.arrow.show(model, page)?;
        self.outside.show(model, page)?;
        show_pass(&self.filter, model, page)?;
        page.end_line()?;
        Ok(())
    }
}

impl Shown for Algo {
    ghost pieces = { λ model algo. algo_pieces algo };

    fn show(&self, _model: &Model, page: &mut Page) -> Result<(), NoMemory> {
        match self {
            Algo::Dynamic => page.word("dynamic"),
            Algo::Netmap => show_static("netmap", page),
            Algo::Npt66 => show_static("npt66", page),
        }
    }
}

fn show_static(algo: &str, page: &mut Page) -> Result<(), NoMemory>
    ensures { OnOk result (page.new ≡ page.old ++ spelled (static_pieces algo.now)) }
{
    page.word("static")?;
    page.word("algo")?;
    page.word(algo)?;
    Ok(())
}

impl Shown for Arrow {
    ghost pieces = { λ model arrow. arrow_pieces arrow };

    fn show(&self, _model: &Model, page: &mut Page) -> Result<(), NoMemory> {
        match self {
            Arrow::ToOutside => page.sign("->"),
            Arrow::ToInside => page.sign("<-"),
            Arrow::Both => page.sign("<->"),
        }
    }
}

fn show_protocol(protocol: Option<u8>, page: &mut Page) -> Result<(), NoMemory>
    ensures { OnOk result (page.new ≡ page.old ++ spelled (optional_pieces one_proto_pieces protocol)) }
{
    let Some(protocol) = protocol else {
        return Ok(());
    };
    page.word("proto")?;
    page.number(u32::from(protocol))?;
    Ok(())
}

impl Shown for Side {
    ghost pieces = { λ model side. side_pieces side };

    fn show(&self, model: &Model, page: &mut Page) -> Result<(), NoMemory> {
        self.net.show(model, page)?;
        show_side_ports(self.ports, model, page)?;
        Ok(())
    }
}

fn show_side_ports(
    ports: Option<(u16, u16)>,
    model: &Model,
    page: &mut Page,
) -> Result<(), NoMemory>
    ensures { OnOk result (page.new ≡ page.old ++ spelled (optional_pieces side_port_pieces ports)) }
{
    let Some(range) = ports else {
        return Ok(());
    };
    page.word("port")?;
    range.show(model, page)?;
    Ok(())
}

fn show_pass(filter: &Option<Rule>, model: &Model, page: &mut Page) -> Result<(), NoMemory>
    ensures { OnOk result (page.new ≡ page.old ++ spelled (optional_pieces (pass_pieces model.now) filter.now)) }
{
    let Some(filter) = filter else {
        return Ok(());
    };
    page.word("pass")?;
    show_filter(filter, model, page)?;
    Ok(())
}
