// What maps say of a packet.
ghost use Rattle.std.specs.Prelude.{◌≡◌, IfOk};
ghost use Rattle.npf_ruleset.specs.Tables.{entries};
ghost use Rattle.npf_explain.specs.Explanation.{is_translated_before, map_told, maps_told};

use crate::asked::PacketAsked;
use crate::told::MapTold;
use npf_model::Map;
use npf_ruleset::map_misfit;
use npf_types::NoMemory;
use std::alloc::Global;

/// What each of these maps says, where the one at this place is the first that applies.
pub(crate) fn maps_told(
    alloc: Global,
    maps: &[Map],
    asked: &PacketAsked<'_>,
    first: Option<u32>,
) -> Result<Vec<MapTold>, NoMemory>
    ensures { IfOk result (λ told. told.items ≡ maps_told (entries asked.now.tables.now) asked.now.facts.now asked.now.ifid asked.now.dir first 0 maps.now) }
{
    let mut told = Vec::new(alloc);
    for (at, map) in maps.iter().enumerate() {
        told.push(map_told(map, at, asked, first))?;
    }
    Ok(told)
}

fn map_told(map: &Map, at: usize, asked: &PacketAsked<'_>, first: Option<u32>) -> MapTold
    ensures { result ≡ map_told (entries asked.now.tables.now) asked.now.facts.now asked.now.ifid asked.now.dir first at map.now }
{
    if is_translated_before(first, at) {
        return MapTold::NotReached;
    }
    match map_misfit(map, asked.tables, asked.facts, asked.ifid, asked.dir) {
        Some(part) => MapTold::Misfits(part),
        None => MapTold::Applies,
    }
}

fn is_translated_before(first: Option<u32>, at: usize) -> bool
    ensures { result ≡ is_translated_before first at }
{
    match first {
        Some(first) => (first as usize) < at,
        None => false,
    }
}
