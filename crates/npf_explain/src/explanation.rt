// What a configuration says of a packet.
ghost use Rattle.std.specs.Prelude.{◌≡◌, IfOk};
ghost use Rattle.std.specs.Option.{option_map};
ghost use Rattle.npf_ruleset.specs.Configuration.{configuration};
ghost use Rattle.npf_explain.specs.declared.decider.Decider.{Decider};
ghost use Rattle.npf_explain.specs.Explanation.{explanation};

use crate::asked::PacketAsked;
use crate::decider::{Decider, find_decider};
use crate::maps::maps_told;
use crate::rules::groups_told;
use crate::told::Explanation;
use npf_ruleset::{Config, map_for};
use npf_types::{Dir, Facts, IfId, List, NoMemory};
use std::alloc::Global;

/// What the configuration says of a packet with these facts that passes there: of each group and each rule in the order of inspection, and of each
/// map in the order of the text.
pub fn explain(
    alloc: Global,
    config: &Config,
    facts: &Facts,
    ifid: IfId,
    dir: Dir,
) -> Result<Explanation, NoMemory>
    ensures { IfOk result (λ told. told ≡ explanation (configuration config.now) facts.now ifid dir) }
{
    let asked = PacketAsked {
        tables: config.tables(),
        facts,
        ifid,
        dir,
    };
    let model = config.model();
    let decider = find_decider(alloc, config, &asked)?;
    let groups = groups_told(alloc, model.groups.as_slice(), &asked, decider)?;
    let map = map_for(config, facts, &[], ifid, dir);
    let maps = maps_told(alloc, model.maps.as_slice(), &asked, map)?;
    Ok(Explanation {
        decider: place_of(decider),
        groups: List::of_vec(groups),
        map,
        maps: List::of_vec(maps),
    })
}

fn place_of(decider: Option<Decider>) -> Option<usize>
    ensures { result ≡ option_map (λ (d : Decider). d.place) decider }
{
    match decider {
        Some(decider) => Some(decider.place),
        None => None,
    }
}
