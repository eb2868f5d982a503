// Why a rule doesn't match a packet, or a map doesn't apply to it: the first part that the packet doesn't fit. No program is run.
ghost use Rattle.std.specs.Prelude.{◌≡◌};
ghost use Rattle.npf_ruleset.specs.Misfit.{fits_filter_part, fits_left_block, fits_left_port, fits_map_part, fits_own_part, fits_packet_part, fits_right_block, fits_right_port, fits_rule_part, map_misfit, rule_misfit, translates};
ghost use Rattle.npf_ruleset.specs.MisfitLaw.{AppliesWithoutMisfit, MatchesWithoutMisfit};
ghost use Rattle.npf_ruleset.specs.Place.{placed_rule};
ghost use Rattle.npf_ruleset.specs.Tables.{entries};

use crate::binding::{fits_dir, fits_on};
use crate::describes::{
    destination_of, fits_addrs, fits_family, fits_flags, fits_icmp, fits_port, fits_ports,
    fits_protocol, source_of,
};
use crate::map_choice::{comes_inside, fits_protocol as fits_map_protocol, goes_outside, is_on};
use crate::place::Placed;
use npf_model::{Arrow, Map, Rule};
use npf_table::Table;
use npf_types::{Dir, Facts, IfId};
use std::sync::Arc;

/// A part of what a rule or a map asks of a packet.
#[derive(Clone, Copy, Debug, PartialEq, Eq)]
pub enum Part {
    Direction,
    Interface,
    Family,
    Protocol,
    Flags,
    Icmp,
    Source,
    SourcePort,
    Destination,
    DestinationPort,
}

impl Part {
    /// All parts, in the order in which they are asked.
    pub const ALL: [Part; 10] = [
        Part::Direction,
        Part::Interface,
        Part::Family,
        Part::Protocol,
        Part::Flags,
        Part::Icmp,
        Part::Source,
        Part::SourcePort,
        Part::Destination,
        Part::DestinationPort,
    ];
}

/// The first part of a rule that the packet doesn't fit, or None exactly where the rule matches. The tables are those that
/// the rule's model declares, in its order. It takes no memory.
pub fn rule_misfit(
    placed: &Placed<'_>,
    tables: &[Arc<Table>],
    facts: &Facts,
    ifid: IfId,
    dir: Dir,
) -> Option<Part>
    ensures { result ≡ rule_misfit (placed_rule placed.now) (entries tables.now) facts.now ifid dir }
{
    Part::ALL.iter().copied().find(|part| !fits_rule_part(placed, tables, facts, ifid, dir, *part))
}

fn fits_rule_part(
    placed: &Placed<'_>,
    tables: &[Arc<Table>],
    facts: &Facts,
    ifid: IfId,
    dir: Dir,
    part: Part,
) -> bool
    ensures { result ≡ fits_rule_part (placed_rule placed.now) (entries tables.now) facts.now ifid dir part }
{
    match part {
        Part::Direction => fits_dir(placed.within_dir, dir) && fits_dir(placed.rule.dir, dir),
        Part::Interface => fits_on(placed.within_on, ifid) && fits_on(placed.rule.on, ifid),
        _ => fits_packet_part(placed.rule, tables, facts, part),
    }
}

fn fits_packet_part(rule: &Rule, tables: &[Arc<Table>], facts: &Facts, part: Part) -> bool
    ensures { result ≡ fits_packet_part rule.now (entries tables.now) facts.now part }
{
    match part {
        Part::Direction | Part::Interface => true,
        Part::Family => fits_family(rule.v6, facts.src),
        Part::Protocol => fits_protocol(rule.protos.as_slice(), facts.proto),
        Part::Flags => fits_flags(rule.flags, rule.decision, rule.state, &facts.l4),
        Part::Icmp => fits_icmp(rule.icmp, &facts.l4),
        Part::Source => fits_addrs(&rule.from, tables, facts.src),
        Part::SourcePort => fits_ports(&rule.from.ports, source_of(&facts.l4)),
        Part::Destination => fits_addrs(&rule.to, tables, facts.dst),
        Part::DestinationPort => fits_ports(&rule.to.ports, destination_of(&facts.l4)),
    }
}

/// The first part of a map that the packet doesn't fit, or None exactly where the map applies. What the map asks of its own
/// sides and of its protocol is asked with the same part of its filter. It takes no memory.
pub fn map_misfit(
    map: &Map,
    tables: &[Arc<Table>],
    facts: &Facts,
    ifid: IfId,
    dir: Dir,
) -> Option<Part>
    ensures { result ≡ map_misfit map.now (entries tables.now) facts.now ifid dir }
{
    Part::ALL.iter().copied().find(|part| !fits_map_part(map, tables, facts, ifid, dir, *part))
}

fn fits_map_part(
    map: &Map,
    tables: &[Arc<Table>],
    facts: &Facts,
    ifid: IfId,
    dir: Dir,
    part: Part,
) -> bool
    ensures { result ≡ fits_map_part map.now (entries tables.now) facts.now ifid dir part }
{
    fits_own_part(map, facts, ifid, dir, part) && fits_filter_part(&map.filter, tables, facts, part)
}

fn fits_filter_part(filter: &Option<Rule>, tables: &[Arc<Table>], facts: &Facts, part: Part) -> bool
    ensures { result ≡ fits_filter_part filter.now (entries tables.now) facts.now part }
{
    match filter {
        Some(rule) => fits_packet_part(rule, tables, facts, part),
        None => true,
    }
}

fn fits_own_part(map: &Map, facts: &Facts, ifid: IfId, dir: Dir, part: Part) -> bool
    ensures { result ≡ fits_own_part map.now facts.now ifid dir part }
{
    match part {
        Part::Direction => translates(map.arrow, dir),
        Part::Interface => is_on(&map.on, ifid),
        Part::Family | Part::Flags | Part::Icmp => true,
        Part::Protocol => fits_map_protocol(map.proto, facts.proto),
        Part::Source => fits_left_block(map, facts, dir),
        Part::SourcePort => fits_left_port(map, facts, dir),
        Part::Destination => fits_right_block(map, facts, dir),
        Part::DestinationPort => fits_right_port(map, facts, dir),
    }
}

fn translates(arrow: Arrow, dir: Dir) -> bool
    ensures { result ≡ translates arrow dir }
{
    match dir {
        Dir::Out => goes_outside(arrow),
        Dir::In => comes_inside(arrow),
    }
}

fn fits_left_block(map: &Map, facts: &Facts, dir: Dir) -> bool
    ensures { result ≡ fits_left_block map.now facts.now dir }
{
    match dir {
        Dir::Out => map.inside.net.has(facts.src),
        Dir::In => true,
    }
}

fn fits_left_port(map: &Map, facts: &Facts, dir: Dir) -> bool
    ensures { result ≡ fits_left_port map.now facts.now dir }
{
    match dir {
        Dir::Out => fits_port(map.inside.ports, source_of(&facts.l4)),
        Dir::In => true,
    }
}

fn fits_right_block(map: &Map, facts: &Facts, dir: Dir) -> bool
    ensures { result ≡ fits_right_block map.now facts.now dir }
{
    match dir {
        Dir::Out => true,
        Dir::In => map.outside.net.has(facts.dst),
    }
}

fn fits_right_port(map: &Map, facts: &Facts, dir: Dir) -> bool
    ensures { result ≡ fits_right_port map.now facts.now dir }
{
    match dir {
        Dir::Out => true,
        Dir::In => fits_port(map.outside.ports, destination_of(&facts.l4)),
    }
}

/// A rule matches a packet exactly where the packet fits each of its parts. The function does nothing: it is a theorem.
pub fn matches_without_misfit()
    ensures { MatchesWithoutMisfit }
{}

/// A map applies to a packet exactly where the packet fits each of its parts. The function does nothing: it is a theorem.
pub fn applies_without_misfit()
    ensures { AppliesWithoutMisfit }
{}
