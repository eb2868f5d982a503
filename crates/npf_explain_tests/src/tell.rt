// An explanation as rows have it.
use anyhow::Result;
use npf_explain::{Explanation, GroupTold, MapTold, RuleTold, Unasked};
use npf_ruleset::Part;
use std::alloc::Global;
use std::fmt::Write;

/// A line for each group, rule and map; places count from 1.
pub fn tell(alloc: Global, told: &Explanation) -> Result<String> {
    let mut text = String::new(alloc);
    let mut place = 1usize;
    for group in told.groups.as_slice() {
        write!(text, "  group {}\n", group_words(group.told))?;
        for rule in group.rules.as_slice() {
            write!(text, "    rule {place}{}\n", rule_words(alloc, *rule)?)?;
            place = place.saturating_add(1);
        }
    }
    for (at, map) in told.maps.as_slice().iter().enumerate() {
        write!(
            text,
            "  map {}{}\n",
            at.saturating_add(1),
            map_words(alloc, *map)?
        )?;
    }
    Ok(text)
}

fn group_words(told: GroupTold) -> &'static str {
    match told {
        GroupTold::Applies => "applies",
        GroupTold::OtherDirection => "other direction",
        GroupTold::OtherInterface => "other interface",
        GroupTold::NotReached => "not reached",
    }
}

fn rule_words(alloc: Global, told: RuleTold) -> Result<String> {
    Ok(match told {
        RuleTold::Misfits(part) => format!(in alloc; " no {}", part_word(part))?,
        RuleTold::Decides => format!(in alloc; " decides")?,
        RuleTold::Overridden(by) => {
            format!(in alloc; " overridden by {}", by.saturating_add(1))?
        }
        RuleTold::NotReached(why) => format!(in alloc; " not reached, {}", unasked_words(why))?,
    })
}

fn unasked_words(why: Unasked) -> &'static str {
    match why {
        Unasked::BehindFinal => "behind a final rule",
        Unasked::GroupElsewhere => "group elsewhere",
        Unasked::GroupAnswered => "another group answered",
    }
}

fn map_words(alloc: Global, told: MapTold) -> Result<String> {
    Ok(match told {
        MapTold::Misfits(part) => format!(in alloc; " no {}", part_word(part))?,
        MapTold::Applies => format!(in alloc; " applies")?,
        MapTold::NotReached => format!(in alloc; " not reached")?,
    })
}

/// The word for a part.
pub fn part_word(part: Part) -> &'static str {
    match part {
        Part::Direction => "direction",
        Part::Interface => "interface",
        Part::Family => "family",
        Part::Protocol => "protocol",
        Part::Flags => "flags",
        Part::Icmp => "icmp",
        Part::Source => "source",
        Part::SourcePort => "source-port",
        Part::Destination => "destination",
        Part::DestinationPort => "destination-port",
    }
}
