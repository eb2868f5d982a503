// The words for what is told.
ghost use Rattle.std.specs.Prelude.{◌≡◌, ◌++◌, OnOk};
ghost use Rattle.npf_ctl_explain.specs.Word.{group_words, map_words, part_word, rule_words, unasked_words};

use npf_ctl_query::write_ordinal;
use npf_explain::{GroupTold, MapTold, RuleTold, Unasked};
use npf_ruleset::Part;
use npf_text::write_text;
use npf_types::NoMemory;

pub(crate) fn group_words(told: GroupTold) -> &'static str
    ensures { result.now ≡ group_words told }
{
    match told {
        GroupTold::Applies => " applies",
        GroupTold::OtherDirection => " other direction",
        GroupTold::OtherInterface => " other interface",
        GroupTold::NotReached => " not reached",
    }
}

pub(crate) fn write_rule_words(into: &mut Vec<u8>, told: RuleTold) -> Result<(), NoMemory>
    ensures { OnOk result (into.new.items ≡ into.old.items ++ rule_words told) }
{
    match told {
        RuleTold::Misfits(part) => write_misfit(into, part),
        RuleTold::Decides => write_text(into, " decides"),
        RuleTold::Overridden(by) => write_overridden(into, by),
        RuleTold::NotReached(why) => {
            write_text(into, " not reached: ")?;
            write_text(into, unasked_words(why))
        }
    }
}

fn write_overridden(into: &mut Vec<u8>, by: usize) -> Result<(), NoMemory>
    ensures { OnOk result (into.new.items ≡ into.old.items ++ rule_words (RuleTold.Overridden by)) }
{
    write_text(into, " overridden by ")?;
    write_ordinal(into, by)?;
    Ok(())
}

pub(crate) fn write_map_words(into: &mut Vec<u8>, told: MapTold) -> Result<(), NoMemory>
    ensures { OnOk result (into.new.items ≡ into.old.items ++ map_words told) }
{
    match told {
        MapTold::Misfits(part) => write_misfit(into, part),
        MapTold::Applies => write_text(into, " applies"),
        MapTold::NotReached => write_text(into, " not reached"),
    }
}

fn write_misfit(into: &mut Vec<u8>, part: Part) -> Result<(), NoMemory>
    ensures { OnOk result (into.new.items ≡ into.old.items ++ map_words (MapTold.Misfits part)) }
{
    write_text(into, " no ")?;
    write_text(into, part_word(part))
}

fn part_word(part: Part) -> &'static str
    ensures { result.now ≡ part_word part }
{
    match part {
        Part::Direction => "direction",
        Part::Interface => "interface",
        Part::Family => "family",
        Part::Protocol => "protocol",
        Part::Flags => "flags",
        Part::Icmp => "icmp",
        Part::Source => "source",
        Part::SourcePort => "source-port",
        Part::Destination => "destination",
        Part::DestinationPort => "destination-port",
    }
}

fn unasked_words(why: Unasked) -> &'static str
    ensures { result.now ≡ unasked_words why }
{
    match why {
        Unasked::BehindFinal => "behind a final rule",
        Unasked::GroupElsewhere => "group elsewhere",
        Unasked::GroupAnswered => "a group answered",
    }
}
