// Rules in their order of precedence, and groups behind them as rules of their own.
ghost use Rattle.std.specs.Prelude.{◌≡◌, ◌++◌, IfOk, OnOk, map};
ghost use Rattle.npf_dead_groups.specs.Entries.{AreGroupedEntries, DescribesEvery, group_entry};

use npf_model::{Ends, Group, Rule, StateOpt};
use npf_precedence::{RuleEntry, in_order};
use npf_types::{Decision, List, NoMemory};
use std::alloc::Global;

/// The rules of these groups in their order of precedence, and behind them each group as this rule, which describes every packet, at the group's place.
pub(crate) fn entries_of<'a>(
    alloc: Global,
    groups: &'a [Group],
    every: &'a Rule,
) -> Result<Vec<RuleEntry<'a>>, NoMemory>
    requires { DescribesEvery every.now }
    ensures { IfOk result (λ entries. AreGroupedEntries groups.now entries.items) }
{
    let mut entries = in_order(alloc, groups)?;
    let entry = RuleEntry {
        place: 0,
        group_dir: None,
        group_on: None,
        within_dir: None,
        within_on: None,
        rule: every,
    };
    push_groups(&mut entries, groups, entry)?;
    Ok(entries)
}

fn push_groups<'a>(
    entries: &mut Vec<RuleEntry<'a>>,
    groups: &[Group],
    every: RuleEntry<'a>,
) -> Result<(), NoMemory>
    ensures { OnOk result (entries.new.items ≡ entries.old.items ++ map (group_entry every.entry) groups.now) }
{
    for group in groups {
        entries.push(RuleEntry {
            group_dir: group.dir,
            group_on: group.on,
            ..every
        })?;
    }
    Ok(())
}

/// A rule that describes every packet.
pub(crate) fn every_packet(alloc: Global) -> Rule
    ensures { DescribesEvery result }
{
    Rule {
        decision: Decision::Pass,
        state: StateOpt::Not,
        dir: None,
        last: false,
        on: None,
        v6: None,
        protos: List::of_vec(Vec::new(alloc)),
        flags: None,
        icmp: None,
        from: ANY_END,
        to: ANY_END,
        procedure: None,
    }
}

/// Any address and any port.
const ANY_END: Ends = Ends {
    excluded: false,
    addrs: None,
    ports: None,
};
