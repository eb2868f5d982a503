// What groups and their rules say of a packet.
ghost use Rattle.std.specs.Prelude.{◌≡◌, ◌≤◌, IfOk, length, map};
ghost use Rattle.npf_types.specs.declared.limits.TheConstants.{MAX_RULES};
ghost use Rattle.npf_model.specs.Verdict.{all_rules};
ghost use Rattle.npf_ruleset.specs.Tables.{entries};
ghost use Rattle.npf_explain.specs.declared.told.GroupTold.TheVariants.{Applies};
ghost use Rattle.npf_explain.specs.Asked.{entry_told};
ghost use Rattle.npf_explain.specs.Explanation.{group_told, groups_told, is_behind_final, is_decided_before, told_match};

use crate::asked::PacketAsked;
use crate::decider::Decider;
use crate::told::{GroupTold, RuleTold, ToldGroup, Unasked};
use npf_model::Group;
use npf_precedence::{RuleEntry, rules_of};
use npf_ruleset::{fits_dir, fits_on};
use npf_types::{List, NoMemory};
use std::alloc::Global;

/// What each of these groups says, and its rules, where this rule decides on the packet.
pub(crate) fn groups_told(
    alloc: Global,
    groups: &[Group],
    asked: &PacketAsked<'_>,
    decider: Option<Decider>,
) -> Result<Vec<ToldGroup>, NoMemory>
    requires { length (all_rules groups.now) ≤ MAX_RULES }
    ensures { IfOk result (λ told. told.items ≡ groups_told (entries asked.now.tables.now) asked.now.facts.now asked.now.ifid asked.now.dir decider 0 groups.now) }
{
    let mut told = Vec::new(alloc);
    let mut first = 0;
    for group in groups {
        let rules = rules_of(alloc, group, first)?;
        let says = group_told(group, asked, decider, first);
        told.push(told_group(alloc, says, rules.as_slice(), asked, decider)?)?;
        first += rules.len();
    }
    Ok(told)
}

// What a group says whose first rule has this place.
fn group_told(
    group: &Group,
    asked: &PacketAsked<'_>,
    decider: Option<Decider>,
    first: usize,
) -> GroupTold
    ensures { result ≡ group_told (entries asked.now.tables.now) asked.now.facts.now asked.now.ifid asked.now.dir decider first group.now }
{
    if is_decided_before(decider, first) {
        GroupTold::NotReached
    } else if !fits_dir(group.dir, asked.dir) {
        GroupTold::OtherDirection
    } else if !fits_on(group.on, asked.ifid) {
        GroupTold::OtherInterface
    } else {
        GroupTold::Applies
    }
}

fn told_group(
    alloc: Global,
    says: GroupTold,
    rules: &[RuleEntry<'_>],
    asked: &PacketAsked<'_>,
    decider: Option<Decider>,
) -> Result<ToldGroup, NoMemory>
    ensures { IfOk result (λ group. group ≡ record { told = says; rules = map (entry_told asked.now decider says) rules.now }) }
{
    let mut told = Vec::new(alloc);
    for entry in rules {
        told.push(rule_told(says, entry, asked, decider))?;
    }
    Ok(ToldGroup {
        told: says,
        rules: List::of_vec(told),
    })
}

// What a rule says whose group says this.
fn rule_told(
    group: GroupTold,
    entry: &RuleEntry<'_>,
    asked: &PacketAsked<'_>,
    decider: Option<Decider>,
) -> RuleTold
    ensures { result ≡ entry_told asked.now decider group entry.now }
{
    match group {
        GroupTold::Applies => asked_rule(entry, asked, decider),
        GroupTold::NotReached => RuleTold::NotReached(Unasked::GroupAnswered),
        GroupTold::OtherDirection | GroupTold::OtherInterface => {
            RuleTold::NotReached(Unasked::GroupElsewhere)
        }
    }
}

// What a rule of a group says that applies.
fn asked_rule(entry: &RuleEntry<'_>, asked: &PacketAsked<'_>, decider: Option<Decider>) -> RuleTold
    ensures { result ≡ entry_told asked.now decider Applies entry.now }
{
    if is_behind_final(decider, entry.place) {
        return RuleTold::NotReached(Unasked::BehindFinal);
    }
    match asked.misfit(entry) {
        Some(part) => RuleTold::Misfits(part),
        None => told_match(decider, entry.place),
    }
}

// What a rule says that matches in a group that applies.
fn told_match(decider: Option<Decider>, place: usize) -> RuleTold
    ensures { result ≡ told_match decider place }
{
    match decider {
        Some(decider) if decider.place != place => RuleTold::Overridden(decider.place),
        _ => RuleTold::Decides,
    }
}

fn is_decided_before(decider: Option<Decider>, place: usize) -> bool
    ensures { result ≡ is_decided_before decider place }
{
    match decider {
        Some(decider) => decider.place < place,
        None => false,
    }
}

fn is_behind_final(decider: Option<Decider>, place: usize) -> bool
    ensures { result ≡ is_behind_final decider place }
{
    match decider {
        Some(decider) => decider.last && decider.place < place,
        None => false,
    }
}
