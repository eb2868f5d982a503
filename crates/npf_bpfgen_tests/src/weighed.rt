// What the compiler and the weight ask of a rule: short lists, and numbers of tables below 2^31.
ghost use Rattle.std.specs.Prelude.{◌≡◌, ◌≤◌, ◌<◌, ◌^◌, ◌↔◌, IsTrue, IfOk, length};
ghost use Rattle.npf_model.specs.Count.{listed};
ghost use Rattle.npf_bpfgen.specs.Condition.{HasItemNumber, HasItemNumbers, HasTableNumbers};
ghost use Rattle.npf_bpfgen.specs.RuleWeight.{HasShortEnds, HasShortLists};

use anyhow::{Result, ensure};
use npf_bpfgen::weight;
use npf_model::{AddrItem, Ends, Rule};
use npf_types::List;

/// The longest list of a row.
const MAX_ITEMS: usize = 1_000_000;

/// The rule and its weight, if it may be compiled.
pub fn weighed(rule: Rule) -> Result<(Rule, u64)>
    ensures lists { IfOk result (λ weighed. HasShortLists weighed.0) }
    ensures tables { IfOk result (λ weighed. HasTableNumbers weighed.0) }
{
    ensure!(
        rule.protos.as_slice().len() <= MAX_ITEMS,
        "too many protocols"
    );
    ensure!(
        are_short(&rule.from) && are_short(&rule.to),
        "too long a list"
    );
    ensure!(
        have_numbers(&rule.from.addrs) && have_numbers(&rule.to.addrs),
        "too great a table's number"
    );
    let weight = weight(&rule);
    Ok((rule, weight))
}

fn are_short(ends: &Ends) -> bool
    ensures { IsTrue result → HasShortEnds ends.now }
{
    is_short(&ends.addrs) && is_short(&ends.ports)
}

fn is_short<T>(list: &Option<List<T>>) -> bool
    ensures { IsTrue result → listed list.now < 2 ^ 56 }
{
    match list {
        Some(items) => items.as_slice().len() <= MAX_ITEMS,
        None => true,
    }
}

fn have_numbers(list: &Option<List<AddrItem>>) -> bool
    ensures { IsTrue result ↔ HasItemNumbers list.now }
{
    match list {
        Some(items) => items.as_slice().iter().all(has_number),
        None => true,
    }
}

fn has_number(item: &AddrItem) -> bool
    ensures { IsTrue result ↔ HasItemNumber item.now }
{
    match item {
        AddrItem::Net(_) => true,
        AddrItem::InTable(number) => *number < 0x8000_0000,
    }
}
