// What products ask of packets of a kind.
ghost use Rattle.std.specs.Prelude.{◌≡◌, ◌≤◌, ◌+◌, IfOk, IsErrOf, OnOk, length};
ghost use Rattle.npf_steps.specs.Spent.{IsSpent};
ghost use Rattle.npf_products.specs.Lists.{AreLists};

use crate::condition::Condition;
use crate::kind::PacketKind;
use crate::product::{Product, conditions_of, possible};
use npf_steps::{Steps, Stopped};
use npf_types::List;
use std::alloc::Global;

/// The conditions of each product, which takes a step, and behind them those of all packets that there can be.
pub(crate) fn lists_of(
    alloc: Global,
    kind: PacketKind,
    products: &[Product<'_>],
    steps: &mut Steps,
) -> Result<Vec<List<Condition>>, Stopped>
    ensures lists { IfOk result (λ lists. AreLists kind products.now lists.items) }
    ensures counted { OnOk result (steps.old.taken + length products.now ≤ steps.new.taken) }
    ensures spent { IsErrOf result Stopped.Spent → IsSpent steps.new }
    ensures most { steps.new.most ≡ steps.old.most }
    ensures rises { steps.old.taken ≤ steps.new.taken }
{
    let mut lists = Vec::new(alloc);
    for product in products {
        steps.take(1)?;
        lists.push(conditions_of(alloc, kind, product)?)?;
    }
    lists.push(possible(alloc, kind)?)?;
    Ok(lists)
}
