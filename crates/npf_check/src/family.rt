// A rule has an address family left.
ghost use Rattle.std.specs.Prelude.{◌≡◌};
ghost use Rattle.npf_faults.specs.First.{first_fault};
ghost use Rattle.npf_model.specs.Describes.{list_allows};
ghost use Rattle.npf_check.specs.Family.{asks_for, family_faults, leaves_family};

use npf_faults::{ConfFault, Fault, fault_if};
use npf_model::{AddrItem, Rule, some_allow};
use npf_types::{List, Span};

/// `FamilyMix`, where no family is left for the rule at this place.
pub(crate) fn family_fault(span: Span, rule: &Rule) -> Option<ConfFault>
    ensures { result ≡ first_fault (family_faults span rule.now) }
{
    let left = leaves_family(rule, false) || leaves_family(rule, true);
    fault_if(!left, span, Fault::FamilyMix)
}

// Whether the family, IPv6 where `v6` is true, is left for the rule.
fn leaves_family(rule: &Rule, v6: bool) -> bool
    ensures { result ≡ leaves_family rule.now v6 }
{
    asks_for(rule.v6, v6) && list_allows(v6, &rule.from.addrs) && list_allows(v6, &rule.to.addrs)
}

fn asks_for(asked: Option<bool>, v6: bool) -> bool
    ensures { result ≡ asks_for asked v6 }
{
    match asked {
        None => true,
        Some(asked) => asked == v6,
    }
}

fn list_allows(v6: bool, addrs: &Option<List<AddrItem>>) -> bool
    ensures { result ≡ list_allows v6 addrs.now }
{
    match addrs {
        None => true,
        Some(items) => some_allow(items.as_slice(), v6),
    }
}
