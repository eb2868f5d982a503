// Which of two faults stands first.
ghost use Rattle.std.specs.Prelude.{◌≡◌};
ghost use Rattle.npf_faults.specs.First.{earlier, fault_if, first_fault, precedes};

use crate::fault::{ConfFault, Fault};
use npf_types::Span;

/// The one of two faults that is answered: that which stands first, and of two at one place that with the smaller number. None where there
/// is neither.
pub fn earlier(one: Option<ConfFault>, other: Option<ConfFault>) -> Option<ConfFault>
    ensures { result ≡ earlier one other }
{
    match (one, other) {
        (None, other) => other,
        (one, None) => one,
        (Some(one), Some(other)) => {
            if precedes(&other, &one) {
                Some(other)
            } else {
                Some(one)
            }
        }
    }
}

/// The fault, where the test holds.
pub fn fault_if(test: bool, span: Span, fault: Fault) -> Option<ConfFault>
    ensures { result ≡ first_fault (fault_if test span fault) }
{
    if test {
        Some(ConfFault { span, fault })
    } else {
        None
    }
}

fn precedes(one: &ConfFault, other: &ConfFault) -> bool
    ensures { result ≡ precedes one.now other.now }
{
    one.span.at < other.span.at
        || (one.span.at == other.span.at && one.fault.number() < other.fault.number())
}
