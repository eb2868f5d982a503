// What was met of a text so far.
ghost use Rattle.std.specs.Prelude.{◌≡◌, ◌≤◌, ◌++◌, ℕ, List, [], None};
ghost use Rattle.npf_faults.specs.declared.fault.ConfFault.{ConfFault};
ghost use Rattle.npf_faults.specs.First.{first_fault};
ghost use Rattle.npf_expand_values.specs.Summary.{counted};
ghost use Rattle.npf_expand.specs.Rule.{passing_faults};
ghost use Rattle.npf_types.specs.declared.limits.TheConstants.{MAX_LIST_ELEMENTS};

use npf_expand_values::counted_both;
use npf_faults::{ConfFault, Excess, Fault, earlier, fault_if};
use npf_types::Span;
use npf_types::limits::MAX_LIST_ELEMENTS;

/// The fault that stands first, and how many elements there are: at most one more than all lists may have, and no more than they
/// may where no fault was met.
#[derive(Clone, Copy)]
pub(crate) struct NodeTally {
    pub(crate) first: Option<ConfFault>,
    pub(crate) elements: usize,
    ghost few: { first ≡ None → elements ≤ MAX_LIST_ELEMENTS },
}

impl NodeTally {
    ghost use Rattle.npf_expand.specs.Meets.{Meets};

    pub(crate) fn none() -> NodeTally
        ensures { (result.first ≡ None) × (result.elements ≡ 0) }
    {
        NodeTally {
            first: None,
            elements: 0,
        }
    }

    /// Meets a fault.
    pub(crate) fn meet(&mut self, fault: Option<ConfFault>)
        ensures { (faults : List ConfFault) → fault ≡ first_fault faults → Meets self.old self.new faults 0 }
    {
        self.first = earlier(self.first, fault);
    }

    /// Meets a fault of a rule, and its elements, with the fault that they make at its place.
    pub(crate) fn meet_rule(&mut self, fault: Option<ConfFault>, more: usize, span: Span)
        ensures { (faults : List ConfFault) → (elements : ℕ) → fault ≡ first_fault faults → more ≡ counted elements
            → Meets self.old self.new (faults ++ passing_faults self.old.elements elements span) elements }
    {
        let passing = passing_fault(self.elements, more, span);
        let both = earlier(fault, passing);
        self.first = earlier(self.first, both);
        self.elements = counted_both(self.elements, more);
    }
}

fn passing_fault(before: usize, more: usize, span: Span) -> Option<ConfFault>
    ensures { result ≡ first_fault (passing_faults before more span) }
{
    let passes = before <= MAX_LIST_ELEMENTS && before.saturating_add(more) > MAX_LIST_ELEMENTS;
    let fault = Fault::TooMany(Excess::Elements, MAX_LIST_ELEMENTS as u64 + 1);
    fault_if(passes, span, fault)
}
