// Laws of the first fault, each a function without a body whose contract is the law.
ghost use Rattle.std.specs.Prelude.{◌≡◌, List, [], Some, None};
ghost use Rattle.npf_faults.specs.declared.fault.ConfFault.{ConfFault};
ghost use Rattle.npf_faults.specs.First.{first_fault, IsFirstFaultOf};

/// The search finds the first fault of every list, and none only where there is none.
pub fn finds_the_first()
    ensures found { (fs : List ConfFault) → (f : ConfFault) → first_fault fs ≡ Some f → IsFirstFaultOf fs f }
    ensures none { (fs : List ConfFault) → first_fault fs ≡ None → fs ≡ [] }
{}
