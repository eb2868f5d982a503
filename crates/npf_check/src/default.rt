// The default group: there is one.
ghost use Rattle.std.specs.Prelude.{◌≡◌, [], ◌∷◌, MatchOption};
ghost use Rattle.npf_faults.specs.First.{first_fault};
ghost use Rattle.npf_check.specs.Default.{default_faults, default_place};

use npf_faults::{ConfFault, Fault, fault_if};
use npf_syntax::{GroupHead, Stmt, Tree};
use npf_types::Span;

/// `NoDefault` at the text's end, or `TwoDefaults` at the second default group.
pub(crate) fn default_fault(tree: &Tree) -> Option<ConfFault>
    ensures { result ≡ first_fault (default_faults tree.now) }
{
    let mut met = false;
    for stmt in tree.stmts.as_slice() {
        if let Some(span) = default_place(stmt) {
            if met {
                return fault_if(true, span, Fault::TwoDefaults);
            }
            met = true;
        }
    }
    fault_if(!met, tree.end, Fault::NoDefault)
}

fn default_place(stmt: &Stmt) -> Option<Span>
    ensures { MatchOption result (default_place stmt.now ≡ []) (λ span. default_place stmt.now ≡ span ∷ []) }
{
    match stmt {
        Stmt::Group { head, span, .. } => match head {
            GroupHead::Default { .. } => Some(*span),
            GroupHead::Named { .. } => None,
        },
        _ => None,
    }
}
