// What is laid out flat. Rows stand with their programs; apart they were no faster. Where no rule of a group is `final`, its rules aren't
// gone over for that first.
ghost use Rattle.std.specs.Prelude.{◌≡◌, true};
ghost use Rattle.npf_ruleset.specs.Always.{DescribesAll};

use crate::binding::Binding;
use crate::place::RulePlace;
use crate::row::Row;
use npf_bpf::Program;

/// A rule: what each packet meets that it describes, whether it is `final`, what it is bound to, its
/// program, and where it stands in the model. `always` tells that the program describes every packet,
/// so that it needn't be run.
#[derive(Drop)]
pub struct FlatRule {
    pub(crate) row: Row,
    pub(crate) last: bool,
    pub(crate) binding: Binding,
    pub(crate) program: Program,
    pub(crate) place: RulePlace,
    pub(crate) always: bool,
    ghost described: { always ≡ true → DescribesAll program },
}

impl FlatRule {
    /// The program of the rule.
    pub fn program(&self) -> &Program
        ensures { result.now ≡ self.now.program }
    {
        &self.program
    }
}

/// A group: what it is bound to, how many rules it has, with those of its rulesets, and whether one of them is `final`.
#[derive(Clone, Copy, Drop)]
pub(crate) struct FlatGroup {
    pub(crate) binding: Binding,
    pub(crate) count: usize,
    pub(crate) finals: bool,
}
