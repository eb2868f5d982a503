// The elaboration of one rule that stands in no text, as one that is added to a ruleset. A model keeps no variables, so each is
// `UnknownVariable`; whoever knows the lists of the other rules sees that all are short enough.
ghost use Rattle.std.specs.Prelude.{◌≡◌, IfErr, IfOk};
ghost use Rattle.npf_model.specs.Count.{elements_of};
ghost use Rattle.npf_expand_values.specs.Source.{declared_of};
ghost use Rattle.npf_expand.specs.LoneRule.{ElaboratesRule, RefusesRule, elements_alone};

use crate::group::{rule_fault, rule_of};
use npf_expand_values::{Declarations, Interfaces, Scope, Variables};
use npf_faults::Refused;
use npf_model::{Ifaces, Model, Rule};
use npf_syntax::RuleTree;
use std::alloc::Global;

/// What a rule means by itself for a run with these interfaces: no variable is defined, and its tables and procedures are
/// the model's. A name that is none of theirs has the number 4,294,967,295. Refused with the fault that stands first in the
/// rule, of two at one place the one with the smaller number, or for want of memory. Its lists have as many elements as are
/// written there, an interface or a function as many as it gives addresses; whether they are too many isn't looked at.
pub fn expand_rule(
    alloc: Global,
    tree: &RuleTree,
    model: &Model,
    ifaces: &Ifaces,
) -> Result<Rule, Refused>
    ensures ok { IfOk result (λ rule. ElaboratesRule tree.now (declared_of model.now) ifaces.now.list rule) }
    ensures refused { IfErr result (RefusesRule tree.now ifaces.now.list) }
    ensures elements { IfOk result (λ rule. elements_of rule ≡ elements_alone tree.now ifaces.now.list) }
{
    let interfaces = Interfaces::new(alloc, ifaces.list.as_slice())?;
    read_rule(alloc, tree, model, &interfaces)
}

fn read_rule<'a>(
    alloc: Global,
    tree: &'a RuleTree,
    model: &'a Model,
    interfaces: &'a Interfaces<'_>,
) -> Result<Rule, Refused>
    ensures ok { IfOk result (λ rule. ElaboratesRule tree.now (declared_of model.now) interfaces.now.list.now rule) }
    ensures refused { IfErr result (RefusesRule tree.now interfaces.now.list.now) }
    ensures elements { IfOk result (λ rule. elements_of rule ≡ elements_alone tree.now interfaces.now.list.now) }
{
    let declarations = Declarations::of_model(alloc, model)?;
    let variables = Variables::new(alloc, interfaces);
    let scope = Scope {
        variables: &variables,
        declarations: &declarations,
    };
    if let Some(fault) = rule_fault(&scope, tree) {
        return Err(Refused::Fault(fault));
    }
    Ok(rule_of(&scope, alloc, tree)?)
}
