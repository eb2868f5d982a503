// The first fault of a model.
ghost use Rattle.std.specs.Prelude.{◌≡◌, IfErr, IfOk, []};
ghost use Rattle.npf_faults.specs.First.{first_fault};
ghost use Rattle.npf_check.specs.Fault.{RefusedByFirst, check_faults};

use crate::default::default_fault;
use crate::duplicate::duplicate_fault;
use crate::limit::limit_fault;
use crate::map::map_fault;
use crate::unbuilt::unbuilt_fault;
use crate::undefined::{undefined_procedure, undefined_table};
use crate::written_rule::rules_fault;
use npf_faults::{ConfFault, Refused, earlier};
use npf_model::Model;
use npf_syntax::Tree;
use npf_types::NoMemory;
use std::alloc::Global;

/// Checks a tree and the model that it means (npf.conf(5)). Refused with the fault that stands first in the text, of two at one
/// place with that of the smaller number, or for want of memory for the text's names:
///
/// - `NoDefault` at the text's end, `TwoDefaults` at the second default group
/// - `UnknownTable` at the `<`, `UnknownProcedure` at the string
/// - `FamilyMix` and `PortNeedsTcpUdp` at the rule, or at a map's filter
/// - `DuplicateName` at the statement or item, `BadMap` at the statement, `Unbuilt` at the statement or the word
/// - `TooMany` rules, tables, maps or procedures at the first that is too many
pub fn check(alloc: Global, tree: &Tree, model: &Model) -> Result<(), Refused>
    ensures ok { IfOk result (λ _. check_faults tree.now model.now ≡ []) }
    ensures err { IfErr result (RefusedByFirst (check_faults tree.now model.now)) }
{
    match check_fault(alloc, tree, model)? {
        Some(fault) => Err(Refused::Fault(fault)),
        None => Ok(()),
    }
}

fn check_fault(alloc: Global, tree: &Tree, model: &Model) -> Result<Option<ConfFault>, NoMemory>
    ensures { IfOk result (λ first. first ≡ first_fault (check_faults tree.now model.now)) }
{
    let default = default_fault(tree);
    let table = undefined_table(alloc, tree)?;
    let procedure = undefined_procedure(alloc, tree)?;
    let rule = rules_fault(tree, model);
    let duplicate = duplicate_fault(alloc, tree)?;
    let map = map_fault(alloc, tree, model)?;
    let unbuilt = unbuilt_fault(tree);
    let limit = limit_fault(tree);
    let undefined = earlier(earlier(default, table), procedure);
    let named = earlier(earlier(undefined, rule), duplicate);
    Ok(earlier(earlier(earlier(named, map), unbuilt), limit))
}
