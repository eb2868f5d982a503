// The compiled rules of a configuration.
ghost use Rattle.std.specs.Prelude.{◌≡◌, IfOk, IfErr, length};
ghost use Rattle.npf_model.specs.Verdict.{all_rules};
ghost use Rattle.npf_ruleset.specs.Refusal.{HasTables, IsBuildable, IsFirstHeavy};
ghost use Rattle.npf_config.specs.Refusal.{RefusesRules};
ghost use Rattle.npf_config.specs.RulePlaces.{inspected_places};
ghost use Rattle.npf_config.specs.Stage.{IfConf};

use crate::fault::LoadFault;
use crate::rule_places::inspected_places;
use npf_faults::{Excess, Fault};
use npf_model::Model;
use npf_ruleset::{BuildFault, Config, build};
use npf_syntax::Tree;
use npf_table::Table;
use std::alloc::Global;
use std::sync::Arc;

/// The flat configuration of a model, which is that of the tree, with its tables. Refused at the first rule that is too heavy, or
/// at the text's end for too many instructions.
pub(crate) fn compile_rules(
    alloc: Global,
    tree: &Tree,
    model: Model,
    tables: Vec<Arc<Table>>,
) -> Result<Config, LoadFault>
    requires buildable { IsBuildable model }
    requires tables { HasTables model tables.items }
    requires places { length (inspected_places tree.now.stmts) ≡ length (all_rules model.groups) }
    ensures model { IfOk result (λ config. config.model ≡ model) }
    ensures tables { IfOk result (λ config. config.tables ≡ tables) }
    ensures refuses { IfErr result (IfConf (RefusesRules tree.now model)) }
{
    match build(alloc, model, tables) {
        Ok(config) => Ok(config),
        Err(BuildFault::TooLong { rule, weight }) => {
            let places = inspected_places(alloc, tree.stmts.as_slice())?;
            let fault = Fault::TooMany(Excess::Weight, weight);
            Err(LoadFault::at(places[rule as usize], fault))
        }
        Err(BuildFault::TooMuch(count)) => {
            let fault = Fault::TooMany(Excess::Instructions, count);
            Err(LoadFault::at(tree.end, fault))
        }
        Err(BuildFault::NoMemory) => Err(LoadFault::NoMemory),
    }
}
