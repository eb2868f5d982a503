// Two configurations, by the interfaces that they name.
ghost use Rattle.std.specs.Prelude.{◌≡◌, IfErr, IfOk};
ghost use Rattle.npf_interfaces.specs.Names.{model_names, with_names};
ghost use Rattle.npf_ruleset.specs.Configuration.{configuration};
ghost use Rattle.npf_ctl_compare.specs.Loaded.{AnswersCompare, RefusesCompare};

use crate::answer::{CompareAnswer, compare_text};
use npf_ctl_messages::{CommandFault, Quantity};
use npf_interfaces::{model_names, with_names};
use npf_model::{Ifaces, Model};
use npf_ruleset::Config;
use npf_types::NoMemory;
use npf_types::limits::MAX_INTERFACES;
use std::alloc::Global;

/// How two configurations differ, beside the interfaces that were given with them: packets may pass on these and on those that they name; all others are
/// alike. The searches may together take `most` steps, or 2^64 - 2 where that is less.
///
/// # Errors
/// `CommandFault::Many` where there are more than `MAX_INTERFACES` interfaces, or more than `MAX_PAIRS` pairs of rules and of maps to tell,
/// `CommandFault::Steps` where the search wants more steps, and want of memory.
pub fn compare_loaded(
    alloc: Global,
    ifaces: Ifaces,
    mut old: Config,
    mut new: Config,
    most: u64,
) -> Result<CompareAnswer, CommandFault>
    ensures ok { IfOk result (λ told. AnswersCompare ifaces.list (configuration old) (configuration new) told.same told.text.items) }
    ensures err { IfErr result (RefusesCompare ifaces.list (configuration old) (configuration new) most) }
{
    let ifaces = with_model(alloc, ifaces, old.model())?;
    let ifaces = with_model(alloc, ifaces, new.model())?;
    let count = ifaces.list.as_slice().len();
    if count > MAX_INTERFACES {
        return Err(CommandFault::Many {
            what: Quantity::Interfaces,
            count: count as u64,
        });
    }
    old.number(&ifaces);
    new.number(&ifaces);
    compare_text(alloc, ifaces.list.as_slice(), &old, &new, most)
}

/// The interfaces, and behind them those that the model names.
fn with_model(alloc: Global, ifaces: Ifaces, model: &Model) -> Result<Ifaces, NoMemory>
    ensures { IfOk result (λ all. all.list ≡ with_names ifaces.list (model_names model.now)) }
{
    let names = model_names(alloc, model)?;
    with_names(alloc, ifaces, names.as_slice())
}
