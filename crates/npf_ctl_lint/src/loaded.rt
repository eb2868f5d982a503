// A configuration, by the interfaces that it names.
ghost use Rattle.std.specs.Prelude.{IfErr, IfOk};
ghost use Rattle.npf_ruleset.specs.Configuration.{configuration};
ghost use Rattle.npf_ctl_lint.specs.Loaded.{AnswersLint, RefusesLint};

use crate::answer::{LintAnswer, lint_text};
use npf_ctl_messages::{CommandFault, Quantity};
use npf_interfaces::{model_names, with_names};
use npf_model::Ifaces;
use npf_ruleset::Config;
use npf_types::limits::MAX_INTERFACES;
use std::alloc::Global;

/// What of a configuration does nothing, beside the interfaces that were given with it: packets may pass on these and on those that it names; all
/// others are alike. The search may take `most` steps, or 2^64 - 2 where that is less.
///
/// # Errors
/// `CommandFault::Many` where there are more than `MAX_INTERFACES` interfaces, `CommandFault::Steps` where the search wants more steps, and want of memory.
pub fn lint_loaded(
    alloc: Global,
    ifaces: Ifaces,
    mut config: Config,
    most: u64,
) -> Result<LintAnswer, CommandFault>
    ensures ok { IfOk result (λ told. AnswersLint ifaces.list (configuration config) told.found told.text.items) }
    ensures err { IfErr result (RefusesLint ifaces.list (configuration config) most) }
{
    let names = model_names(alloc, config.model())?;
    let known = with_names(alloc, ifaces, names.as_slice())?;
    let count = known.list.as_slice().len();
    if count > MAX_INTERFACES {
        return Err(CommandFault::Many {
            what: Quantity::Interfaces,
            count: count as u64,
        });
    }
    config.number(&known);
    let answer = lint_text(alloc, &config, most)?;
    Ok(answer)
}
