// What is found of two configurations, told.
ghost use Rattle.std.specs.Prelude.{IfOk, IfErr};
ghost use Rattle.npf_ruleset.specs.Configuration.{configuration};
ghost use Rattle.npf_ctl_compare.specs.CompareText.{IsCompareText};
ghost use Rattle.npf_ctl_compare.specs.Differences.{IsCompareFault};

use crate::differences::differences_of;
use crate::text::differences_text;
use npf_ctl_messages::CommandFault;
use npf_model::Iface;
use npf_ruleset::Config;
use std::alloc::Global;

/// What is told of two configurations, and whether it is that they are the same.
#[derive(Debug, Drop)]
pub struct CompareAnswer {
    pub text: Vec<u8>,
    pub same: bool,
}

/// How two configurations differ, both numbered by these interfaces, told.
pub(crate) fn compare_text(
    alloc: Global,
    ifaces: &[Iface],
    old: &Config,
    new: &Config,
    most: u64,
) -> Result<CompareAnswer, CommandFault>
    ensures ok { IfOk result (λ told. IsCompareText ifaces.now (configuration old.now) (configuration new.now) told.same told.text.items) }
    ensures err { IfErr result (IsCompareFault (configuration old.now) (configuration new.now) most) }
{
    let differences = differences_of(alloc, old, new, most)?;
    let text = differences_text(alloc, ifaces, old, new, &differences)?;
    let same = differences.lines() == 0;
    Ok(CompareAnswer { text, same })
}
