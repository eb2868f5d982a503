// What is found of a configuration, told.
ghost use Rattle.std.specs.Prelude.{◌≡◌, IfOk, IfErr};
ghost use Rattle.npf_ruleset.specs.Configuration.{configuration};
ghost use Rattle.npf_ctl_query.specs.QueryText.{IsStopFault};
ghost use Rattle.npf_ctl_lint.specs.LintText.{IsLintText};

use crate::search::{findings_of, some_finding};
use crate::text::findings_text;
use npf_ctl_messages::CommandFault;
use npf_ruleset::Config;
use std::alloc::Global;

/// What is told of a configuration, and whether something of it does nothing: a rule is dead or redundant, a group dead, a table empty or unused, or a
/// procedure unused.
#[derive(Debug, Drop)]
pub struct LintAnswer {
    pub text: Vec<u8>,
    pub found: bool,
}

/// What of a configuration does nothing, whose tables are taken as they are. All searches together may take `most` steps, or 2^64 - 2 where that is less.
///
/// # Errors
/// `CommandFault::Steps` where they want more, and want of memory.
pub fn lint_text(alloc: Global, config: &Config, most: u64) -> Result<LintAnswer, CommandFault>
    ensures ok { IfOk result (λ told. IsLintText (configuration config.now) told.found told.text.items) }
    ensures err { IfErr result (IsStopFault most) }
{
    let findings = findings_of(alloc, config, most)?;
    let text = findings_text(alloc, config.model(), &findings)?;
    let found = some_finding(&findings);
    Ok(LintAnswer { text, found })
}
