// What is found of a configuration.
ghost use Rattle.std.specs.Prelude.{◌≡◌, IfOk, IfErr};
ghost use Rattle.npf_ruleset.specs.Configuration.{configuration};
ghost use Rattle.npf_ctl_query.specs.QueryText.{IsStopFault};
ghost use Rattle.npf_ctl_lint.specs.LintText.{AreLintFindings, some_finding};

use crate::group_line::some_dead_group;
use crate::procedure_line::some_unused_procedure;
use crate::rule_line::some_idle_rule;
use crate::table_line::some_idle_table;
use npf_ctl_class::{stop_fault, tables_of};
use npf_ctl_messages::CommandFault;
use npf_dead_groups::groups_reached;
use npf_lint::{RuleFinding, lint};
use npf_model::Model;
use npf_products::CellPacket;
use npf_ruleset::Config;
use npf_steps::{Steps, Stopped};
use npf_types::{List, Prefix};
use npf_unused::{TableFinding, procedures_used, table_findings};
use std::alloc::Global;

/// What is found of each rule, group, table and procedure: of a group a packet that comes to it, of a procedure whether it is used.
#[derive(Debug, Drop)]
pub struct LintFindings {
    pub rules: Vec<RuleFinding>,
    pub groups: Vec<Option<CellPacket>>,
    pub tables: Vec<TableFinding>,
    pub procedures: Vec<bool>,
}

/// Whether something is worth a look.
pub(crate) fn some_finding(findings: &LintFindings) -> bool
    ensures { result ≡ some_finding findings.now }
{
    some_idle_rule(findings.rules.as_slice())
        || some_dead_group(findings.groups.as_slice())
        || some_idle_table(findings.tables.as_slice())
        || some_unused_procedure(findings.procedures.as_slice())
}

/// What is found of a configuration, whose tables are taken as they are. All searches together may take `most` steps, or 2^64 - 2 where that is less.
///
/// # Errors
/// `CommandFault::Steps` where they want more, and want of memory.
pub(crate) fn findings_of(
    alloc: Global,
    config: &Config,
    most: u64,
) -> Result<LintFindings, CommandFault>
    ensures ok { IfOk result (AreLintFindings (configuration config.now)) }
    ensures err { IfErr result (IsStopFault most) }
{
    let tables = tables_of(alloc, config)?;
    let mut steps = Steps::new(most);
    match search(alloc, config.model(), tables.as_slice(), &mut steps) {
        Ok(findings) => Ok(findings),
        Err(stopped) => Err(stop_fault(stopped, &steps)),
    }
}

fn search(
    alloc: Global,
    model: &Model,
    tables: &[List<Prefix>],
    steps: &mut Steps,
) -> Result<LintFindings, Stopped>
    ensures are { IfOk result (AreLintFindings (record { model = model.now; tables = tables.now })) }
    ensures most { steps.new.most ≡ steps.old.most }
{
    Ok(LintFindings {
        rules: lint(alloc, model, tables, steps)?,
        groups: groups_reached(alloc, model, tables, steps)?,
        tables: table_findings(alloc, model, tables)?,
        procedures: procedures_used(alloc, model)?,
    })
}
