// The text of findings.
ghost use Rattle.std.specs.Prelude.{◌≡◌, IfOk};
ghost use Rattle.npf_ctl_lint.specs.LintText.{findings_text};

use crate::group_line::write_groups;
use crate::procedure_line::write_procedures;
use crate::rule_line::{write_counts, write_rules};
use crate::search::LintFindings;
use crate::table_line::write_tables;
use npf_model::Model;
use npf_types::NoMemory;
use std::alloc::Global;

/// A line for each rule, group, table and procedure of a model of which something is told, and how many rules there are and how many of each kind.
pub(crate) fn findings_text(
    alloc: Global,
    model: &Model,
    findings: &LintFindings,
) -> Result<Vec<u8>, NoMemory>
    ensures { IfOk result (λ text. text.items ≡ findings_text model.now findings.now) }
{
    let mut text = Vec::new(alloc);
    write_rules(&mut text, findings.rules.as_slice())?;
    write_groups(
        &mut text,
        model.groups.as_slice(),
        findings.groups.as_slice(),
    )?;
    write_tables(
        &mut text,
        model.tables.as_slice(),
        findings.tables.as_slice(),
    )?;
    write_procedures(
        &mut text,
        model.procedures.as_slice(),
        findings.procedures.as_slice(),
    )?;
    write_counts(&mut text, findings.rules.as_slice())?;
    Ok(text)
}
