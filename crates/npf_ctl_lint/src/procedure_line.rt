// The lines of procedures that no rule calls.
ghost use Rattle.std.specs.Prelude.{◌≡◌, ◌++◌, OnOk};
ghost use Rattle.npf_ctl_lint.specs.ProcedureLine.{found_procedure_line, some_unused_procedure, unused_procedure_lines};

use crate::line::write_line;
use npf_model::Procedure;
use npf_types::NoMemory;

/// Whether there is a procedure that isn't used.
pub(crate) fn some_unused_procedure(used: &[bool]) -> bool
    ensures { result ≡ some_unused_procedure used.now }
{
    used.iter().any(|used| !*used)
}

/// Appends the lines of all procedures, which are used or aren't.
pub(crate) fn write_procedures(
    into: &mut Vec<u8>,
    procedures: &[Procedure],
    used: &[bool],
) -> Result<(), NoMemory>
    ensures { OnOk result (into.new.items ≡ into.old.items ++ unused_procedure_lines procedures.now used.now) }
{
    for (procedure, used) in procedures.iter().zip(used.iter()) {
        write_procedure(into, procedure, *used)?;
    }
    Ok(())
}

// Appends the line of a procedure, if it isn't used.
fn write_procedure(into: &mut Vec<u8>, procedure: &Procedure, used: bool) -> Result<(), NoMemory>
    ensures { OnOk result (into.new.items ≡ into.old.items ++ found_procedure_line (procedure.now, used)) }
{
    if used {
        return Ok(());
    }
    write_line(
        into,
        "procedure \"",
        procedure.name.as_slice(),
        "\" unused\n",
    )
}
