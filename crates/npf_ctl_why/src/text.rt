// The whole explanation of a fault.
ghost use Rattle.std.specs.Prelude.{◌≤◌, IfOk, IfSome, length, option_map};
ghost use Rattle.npf_types.specs.declared.limits.TheConstants.{MAX_TEXT_BYTES};
ghost use Rattle.npf_ctl_why.specs.Text.{IsExplanation};

use crate::excerpt::write_excerpt;
use crate::reason::write_reason;
use npf_ctl_messages::{CommandFault, message};
use npf_model::Ifaces;
use npf_types::NoMemory;
use std::alloc::Global;

/// What is said of a fault that a command met, by the text of the file that it names, where that was read, for a run with these interfaces.
/// The text has at most `MAX_TEXT_BYTES` bytes.
pub fn explanation(
    alloc: Global,
    told: &CommandFault,
    text: Option<&[u8]>,
    ifaces: &Ifaces,
) -> Result<Vec<u8>, NoMemory>
    requires { IfSome text (λ text. length text.now ≤ MAX_TEXT_BYTES) }
    ensures { IfOk result (λ out. IsExplanation ifaces.now.list told.now (option_map (λ text. text.now) text.entry) out.items) }
{
    let mut into = message(alloc, told)?;
    if let (CommandFault::Configuration { fault, .. }, Some(text)) = (told, text) {
        write_excerpt(&mut into, text, fault.span)?;
        write_reason(alloc, &mut into, text, ifaces, fault)?;
        return Ok(into);
    }
    Ok(into)
}
