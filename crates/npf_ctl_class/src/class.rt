// The class that a word is.
ghost use Rattle.std.specs.Prelude.{◌≡◌, Ok, IfOk, IfErr, codes};
ghost use Rattle.npf_class.specs.Class.{ReadsClass};
ghost use Rattle.npf_ctl_class.specs.ClassFault.{IsClassFault};

use npf_class::{MAX_CLASS_BYTES, read_class};
use npf_ctl_messages::CommandFault;
use npf_faults::Refused;
use npf_model::{Ifaces, Model, Rule};
use npf_types::{List, NoMemory, Text};
use std::alloc::Global;

/// The rule of a class's text, beside a model and the run's interfaces. Refused for its length, or for the first fault of the text, both told of a
/// file `class`; or for want of memory.
pub fn class_of(
    alloc: Global,
    text: &[u8],
    model: &Model,
    ifaces: &Ifaces,
) -> Result<Rule, CommandFault>
    ensures ok { IfOk result (λ rule. ReadsClass ifaces.now.list model.now text.now (Ok rule)) }
    ensures err { IfErr result (IsClassFault ifaces.now.list model.now text.now) }
{
    if text.len() > MAX_CLASS_BYTES {
        return Err(CommandFault::Long {
            file: class_file(alloc)?,
            most: MAX_CLASS_BYTES as u64,
        });
    }
    match read_class(alloc, text, model, ifaces) {
        Ok(rule) => Ok(rule),
        Err(Refused::Fault(fault)) => Err(CommandFault::Configuration {
            file: class_file(alloc)?,
            fault,
        }),
        Err(Refused::NoMemory) => Err(CommandFault::NoMemory),
    }
}

// The file that a class's fault is told of.
fn class_file(alloc: Global) -> Result<Text, NoMemory>
    ensures { IfOk result (λ file. file ≡ codes "class") }
{
    Ok(List::of_vec(b"class".to_vec(alloc)?))
}
