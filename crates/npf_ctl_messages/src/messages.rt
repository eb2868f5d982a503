// The line that tells a fault.
ghost use Rattle.std.specs.Prelude.{◌≡◌, ◌++◌, IfOk, OnOk, codes};
ghost use Rattle.npf_ctl_messages.specs.Message.{message_line, said_of, conf_fault_text, detail_text, line_fault_text, capture_fault_text, saved_fault_text};

use crate::fault::{CommandFault, LineFault, SavedRefusal};
use crate::limit::{most_excess, most_of, quantity_name};
use crate::numbered::{write_numbered, write_over};
use npf_faults::{ConfFault, Fault};
use npf_pcap::CaptureFault;
use npf_text::{write_bytes, write_counted, write_text};
use npf_types::NoMemory;
use std::alloc::Global;

/// The line of the fault, with its line feed, as the error output gets it.
#[tactic(auto, unfolding(crate::specs::Message::message_line))]
pub fn message(alloc: Global, fault: &CommandFault) -> Result<Vec<u8>, NoMemory>
    ensures { IfOk result (λ line. line.items ≡ message_line fault.now) }
{
    let mut line = Vec::new(alloc);
    write_text(&mut line, "npfctl: ")?;
    write_said(&mut line, fault)?;
    line.push(b'\n')?;
    Ok(line)
}

// Appends what the fault's line says behind the program's name.
fn write_said(into: &mut Vec<u8>, fault: &CommandFault) -> Result<(), NoMemory>
    ensures { OnOk result (into.new.items ≡ into.old.items ++ said_of fault.now) }
{
    match fault {
        CommandFault::Usage => write_text(into, "usage"),
        CommandFault::Configuration { file, fault } => write_placed(into, file.as_slice(), fault),
        CommandFault::Unread { file } => write_named(into, "cannot read ", file.as_slice()),
        CommandFault::Long { file, most } => write_long(into, file.as_slice(), *most),
        CommandFault::Saved { file, fault } => {
            write_bytes(into, file.as_slice())?;
            write_saved_fault(into, fault)
        }
        CommandFault::Capture { file, fault } => {
            write_bytes(into, file.as_slice())?;
            write_capture_fault(into, fault)
        }
        CommandFault::Line {
            script,
            line,
            fault,
        } => {
            write_bytes(into, script.as_slice())?;
            write_counted(into, ":", u64::from(*line))?;
            write_line_fault(into, fault)
        }
        CommandFault::Many { what, count } => {
            write_text(into, "limit ")?;
            write_over(into, quantity_name(*what), *count, most_of(*what))
        }
        CommandFault::Steps { count, most } => {
            write_text(into, "limit ")?;
            write_over(into, "steps", *count, *most)
        }
        CommandFault::Unwritten { file } => write_named(into, "cannot write ", file.as_slice()),
        CommandFault::OutputUnwritten => write_text(into, "cannot write standard output"),
        CommandFault::NoMemory => write_text(into, "out of memory"),
    }
}

fn write_named(into: &mut Vec<u8>, text: &str, file: &[u8]) -> Result<(), NoMemory>
    ensures { OnOk result (into.new.items ≡ into.old.items ++ (text.now ++ file.now)) }
{
    write_text(into, text)?;
    write_bytes(into, file)
}

fn write_long(into: &mut Vec<u8>, file: &[u8], most: u64) -> Result<(), NoMemory>
    ensures { OnOk result (into.new.items ≡ into.old.items ++ said_of (CommandFault.Long file.now most)) }
{
    write_named(into, "limit bytes ", file)?;
    write_counted(into, " over ", most)
}

// Appends a file, a place of it and the fault that stands there.
fn write_placed(into: &mut Vec<u8>, file: &[u8], fault: &ConfFault) -> Result<(), NoMemory>
    ensures { OnOk result (into.new.items ≡ into.old.items ++ said_of (CommandFault.Configuration file.now fault.now)) }
{
    write_bytes(into, file)?;
    write_counted(into, ":", u64::from(fault.span.line))?;
    write_counted(into, ":", u64::from(fault.span.col))?;
    write_text(into, ": ")?;
    write_conf_fault(into, &fault.fault)
}

fn write_conf_fault(into: &mut Vec<u8>, fault: &Fault) -> Result<(), NoMemory>
    ensures { OnOk result (into.new.items ≡ into.old.items ++ conf_fault_text fault.now) }
{
    write_numbered(into, fault.number(), fault.name())?;
    write_detail(into, fault)
}

fn write_detail(into: &mut Vec<u8>, fault: &Fault) -> Result<(), NoMemory>
    ensures { OnOk result (into.new.items ≡ into.old.items ++ detail_text fault.now) }
{
    match fault {
        Fault::BadTableFile(line) => write_counted(into, " ", u64::from(*line)),
        Fault::TooMany(excess, count) => {
            write_text(into, " ")?;
            write_over(into, excess.name(), *count, most_excess(*excess))
        }
        _ => Ok(()),
    }
}

fn write_saved_fault(into: &mut Vec<u8>, fault: &SavedRefusal) -> Result<(), NoMemory>
    ensures { OnOk result (into.new.items ≡ into.old.items ++ (codes ": " ++ saved_fault_text fault.now)) }
{
    write_text(into, ": ")?;
    write_numbered(into, fault.number(), fault.name())?;
    match fault.count() {
        Some(count) => write_counted(into, " ", count),
        None => Ok(()),
    }
}

fn write_capture_fault(into: &mut Vec<u8>, fault: &CaptureFault) -> Result<(), NoMemory>
    ensures { OnOk result (into.new.items ≡ into.old.items ++ (codes ": " ++ capture_fault_text fault.now)) }
{
    write_text(into, ": ")?;
    write_numbered(into, fault.number(), fault.name())?;
    match fault.record_number() {
        Some(number) => write_counted(into, " ", u64::from(number)),
        None => Ok(()),
    }
}

fn write_line_fault(into: &mut Vec<u8>, fault: &LineFault) -> Result<(), NoMemory>
    ensures { OnOk result (into.new.items ≡ into.old.items ++ (codes ": " ++ line_fault_text fault.now)) }
{
    write_text(into, ": ")?;
    write_numbered(into, fault.number(), fault.name())?;
    match fault {
        LineFault::Conf(fault) => write_detail(into, &fault.fault),
        _ => Ok(()),
    }
}
