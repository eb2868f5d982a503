// The files of an answer's packets.
ghost use Rattle.std.specs.Prelude.{◌≡◌, ◌≤◌, IfErr, IfOk, OnOk, length};
ghost use Rattle.npf_ctl_witnesses.specs.WitnessFiles.{capture_file, files_of, script_file, witness_files};
ghost use Rattle.npf_ctl_witnesses.specs.Fault.{IsWitnessFault};
ghost use Rattle.npf_ctl_witnesses.specs.FilesLaw.{AreInFiles};

use crate::alike::leaders;
use crate::capture::capture_of;
use crate::laws::witnesses_are_in_files;
use crate::limits::{test_captures, test_witnesses};
use crate::script::{witness_script, write_capture_name};
use npf_ctl_messages::CommandFault;
use npf_model::{Iface, Ifaces};
use npf_products::CellPacket;
use npf_text::{write_bytes, write_text};
use npf_types::{List, NoMemory, Text};
use std::alloc::Global;

/// A file that is to be written.
#[derive(Debug, Drop)]
pub struct WitnessFile {
    pub name: Text,
    pub contents: Text,
}

/// The files of these packets, whose names begin with the prefix: the captures, and then the script. The packets are told by the numbers of
/// these interfaces.
///
/// # Errors
/// `CommandFault::Many` where there are more packets than `MAX_WITNESSES`, or where they pass more interfaces and directions than a run takes captures;
/// and want of memory.
pub fn witness_files(
    alloc: Global,
    ifaces: &Ifaces,
    packets: &[CellPacket],
    prefix: &[u8],
) -> Result<Vec<WitnessFile>, CommandFault>
    ensures files { IfOk result (λ files. files.items ≡ witness_files ifaces.now.list packets.now prefix.now) }
    ensures packets { IfOk result (λ files. AreInFiles ifaces.now.list packets.now prefix.now files.items) }
    ensures err { IfErr result (IsWitnessFault ifaces.now.list packets.now) }
{
    witnesses_are_in_files();
    let ifaces = ifaces.list.as_slice();
    test_witnesses(packets.len())?;
    let leaders = leaders(alloc, ifaces, packets)?;
    test_captures(leaders.len())?;
    Ok(files_of(alloc, ifaces, leaders.as_slice(), packets, prefix)?)
}

fn files_of(
    alloc: Global,
    ifaces: &[Iface],
    leaders: &[CellPacket],
    packets: &[CellPacket],
    prefix: &[u8],
) -> Result<Vec<WitnessFile>, NoMemory>
    requires { length packets.now ≤ 256 }
    ensures { IfOk result (λ files. files.items ≡ files_of ifaces.now leaders.now packets.now prefix.now) }
{
    let mut files = Vec::new(alloc);
    for (place, leader) in leaders.iter().enumerate() {
        files.push(capture_file(alloc, ifaces, packets, prefix, place + 1, leader)?)?;
    }
    files.push(script_file(alloc, ifaces, leaders, packets, prefix)?)?;
    Ok(files)
}

fn capture_file(
    alloc: Global,
    ifaces: &[Iface],
    packets: &[CellPacket],
    prefix: &[u8],
    number: usize,
    leader: &CellPacket,
) -> Result<WitnessFile, NoMemory>
    requires { length packets.now ≤ 256 }
    ensures { IfOk result (λ file. file ≡ capture_file ifaces.now packets.now prefix.now (number, leader.now)) }
{
    let mut name = Vec::new(alloc);
    write_capture_name(&mut name, prefix, number)?;
    let contents = capture_of(alloc, ifaces, packets, leader)?;
    Ok(WitnessFile {
        name: List::of_vec(name),
        contents: List::of_vec(contents),
    })
}

fn script_file(
    alloc: Global,
    ifaces: &[Iface],
    leaders: &[CellPacket],
    packets: &[CellPacket],
    prefix: &[u8],
) -> Result<WitnessFile, NoMemory>
    ensures { IfOk result (λ file. file ≡ script_file ifaces.now leaders.now packets.now prefix.now) }
{
    let mut name = Vec::new(alloc);
    write_bytes(&mut name, prefix)?;
    write_text(&mut name, ".script")?;
    let contents = witness_script(alloc, ifaces, leaders, packets, prefix)?;
    Ok(WitnessFile {
        name: List::of_vec(name),
        contents: List::of_vec(contents),
    })
}
