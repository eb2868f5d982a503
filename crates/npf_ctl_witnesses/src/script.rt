// The script that plays the witnesses one by one.
ghost use Rattle.std.specs.Prelude.{◌≡◌, ◌++◌, OnOk, IfOk};
ghost use Rattle.std.specs.List.{enumerate_from, flat_map};
ghost use Rattle.npf_ctl_witnesses.specs.WitnessFiles.{capture_line, capture_name, direction_part, step_text, witness_script};

use npf_model::Iface;
use npf_products::CellPacket;
use npf_text::{write_bytes, write_counted, write_text};
use npf_types::{Dir, NoMemory};
use npf_witness::write_interface;
use std::alloc::Global;

// A phase with one packet, and one that lets all connections expire.
const STEP: &str = "phase\npackets 1\nphase\nexpire 4294967295\n";

/// The script of these captures' leaders, in order, and of as many witnesses.
pub(crate) fn witness_script(
    alloc: Global,
    ifaces: &[Iface],
    leaders: &[CellPacket],
    packets: &[CellPacket],
    prefix: &[u8],
) -> Result<Vec<u8>, NoMemory>
    ensures { IfOk result (λ text. text.items ≡ witness_script ifaces.now leaders.now packets.now prefix.now) }
{
    let mut text = Vec::new(alloc);
    write_captures(alloc, &mut text, ifaces, leaders, prefix)?;
    write_steps(&mut text, packets)?;
    Ok(text)
}

fn write_captures(
    alloc: Global,
    into: &mut Vec<u8>,
    ifaces: &[Iface],
    leaders: &[CellPacket],
    prefix: &[u8],
) -> Result<(), NoMemory>
    ensures { OnOk result (into.new.items ≡ into.old.items ++ flat_map (capture_line ifaces.now prefix.now) (enumerate_from 1 leaders.now)) }
{
    for (place, leader) in leaders.iter().enumerate() {
        write_capture_line(alloc, into, ifaces, prefix, place + 1, leader)?;
    }
    Ok(())
}

fn write_capture_line(
    alloc: Global,
    into: &mut Vec<u8>,
    ifaces: &[Iface],
    prefix: &[u8],
    number: usize,
    leader: &CellPacket,
) -> Result<(), NoMemory>
    ensures { OnOk result (into.new.items ≡ into.old.items ++ capture_line ifaces.now prefix.now (number, leader.now)) }
{
    write_text(into, "capture ")?;
    write_interface(alloc, into, ifaces, leader.ifid)?;
    write_text(into, direction_part(leader.dir))?;
    write_capture_name(into, prefix, number)?;
    write_text(into, "\"\n")
}

fn direction_part(dir: Dir) -> &'static str
    ensures { result.now ≡ direction_part dir }
{
    match dir {
        Dir::In => " in \"",
        Dir::Out => " out \"",
    }
}

/// Appends the name of the capture of this number.
pub(crate) fn write_capture_name(
    into: &mut Vec<u8>,
    prefix: &[u8],
    number: usize,
) -> Result<(), NoMemory>
    ensures { OnOk result (into.new.items ≡ into.old.items ++ capture_name prefix.now number) }
{
    write_bytes(into, prefix)?;
    write_counted(into, ".", number as u64)?;
    write_text(into, ".pcap")
}

fn write_steps(into: &mut Vec<u8>, packets: &[CellPacket]) -> Result<(), NoMemory>
    ensures { OnOk result (into.new.items ≡ into.old.items ++ flat_map step_text packets.now) }
{
    for _packet in packets {
        write_text(into, STEP)?;
    }
    Ok(())
}
