// The text of a packet.
ghost use Rattle.std.specs.Prelude.{◌≡◌, ◌++◌, OnOk};
ghost use Rattle.npf_model.specs.Describes.{destination_of, source_of};
ghost use Rattle.npf_show.specs.Filter.{flag_text, letter_if_set};
ghost use Rattle.npf_witness.specs.WitnessText.{carried_text, passing_text, endpoint_text, flags_text, message_text, port_text, witness_text};

use crate::address::write_address;
use crate::interface::write_interface;
use npf_model::Iface;
use npf_text::{write_counted, write_text};
use npf_types::{Addr, Dir, Facts, IfId, L4, NoMemory};
use std::alloc::Global;

/// The letters of the control bits, from the lowest bit on.
const LETTERS: [(u8, u8); 8] = [
    (b'F', 1),
    (b'S', 2),
    (b'R', 4),
    (b'P', 8),
    (b'A', 16),
    (b'U', 32),
    (b'E', 64),
    (b'W', 128),
];

/// Appends the text of a packet with these facts that passes there, of a run with these interfaces.
#[tactic(auto, unfolding(crate::specs::WitnessText::witness_text))]
pub fn write_witness(
    alloc: Global,
    into: &mut Vec<u8>,
    ifaces: &[Iface],
    facts: &Facts,
    ifid: IfId,
    dir: Dir,
) -> Result<(), NoMemory>
    ensures { OnOk result (into.new.items ≡ into.old.items ++ witness_text ifaces.now facts.now ifid dir) }
{
    write_text(into, passing_text(dir))?;
    write_interface(alloc, into, ifaces, ifid)?;
    write_counted(into, " proto ", u64::from(facts.proto))?;
    write_carried(into, &facts.l4)?;
    let (source, destination) = ports_of(&facts.l4);
    write_end(into, " from ", facts.src, source)?;
    write_end(into, " to ", facts.dst, destination)
}

fn passing_text(dir: Dir) -> &'static str
    ensures { result.now ≡ passing_text dir }
{
    match dir {
        Dir::In => "in on ",
        Dir::Out => "out on ",
    }
}

// Appends what is told of what the packet carries but ports.
fn write_carried(into: &mut Vec<u8>, l4: &L4) -> Result<(), NoMemory>
    ensures { OnOk result (into.new.items ≡ into.old.items ++ carried_text l4.now) }
{
    match l4 {
        L4::Tcp { seg, .. } => {
            write_text(into, " flags ")?;
            write_flags(into, seg.flags)
        }
        L4::Icmp { kind, code, .. } | L4::Icmp6 { kind, code, .. } => {
            write_message(into, *kind, *code)
        }
        L4::Udp { .. } | L4::Other => Ok(()),
    }
}

fn write_message(into: &mut Vec<u8>, kind: u8, code: u8) -> Result<(), NoMemory>
    ensures { OnOk result (into.new.items ≡ into.old.items ++ message_text kind code) }
{
    write_counted(into, " icmp-type ", u64::from(kind))?;
    write_counted(into, " code ", u64::from(code))
}

fn write_flags(into: &mut Vec<u8>, flags: u8) -> Result<(), NoMemory>
    ensures { OnOk result (into.new.items ≡ into.old.items ++ flags_text flags) }
{
    if flags == 0 {
        return write_text(into, "none");
    }
    write_letters(into, flags)?;
    write_text(into, "/FSRPAUEW")
}

fn write_letters(into: &mut Vec<u8>, flags: u8) -> Result<(), NoMemory>
    ensures { OnOk result (into.new.items ≡ into.old.items ++ flag_text flags) }
{
    for (letter, bit) in &LETTERS {
        write_letter(into, flags, *letter, *bit)?;
    }
    Ok(())
}

fn write_letter(into: &mut Vec<u8>, flags: u8, letter: u8, bit: u8) -> Result<(), NoMemory>
    ensures { OnOk result (into.new.items ≡ into.old.items ++ letter_if_set flags (letter, bit)) }
{
    if flags & bit != 0 {
        into.push(letter)?;
    }
    Ok(())
}

fn ports_of(l4: &L4) -> (Option<u16>, Option<u16>)
    ensures { result ≡ (source_of l4.now, destination_of l4.now) }
{
    match *l4 {
        L4::Tcp { sport, dport, .. } | L4::Udp { sport, dport } => (Some(sport), Some(dport)),
        L4::Icmp { .. } | L4::Icmp6 { .. } | L4::Other => (None, None),
    }
}

fn write_end(into: &mut Vec<u8>, word: &str, addr: Addr, port: Option<u16>) -> Result<(), NoMemory>
    ensures { OnOk result (into.new.items ≡ into.old.items ++ endpoint_text word.now addr port) }
{
    write_text(into, word)?;
    write_address(into, addr)?;
    write_port(into, port)
}

fn write_port(into: &mut Vec<u8>, port: Option<u16>) -> Result<(), NoMemory>
    ensures { OnOk result (into.new.items ≡ into.old.items ++ port_text port) }
{
    match port {
        Some(number) => write_counted(into, " port ", u64::from(number)),
        None => Ok(()),
    }
}
