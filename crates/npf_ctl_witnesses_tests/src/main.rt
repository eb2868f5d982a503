// Packets of every kind as files, read again: a row for each kind over IPv4 and IPv6, for interfaces and directions that share a capture, for those
// that the run doesn't name, and for the limits.
//
// Standard input has a line each. `packet ..` is a packet, as src/packet.rt reads it. `write PREFIX` writes all packets since the last such
// line: the script is printed, and of each capture the name, and by second what its records decode to, where the script has it come.
// `repeat N` writes the last packet N times, and `spread N` once on each of N interfaces; each prints how many files there are, or the fault. Else the
// interfaces are wm0 and wm1. What stdout wants was found by hand.
#![tactic(auto)]

mod packet;
mod reading;

use anyhow::{Context, Result, bail};
use npf_ctl_messages::{CommandFault, message};
use npf_ctl_witnesses::witness_files;
use npf_model::{Iface, Ifaces};
use npf_products::CellPacket;
use npf_types::{IfId, List, Name};
use packet::read_packet;
use reading::written_again;
use std::alloc::Global;
use std::io::{BufRead, BufReader};
use std::str;

fn main(rt: HostRuntime) -> Result<()> {
    let alloc = rt.alloc();
    let mut packets = Vec::new(alloc);
    for (index, line) in BufReader::new(alloc, rt.reader())?.lines(alloc).enumerate() {
        answer_line(&rt, &mut packets, &line?).context(format_args!("line {}", index + 1))?;
    }
    Ok(())
}

/// Prints the answer to a line, if it has a row.
fn answer_line(
    rt: &(impl Print + AllocGlobal),
    packets: &mut Vec<CellPacket>,
    line: &str,
) -> Result<()> {
    if line.is_empty() || line.starts_with('#') {
        return Ok(());
    }
    println!(rt; "{line}")?;
    let alloc = rt.alloc();
    match line.split_once(' ') {
        Some(("packet", words)) => Ok(packets.push(read_packet(alloc, words)?)?),
        Some(("write", prefix)) => {
            let ifaces = ifaces(alloc, 2)?;
            match witness_files(alloc, &ifaces, packets.as_slice(), prefix.as_bytes()) {
                Ok(files) => print!(rt; "{}", written_again(alloc, &ifaces, files.as_slice())?)?,
                Err(fault) => println!(rt; "  {}", fault_text(alloc, &fault)?)?,
            }
            packets.clear();
            Ok(())
        }
        Some(("repeat", count)) => {
            println!(rt;
                "  {}",
                repeated(alloc, packets.as_slice(), count.parse::<usize>()?)?
            )?;
            Ok(())
        }
        Some(("spread", count)) => {
            println!(rt;
                "  {}",
                spread(alloc, packets.as_slice(), count.parse::<u16>()?)?
            )?;
            Ok(())
        }
        _ => bail!("no such row"),
    }
}

/// How many files there are of the last packet, so many times.
fn repeated(alloc: Global, packets: &[CellPacket], count: usize) -> Result<String> {
    let packet = packets.last().context("no packet")?;
    let mut all = Vec::new(alloc);
    for _ in 0..count {
        all.push(*packet)?;
    }
    count_text(alloc, &ifaces(alloc, 2)?, all.as_slice())
}

/// How many there are of it on each of so many interfaces.
fn spread(alloc: Global, packets: &[CellPacket], count: u16) -> Result<String> {
    let packet = packets.last().context("no packet")?;
    let mut all = Vec::new(alloc);
    for number in 0..count {
        all.push(CellPacket {
            ifid: IfId(number.saturating_add(1)),
            ..*packet
        })?;
    }
    count_text(alloc, &ifaces(alloc, count)?, all.as_slice())
}

fn count_text(alloc: Global, ifaces: &Ifaces, packets: &[CellPacket]) -> Result<String> {
    match witness_files(alloc, ifaces, packets, b"p") {
        Ok(files) => Ok(format!(in alloc; "{} files", files.len())?),
        Err(fault) => fault_text(alloc, &fault),
    }
}

fn fault_text(alloc: Global, fault: &CommandFault) -> Result<String> {
    let text = message(alloc, fault)?;
    Ok(format!(in alloc;
        "{} {}",
        fault.status(),
        str::from_utf8(text.as_slice())?.trim_end()
    )?)
}

/// The interfaces wm0, wm1 and so on.
fn ifaces(alloc: Global, count: u16) -> Result<Ifaces> {
    let mut list = Vec::new(alloc);
    for number in 0..count {
        let name = format!(in alloc; "wm{number}")?;
        list.push(Iface {
            name: Name::of(name.as_bytes()).context("no name")?,
            addrs: List::of_vec(Vec::new(alloc)),
        })?;
    }
    Ok(Ifaces {
        list: List::of_vec(list),
    })
}
