// Which witnesses pass on one interface in one direction.
ghost use Rattle.std.specs.Prelude.{◌≡◌, IfOk, length};
ghost use Rattle.std.specs.List.{list_any};
ghost use Rattle.npf_ctl_witnesses.specs.Alike.{is_leader, run_number, leaders, pass_alike};
ghost use Rattle.npf_model.specs.Place.{is_dir};

use npf_model::Iface;
use npf_products::CellPacket;
use npf_types::{Dir, IfId, NoMemory};
use std::alloc::Global;

/// The first one of each interface and direction.
pub(crate) fn leaders(
    alloc: Global,
    ifaces: &[Iface],
    packets: &[CellPacket],
) -> Result<Vec<CellPacket>, NoMemory>
    ensures { IfOk result (λ found. found.items ≡ leaders ifaces.now packets.now) }
{
    let mut found = Vec::new(alloc);
    for (place, packet) in packets.iter().enumerate() {
        if is_leader(ifaces, &packets[..place], packet) {
            found.push(*packet)?;
        }
    }
    Ok(found)
}

// Whether none of the earlier ones passes as this one does.
fn is_leader(ifaces: &[Iface], earlier: &[CellPacket], packet: &CellPacket) -> bool
    ensures { result ≡ is_leader ifaces.now earlier.now packet.now }
{
    !is_among(ifaces, earlier, packet)
}

fn is_among(ifaces: &[Iface], packets: &[CellPacket], packet: &CellPacket) -> bool
    ensures { result ≡ list_any (pass_alike ifaces.now packet.now) packets.now }
{
    packets
        .iter()
        .any(|other| pass_alike(ifaces, packet, other))
}

/// Whether both pass on one interface in one direction.
pub(crate) fn pass_alike(ifaces: &[Iface], one: &CellPacket, other: &CellPacket) -> bool
    ensures { result ≡ pass_alike ifaces.now one.now other.now }
{
    run_number(ifaces, one.ifid) == run_number(ifaces, other.ifid) && is_dir(one.dir, other.dir)
}

// The number of an interface of the run; what is none of them counts as 0.
fn run_number(ifaces: &[Iface], ifid: IfId) -> u16
    ensures { result ≡ run_number ifaces.now ifid.0 }
{
    if ifid.0 as usize <= ifaces.len() {
        ifid.0
    } else {
        0
    }
}

fn is_dir(one: Dir, other: Dir) -> bool
    ensures { result ≡ is_dir one other }
{
    matches!((one, other), (Dir::In, Dir::In) | (Dir::Out, Dir::Out))
}
