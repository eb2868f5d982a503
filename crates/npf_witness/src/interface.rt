// The names of interfaces.
ghost use Rattle.std.specs.Prelude.{◌≡◌, ◌++◌, OnOk, IfOk};
ghost use Rattle.npf_types.specs.Name.{name_bytes};
ghost use Rattle.npf_witness.specs.WitnessText.{cap_text, free_text, interface_text, is_some_name, name_at};

use npf_model::Iface;
use npf_text::{write_bytes, write_counted};
use npf_types::{IfId, Name, NoMemory};
use std::alloc::Global;

/// Appends the name of the interface of this number, or a name that no interface has where none has the number.
pub fn write_interface(
    alloc: Global,
    into: &mut Vec<u8>,
    ifaces: &[Iface],
    ifid: IfId,
) -> Result<(), NoMemory>
    ensures { OnOk result (into.new.items ≡ into.old.items ++ interface_text ifaces.now ifid) }
{
    match name_at(ifaces, ifid) {
        Some(name) => write_bytes(into, name.as_bytes()),
        None => {
            let free = free_text(alloc, ifaces)?;
            write_bytes(into, free.as_slice())
        }
    }
}

// The name of the interface of the number, which is its place from 1 on.
fn name_at(ifaces: &[Iface], ifid: IfId) -> Option<Name>
    ensures { result ≡ name_at ifaces.now ifid.0 }
{
    if ifid.0 == 0 {
        return None;
    }
    match ifaces.get(ifid.0 as usize - 1) {
        Some(iface) => Some(iface.name),
        None => None,
    }
}

// The first of cap0, cap1 and so on that is no interface's name.
fn free_text(alloc: Global, ifaces: &[Iface]) -> Result<Vec<u8>, NoMemory>
    ensures { IfOk result (λ text. text.items ≡ free_text ifaces.now) }
{
    for number in 0..ifaces.len() {
        let text = cap_text(alloc, number)?;
        if !is_some_name(ifaces, text.as_slice()) {
            return Ok(text);
        }
    }
    cap_text(alloc, ifaces.len())
}

fn cap_text(alloc: Global, number: usize) -> Result<Vec<u8>, NoMemory>
    ensures { IfOk result (λ text. text.items ≡ cap_text number) }
{
    let mut text = Vec::new(alloc);
    write_counted(&mut text, "cap", number as u64)?;
    Ok(text)
}

// Whether an interface has the name.
fn is_some_name(ifaces: &[Iface], name: &[u8]) -> bool
    ensures { result ≡ is_some_name name.now ifaces.now }
{
    ifaces.iter().any(|iface| iface.name.as_bytes() == name)
}
