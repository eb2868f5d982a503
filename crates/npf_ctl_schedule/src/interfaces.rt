// The interfaces of a run.
ghost use Rattle.std.specs.Prelude.{◌≡◌, IfOk};
ghost use Rattle.std.specs.List.{list_any};
ghost use Rattle.npf_model.specs.Numbering.{is_named};
ghost use Rattle.npf_ctl_schedule.specs.Schedule.{run_interfaces, unnumbered, with_interface};

use npf_ctl_script::ScriptLine;
use npf_model::{Iface, Ifaces};
use npf_types::{List, Name, NoMemory};
use std::alloc::Global;

/// The interfaces that are given, and behind them, in order, each other one that a capture names, which has no addresses.
pub fn run_interfaces(
    alloc: Global,
    given: Ifaces,
    lines: &[(u32, ScriptLine)],
) -> Result<Ifaces, NoMemory>
    ensures { IfOk result (λ ifaces. ifaces.list ≡ run_interfaces given.list (unnumbered lines.now)) }
{
    let Ifaces { list } = given;
    let mut ifaces = list.into_vec();
    for line in lines {
        if let ScriptLine::Capture { name, .. } = &line.1 {
            ifaces = with_interface(alloc, name, ifaces)?;
        }
    }
    Ok(Ifaces {
        list: List::of_vec(ifaces),
    })
}

fn with_interface(
    alloc: Global,
    name: &Name,
    mut ifaces: Vec<Iface>,
) -> Result<Vec<Iface>, NoMemory>
    ensures { IfOk result (λ more. more.items ≡ with_interface name.now ifaces.items) }
{
    if is_listed(name, ifaces.as_slice()) {
        return Ok(ifaces);
    }
    ifaces.push(Iface {
        name: *name,
        addrs: List::of_vec(Vec::new(alloc)),
    })?;
    Ok(ifaces)
}

fn is_listed(name: &Name, ifaces: &[Iface]) -> bool
    ensures { result ≡ list_any (is_named name.now) ifaces.now }
{
    ifaces
        .iter()
        .any(|iface| iface.name.as_bytes() == name.as_bytes())
}
