// The names of a run's interfaces. They are taken down in each run, also where nothing is loaded or saved, for one way through a run: at
// most 1,024 bytes.
ghost use Rattle.std.specs.Prelude.{◌≡◌, IfOk};
ghost use Rattle.npf_ctl_saved.specs.Loads.{interface_names};

use npf_model::Ifaces;
use npf_types::{Name, NoMemory};
use std::alloc::Global;

/// The names of the interfaces, in their order.
pub fn interface_names(alloc: Global, ifaces: &Ifaces) -> Result<Vec<Name>, NoMemory>
    ensures { IfOk result (λ names. names.items ≡ interface_names ifaces.now.list) }
{
    let ifaces = ifaces.list.as_slice();
    Ok(ifaces.iter().map(|iface| iface.name).collect(alloc)?)
}
