// The interfaces of a run, and their numbers.
ghost use Rattle.std.specs.Prelude.{◌≡◌, Some};
ghost use Rattle.npf_model.specs.Numbering.{number_of_name, number_of_place};

use npf_types::limits::MAX_INTERFACES;
use npf_types::{Addr, IfId, List, Name};

/// An interface of the run and its addresses, in the order of the interface file.
#[derive(Debug, Drop)]
pub struct Iface {
    pub name: Name,
    pub addrs: List<Addr>,
}

/// The interfaces of a run, in order. The first 64 have their place, counted from 1, as their number; all others 0.
#[derive(Debug, Drop)]
pub struct Ifaces {
    pub list: List<Iface>,
}

/// The number of the interface of this name: its first place in the list, from 1, or `IfId::UNKNOWN` where it has none or
/// one past `MAX_INTERFACES`.
pub fn number_of_name(ifaces: &[Iface], name: &Name) -> IfId
    ensures { result ≡ record { 0 = number_of_name ifaces.now name.now } }
{
    let mut place = 1;
    for iface in ifaces {
        if iface.name.as_bytes() == name.as_bytes() {
            return number_of_place(place);
        }
        place += 1;
    }
    IfId::UNKNOWN
}

/// The number of the interface at this place, from 1: the place, or `IfId::UNKNOWN` past `MAX_INTERFACES`.
pub fn number_of_place(place: usize) -> IfId
    ensures { result ≡ record { 0 = number_of_place (Some place) } }
{
    if place <= MAX_INTERFACES {
        IfId(place as u16)
    } else {
        IfId::UNKNOWN
    }
}
