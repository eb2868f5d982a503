// What a rule or a group is bound to by direction and interface. The interface stands with its name, so that numbers are set by themselves.
ghost use Rattle.std.specs.Prelude.{◌≡◌, ◌&&◌};
ghost use Rattle.npf_model.specs.Place.{fits_dir, fits_on};
ghost use Rattle.npf_ruleset.specs.Binding.{IsBindingOf, IsBoundTo, is_bound};
ghost use Rattle.npf_ruleset.specs.Place.{placed_rule};

use crate::place::Placed;
use npf_model::{Group, OnIf};
use npf_types::{Dir, IfId};

/// The directions that are left to a packet, and the interfaces that it has to pass: `within` is
/// that of the ruleset.
#[derive(Clone, Copy, Drop)]
pub(crate) struct Binding {
    pub(crate) incoming: bool,
    pub(crate) outgoing: bool,
    pub(crate) within: Option<OnIf>,
    pub(crate) on: Option<OnIf>,
}

impl Binding {
    pub(crate) fn of_rule(placed: &Placed<'_>) -> Binding
        ensures { IsBindingOf (placed_rule placed.now) result }
    {
        let own = placed.rule.dir;
        Binding {
            incoming: fit_dir(placed.within_dir, own, Dir::In),
            outgoing: fit_dir(placed.within_dir, own, Dir::Out),
            within: placed.within_on,
            on: placed.rule.on,
        }
    }

    pub(crate) fn of_group(group: &Group) -> Binding
        ensures { IsBoundTo group.now.dir group.now.on result }
    {
        Binding {
            incoming: fits_dir(group.dir, Dir::In),
            outgoing: fits_dir(group.dir, Dir::Out),
            within: None,
            on: group.on,
        }
    }

    /// Whether a packet that passes there is left.
    pub(crate) fn leaves(&self, ifid: IfId, dir: Dir) -> bool
        ensures { result ≡ is_bound self.now ifid dir }
    {
        let way = match dir {
            Dir::In => self.incoming,
            Dir::Out => self.outgoing,
        };
        way && fits_on(self.within, ifid) && fits_on(self.on, ifid)
    }
}

/// Whether the direction is the one that is asked for, or none is.
pub fn fits_dir(asked: Option<Dir>, dir: Dir) -> bool
    ensures { result ≡ fits_dir asked dir }
{
    match asked {
        Some(asked) => asked == dir,
        None => true,
    }
}

fn fit_dir(one: Option<Dir>, other: Option<Dir>, dir: Dir) -> bool
    ensures { result ≡ (fits_dir one dir && fits_dir other dir) }
{
    fits_dir(one, dir) && fits_dir(other, dir)
}

/// Whether the interface is the one that is asked for, or none is. One that the run doesn't know, whose number is 0, is no packet's.
pub fn fits_on(asked: Option<OnIf>, ifid: IfId) -> bool
    ensures { result ≡ fits_on asked ifid }
{
    match asked {
        Some(on) => on.id == ifid && on.id != IfId::UNKNOWN,
        None => true,
    }
}
