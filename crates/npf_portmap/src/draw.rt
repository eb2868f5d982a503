// The ports of a range, from a first one on, each once.
ghost use Rattle.std.specs.Prelude.{◌≡◌, ◌++◌, ℕ, List, slice_get, drop};
ghost use Rattle.npf_portmap.specs.Candidate.{candidates};

use crate::run::Run;
use std::marker::Model;

/// The ports that are left to be tried. Contracts see their list.
#[derive(Debug, Drop)]
pub struct PortDraw {
    above: Run,
    below: Run,
}

impl Model for PortDraw {
    ghost Value = { List ℕ };

    ghost view = { λ draw. draw.above ++ draw.below };
}

/// The ports of the range from `min` to `max`, both of which belong to it, in the order in which
/// they are tried: `first` to `max`, then `min` up to the port before `first`, also where `first`
/// isn't one of them.
pub fn candidates(min: u16, max: u16, first: u16) -> PortDraw
    ensures { result ≡ candidates min max first }
{
    PortDraw {
        above: Run::of(u32::from(first), u32::from(max) + 1),
        below: Run::of(u32::from(min), u32::from(first)),
    }
}

impl PortDraw {
    /// The next port to be tried. None exactly after all.
    pub fn next(&mut self) -> Option<u16>
        ensures port { result ≡ slice_get self.old 0 }
        ensures left { self.new ≡ drop 1 self.old }
    {
        if let Some(port) = self.above.take() {
            return Some(port);
        }
        self.below.take()
    }
}
