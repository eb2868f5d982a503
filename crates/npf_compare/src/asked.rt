// Which pairs of rules are asked.
use crate::both::BothOrders;
use crate::places::{is_marked, marks, unmarked};
use npf_types::NoMemory;
use std::alloc::Global;

/// The new rules that are asked of packets of an old one, by places in the order of inspection: all, or those that aren't common where the old rule is.
#[derive(Drop)]
pub(crate) struct AskedPlaces {
    pub common: Vec<bool>,
    pub all: Vec<usize>,
    pub rest: Vec<usize>,
}

impl AskedPlaces {
    ghost use Rattle.std.specs.Prelude.{◌≡◌};
    ghost use Rattle.npf_compare.specs.Told.{asked_of};

    /// Those that are asked of a packet of the old rule at this place of the order of precedence.
    pub fn of(&self, at: usize) -> &[usize]
        ensures { result.now ≡ asked_of self.now at }
    {
        if is_marked(self.common.as_slice(), at) {
            return self.rest.as_slice();
        }
        self.all.as_slice()
    }
}

impl BothOrders<'_> {
    ghost use Rattle.std.specs.Prelude.{◌≡◌, ◌+◌, IfOk, length};
    ghost use Rattle.npf_compare.specs.Side.{AreOfBoth};
    ghost use Rattle.npf_compare.specs.Told.{IsAskedWhole};

    /// The pairs that are asked: of each other one both rules are common.
    pub fn asked(&self, alloc: Global) -> Result<AskedPlaces, NoMemory>
        requires of { AreOfBoth self.now.old self.now.new self.now.packets }
        requires count { length self.now.new.at.now ≡ length self.now.new.order.now + 1 }
        ensures { IfOk result (IsAskedWhole self.now.old self.now.new) }
    {
        let found = self.common(alloc)?;
        let common = marks(alloc, self.old.order.len() + 1, found.rules.as_slice())?;
        let count = self.new.order.len() + 1;
        let fellows = marks(alloc, count, found.fellows.as_slice())?;
        let nothing = marks(alloc, count, &[])?;
        let rest = unmarked(alloc, self.new.at, fellows.as_slice())?;
        let all = unmarked(alloc, self.new.at, nothing.as_slice())?;
        Ok(AskedPlaces { common, all, rest })
    }
}
