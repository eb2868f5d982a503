// A new table.
use npf_conndb::{Conns, KeyHash};
use npf_connections::Connections;
use npf_core::Law;
use npf_oneturn::OneTurn;
use npf_types::NoMemory;
use std::alloc::Global;

/// How many nodes a table without locks has here besides one for each slot: more than the keys of
/// a test need, also where all have one hash.
const NODES: u32 = 1024;

/// A table of connections that can be made.
pub trait NewTable<L: Law>: Connections<L> + Sized + Drop {
    ghost use Rattle.std.specs.Prelude.{◌≤◌, IfOk};
    ghost use Rattle.npf_connections.specs.Pass.{IsFirstPass};
    ghost use Rattle.npf_connections.specs.Stay.{IsOut};

    /// A table of so many slots, and its first pass.
    fn new_table(alloc: Global, slots: u32) -> Result<(Self, Self::Pass), NoMemory>
        requires slots { (1 ≤ slots) × (slots ≤ 65536) }
        ensures out { IfOk result (λ made. IsOut L.meaning (Self.fits made.0) Self.view made.1) }
        ensures first { IfOk result (λ made. IsFirstPass slots (Self.view made.1)) };
}

impl<L: Law> NewTable<L> for OneTurn<L>
where
    L::State: Send,
{
    fn new_table(alloc: Global, slots: u32) -> Result<(Self, Self::Pass), NoMemory> {
        OneTurn::new(alloc, slots)
    }
}

impl<L: Law, H: KeyHash> NewTable<L> for Conns<L, H>
where
    L::State: Send,
{
    fn new_table(alloc: Global, slots: u32) -> Result<(Self, Self::Pass), NoMemory> {
        Conns::new(alloc, slots, slots + NODES)
    }
}
