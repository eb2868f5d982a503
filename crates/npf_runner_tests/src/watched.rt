// A table of connections that is watched: what it is told before a look and before an expiry may wait.
ghost use Rattle.std.specs.Prelude.{◌≡◌};

use npf_connections::Connections;
use npf_core::{ConnId, Found, Held, Kept, Stepped};
use npf_flow::{Flow, FlowArg, FlowLaw, FlowReply};
use npf_types::{Key, Way};
use std::sync::Wait;

/// Is told of calls of a table before they are made.
pub trait Watch: Sync {
    /// Before a look for the packet of this number.
    fn before_look(&self, n: u64);

    /// Before an expiry.
    fn before_expire(&self);
}

/// A table that tells its watch.
#[derive(Drop)]
pub struct Watched<C: Drop, W: Drop> {
    table: C,
    pub watch: W,
}

impl<C: Drop, W: Drop> Watched<C, W> {
    pub fn new(table: C, watch: W) -> Watched<C, W>
        ensures { result.table ≡ table }
    {
        Watched { table, watch }
    }
}

impl<C: Connections<FlowLaw> + Drop, W: Watch + Drop> Connections<FlowLaw> for Watched<C, W> {
    type Pass = C::Pass;

    ghost view = { C.view };

    ghost fits = { λ conns pass. C.fits conns.table pass };

    fn slots(&self) -> u32 {
        self.table.slots()
    }

    fn enter(&self, rt: &impl Wait, pass: &mut C::Pass) {
        self.table.enter(rt, pass);
    }

    fn leave(&self, rt: &impl Wait, pass: &mut C::Pass) {
        self.table.leave(rt, pass);
    }

    fn look(&self, rt: &impl Wait, pass: &mut C::Pass, n: u64, key: Key) -> Option<Found> {
        self.watch.before_look(n);
        self.table.look(rt, pass, n, key)
    }

    fn step(
        &self,
        rt: &impl Wait,
        pass: &mut C::Pass,
        id: ConnId,
        n: u64,
        way: Way,
        arg: &FlowArg,
    ) -> Stepped<FlowReply> {
        self.table.step(rt, pass, id, n, way, arg)
    }

    fn begin(&self, rt: &impl Wait, pass: &mut C::Pass, n: u64) -> Option<ConnId> {
        self.table.begin(rt, pass, n)
    }

    fn hold(&self, rt: &impl Wait, pass: &mut C::Pass, id: ConnId, key: Key, way: Way) -> Held {
        self.table.hold(rt, pass, id, key, way)
    }

    fn start(&self, rt: &impl Wait, pass: &mut C::Pass, id: ConnId, n: u64, init: Flow) {
        self.table.start(rt, pass, id, n, init);
    }

    fn abandon(&self, rt: &impl Wait, pass: &mut C::Pass, id: ConnId) {
        self.table.abandon(rt, pass, id);
    }

    fn expire(&self, rt: &impl Wait, pass: &mut C::Pass, now: u64) -> u64 {
        self.watch.before_expire();
        self.table.expire(rt, pass, now)
    }

    fn collect(&self, rt: &impl Wait, pass: &mut C::Pass) {
        self.table.collect(rt, pass);
    }

    fn copy_slot(&self, rt: &impl Wait, pass: &mut C::Pass, slot: u32) -> Option<Kept<Flow>> {
        self.table.copy_slot(rt, pass, slot)
    }

    fn split(&self, rt: &impl Wait, pass: &mut C::Pass) -> C::Pass {
        self.table.split(rt, pass)
    }

    fn join(&self, rt: &impl Wait, pass: &mut C::Pass, other: C::Pass) {
        self.table.join(rt, pass, other);
    }
}
