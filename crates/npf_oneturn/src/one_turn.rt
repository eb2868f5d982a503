// The table under one turn, as the calls that any table has.
ghost use Rattle.std.specs.Prelude.{◌≡◌};

use crate::contents::Contents;
use crate::moves::{Cut, GetsNumber, Learns, Merge};
use crate::rule::{CallEnding, OneTurnRule};
use crate::turn::{FREE, end, take};
use crate::view::View;
use crate::work::{collect_contents, end_connection, expire_all};
use atomic_table::{Refused, Seat, Table};
use npf_connections::Connections;
use npf_core::{Act, ConnId, Found, Held, Kept, Law, Stepped};
use npf_oneturn_store::{Store, step};
use npf_types::{Key, NoMemory, Way};
use std::alloc::Global;
use std::sync::Wait;

/// A table of connections under one turn.
#[derive(Drop)]
pub struct OneTurn<L: Law> {
    table: Table<Contents<L::State>, View<L::State, L::Arg, L::Reply>, u32, OneTurnRule<L>, Global>,
    slots: u32,
    ghost sized: { table.shared.key ≡ slots },
}

/// A pass of a table under one turn.
#[derive(Drop)]
pub struct OneTurnPass<L: Law> {
    seat: Seat<Contents<L::State>, View<L::State, L::Arg, L::Reply>>,
}

impl<L: Law> OneTurn<L> {
    ghost use Rattle.std.specs.Prelude.{IfOk};
    ghost use Rattle.npf_connections.specs.Pass.{IsPass, IsFirstPass};
    ghost use Rattle.npf_oneturn.specs.Seats.{IsSeatOf};
    ghost use Rattle.npf_oneturn.specs.Taking.{IsResting};
    ghost use Rattle.npf_oneturn.specs.Views.{show};

    /// A table of so many slots, and its first pass. All the memory that it ever has is taken here.
    pub fn new(alloc: Global, slots: u32) -> Result<(OneTurn<L>, OneTurnPass<L>), NoMemory>
        ensures of { IfOk result (λ made. IsSeatOf made.0.table.shared.table_id made.1.seat.table_id) }
        ensures rests { IfOk result (λ made. IsResting made.1.seat.me) }
        ensures sized { IfOk result (λ made. made.1.seat.me.0.seats.about ≡ made.0.table.shared.key) }
        ensures legal { IfOk result (λ made. IsPass L.meaning (show made.1.seat.me.0)) }
        ensures first { IfOk result (λ made. IsFirstPass slots (show made.1.seat.me.0)) }
    {
        let mut homes = Vec::new(alloc);
        homes.push(Contents {
            store: Store::new(alloc, slots)?,
            entered: 0,
        })?;
        match Table::new(alloc, &[FREE], homes, &slots) {
            Ok((table, seat)) => Ok((OneTurn { table, slots }, OneTurnPass { seat })),
            Err(Refused { .. }) => Err(NoMemory),
        }
    }
}

impl<L: Law> Connections<L> for OneTurn<L>
where
    L::State: Send,
{
    ghost use Rattle.npf_oneturn.specs.Seats.{IsSeatOf};
    ghost use Rattle.npf_oneturn.specs.Taking.{IsResting};
    ghost use Rattle.npf_oneturn.specs.Views.{show};

    type Pass = OneTurnPass<L>;

    ghost view = { λ pass. show pass.seat.me.0 };

    ghost fits = { λ conns pass. IsSeatOf conns.table.shared.table_id pass.seat.table_id × IsResting pass.seat.me × (pass.seat.me.0.seats.about ≡ conns.table.shared.key) };

    fn slots(&self) -> u32 {
        self.slots
    }

    fn enter(&self, rt: &impl Wait, pass: &mut OneTurnPass<L>) {
        take::<L>(rt, &self.table.shared, &mut pass.seat);
        pass.seat.slot_mut(&self.table.shared, 0).entered += 1;
        end::<L>(&self.table.shared, &mut pass.seat, CallEnding::Enters);
    }

    fn leave(&self, rt: &impl Wait, pass: &mut OneTurnPass<L>) {
        take::<L>(rt, &self.table.shared, &mut pass.seat);
        pass.seat.slot_mut(&self.table.shared, 0).entered -= 1;
        end::<L>(&self.table.shared, &mut pass.seat, CallEnding::Leaves);
    }

    // Inlined with what it asks of the store, and so is a step: each packet looks twice, and what is answered isn't copied from call to call.
    #[inline(always)]
    fn look(&self, rt: &impl Wait, pass: &mut OneTurnPass<L>, n: u64, key: Key) -> Option<Found> {
        take::<L>(rt, &self.table.shared, &mut pass.seat);
        let found = pass.seat.slot_mut(&self.table.shared, 0).store.holder(key);
        end::<L>(
            &self.table.shared,
            &mut pass.seat,
            CallEnding::Asks(Act::Look { packet: n, key }),
        );
        found
    }

    #[inline(always)]
    fn step(
        &self,
        rt: &impl Wait,
        pass: &mut OneTurnPass<L>,
        id: ConnId,
        n: u64,
        way: Way,
        arg: &L::Arg,
    ) -> Stepped<L::Reply> {
        take::<L>(rt, &self.table.shared, &mut pass.seat);
        let stepped = step::<L>(
            &mut pass.seat.slot_mut(&self.table.shared, 0).store,
            id,
            way,
            arg,
        );
        end::<L>(
            &self.table.shared,
            &mut pass.seat,
            CallEnding::Asks(Act::Step {
                packet: n,
                id,
                way,
                arg: *arg,
            }),
        );
        stepped
    }

    fn begin(&self, rt: &impl Wait, pass: &mut OneTurnPass<L>, n: u64) -> Option<ConnId> {
        take::<L>(rt, &self.table.shared, &mut pass.seat);
        let Some(id) = pass.seat.slot_mut(&self.table.shared, 0).store.claim() else {
            end::<L>(&self.table.shared, &mut pass.seat, CallEnding::Nothing);
            return None;
        };
        end::<L>(
            &self.table.shared,
            &mut pass.seat,
            CallEnding::Asks(Act::Claim {
                packet: n,
                slot: id.slot,
            }),
        );
        Some(id)
    }

    fn hold(
        &self,
        rt: &impl Wait,
        pass: &mut OneTurnPass<L>,
        id: ConnId,
        key: Key,
        way: Way,
    ) -> Held {
        take::<L>(rt, &self.table.shared, &mut pass.seat);
        let held = pass
            .seat
            .slot_mut(&self.table.shared, 0)
            .store
            .hold(id, key, way);
        end::<L>(
            &self.table.shared,
            &mut pass.seat,
            CallEnding::Asks(Act::Hold { id, key, way }),
        );
        held
    }

    fn start(&self, rt: &impl Wait, pass: &mut OneTurnPass<L>, id: ConnId, n: u64, init: L::State) {
        take::<L>(rt, &self.table.shared, &mut pass.seat);
        pass.seat
            .slot_mut(&self.table.shared, 0)
            .store
            .start(id, init);
        end::<L>(
            &self.table.shared,
            &mut pass.seat,
            CallEnding::Asks(Act::Start {
                id,
                packet: n,
                init,
            }),
        );
    }

    fn abandon(&self, rt: &impl Wait, pass: &mut OneTurnPass<L>, id: ConnId) {
        take::<L>(rt, &self.table.shared, &mut pass.seat);
        end_connection::<L>(&mut pass.seat.slot_mut(&self.table.shared, 0).store, id);
        end::<L>(&self.table.shared, &mut pass.seat, CallEnding::Abandons(id));
    }

    fn expire(&self, rt: &impl Wait, pass: &mut OneTurnPass<L>, now: u64) -> u64 {
        take::<L>(rt, &self.table.shared, &mut pass.seat);
        let count = expire_all::<L>(&mut pass.seat.slot_mut(&self.table.shared, 0).store, now);
        end::<L>(
            &self.table.shared,
            &mut pass.seat,
            CallEnding::Expires { now, count },
        );
        count
    }

    fn collect(&self, rt: &impl Wait, pass: &mut OneTurnPass<L>) {
        take::<L>(rt, &self.table.shared, &mut pass.seat);
        collect_contents::<L>(pass.seat.slot_mut(&self.table.shared, 0));
        end::<L>(&self.table.shared, &mut pass.seat, CallEnding::Collects);
    }

    fn copy_slot(
        &self,
        rt: &impl Wait,
        pass: &mut OneTurnPass<L>,
        slot: u32,
    ) -> Option<Kept<L::State>> {
        take::<L>(rt, &self.table.shared, &mut pass.seat);
        let kept = pass.seat.slot_mut(&self.table.shared, 0).store.kept(slot);
        end::<L>(&self.table.shared, &mut pass.seat, CallEnding::Nothing);
        kept
    }

    fn split(&self, _rt: &impl Wait, pass: &mut OneTurnPass<L>) -> OneTurnPass<L> {
        let mut seat = self.table.shared.split_seat::<Cut>(&mut pass.seat);
        self.table.shared.load::<GetsNumber<L>>(&mut seat, 0);
        OneTurnPass { seat }
    }

    fn join(&self, _rt: &impl Wait, pass: &mut OneTurnPass<L>, other: OneTurnPass<L>) {
        let OneTurnPass { seat } = other;
        self.table.shared.join_seat::<Merge>(&mut pass.seat, seat);
        self.table.shared.load::<Learns<L>>(&mut pass.seat, 0);
    }
}
