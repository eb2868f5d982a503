// The turn of the table is taken and given back.
ghost use Rattle.std.specs.Prelude.{◌≡◌};
ghost use Rattle.npf_oneturn.specs.Endings.{MayEndTurn, HasEnded, Ends};
ghost use Rattle.npf_oneturn.specs.Seats.{IsSeatOf};
ghost use Rattle.npf_oneturn.specs.Taking.{IsResting, Taken};

use crate::contents::Contents;
use crate::rule::{CallEnding, OneTurnRule, Takes};
use crate::view::View;
use atomic_table::{Play, Seat, Shared};
use npf_core::Law;
use std::marker::{Brand, PhantomData};
use std::sync::Wait;
use std::thread::yield_now;

pub(crate) type TableWords<L: Law> = Shared<
    Contents<L::State>,
    View<L::State, L::Arg, L::Reply>,
    u32,
    OneTurnRule<L>,
>;

pub(crate) type TableSeat<L: Law> = Seat<Contents<L::State>, View<L::State, L::Arg, L::Reply>>;

pub(crate) const FREE: u64 = 0;

const TAKEN: u64 = 1;

/// Takes the turn, once it is free. After each refused try another thread may run.
pub(crate) fn take<L: Law>(rt: &impl Wait, table: &TableWords<L>, seat: &mut TableSeat<L>)
    requires of { IsSeatOf table.now.table_id seat.old.table_id }
    requires rests { IsResting seat.old.me }
    ensures of { IsSeatOf table.now.table_id seat.new.table_id }
    ensures id { seat.new.id ≡ seat.old.id }
    ensures taken { Taken L.meaning seat.old.me.0 seat.new.me }
{
    for _ in rt.forever() {
        if table.compare_exchange::<Takes<L>>(seat, 0, FREE, TAKEN) == FREE {
            return;
        }
        yield_now();
    }
}

/// What the end of a call is told.
trait CallEnd<S, A> {
    ghost use Rattle.npf_oneturn.specs.declared.rule.CallEnding.{CallEnding};

    ghost ending: { CallEnding S A };
}

impl<S, A> CallEnd<S, A> for Brand {
    ghost use Rattle.npf_oneturn.specs.declared.rule.CallEnding.TheVariants.{Nothing};

    ghost ending = { Nothing };
}

struct EndsAs<L: Law, W> {
    law: PhantomData<L>,
    aim: PhantomData<W>,
}

impl<L: Law, W: CallEnd<L::State, L::Arg>> Play<
    Contents<L::State>,
    View<L::State, L::Arg, L::Reply>,
> for EndsAs<L, W> {
    ghost then = { Ends L.meaning W.ending };
}

fn end_as<L: Law, W: CallEnd<L::State, L::Arg>>(
    table: &TableWords<L>,
    seat: &mut TableSeat<L>,
    ending: CallEnding<L::State, L::Arg>,
)
    requires of { IsSeatOf table.now.table_id seat.old.table_id }
    requires aim { W.ending ≡ ending }
    requires may { MayEndTurn L.meaning ending seat.old.me }
    ensures of { IsSeatOf table.now.table_id seat.new.table_id }
    ensures id { seat.new.id ≡ seat.old.id }
    ensures ended { HasEnded L.meaning ending seat.old.me seat.new.me }
{
    table.store::<EndsAs<L, W>>(seat, 0, FREE);
}

/// Ends the turn: the call's acts are done, and its entries stand.
pub(crate) fn end<L: Law>(
    table: &TableWords<L>,
    seat: &mut TableSeat<L>,
    ending: CallEnding<L::State, L::Arg>,
)
    requires of { IsSeatOf table.now.table_id seat.old.table_id }
    requires may { MayEndTurn L.meaning ending seat.old.me }
    ensures of { IsSeatOf table.now.table_id seat.new.table_id }
    ensures id { seat.new.id ≡ seat.old.id }
    ensures ended { HasEnded L.meaning ending seat.old.me seat.new.me }
{
    end_as::<L, Brand>(table, seat, ending);
}
