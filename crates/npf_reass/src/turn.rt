// The turn of a class of sets is taken and given back.
ghost use Rattle.std.specs.Prelude.{◌≡◌, ◌<◌};
ghost use Rattle.npf_reass.specs.Passes.{IsReassSeat, IsRestingPass};
ghost use Rattle.npf_reass.specs.Turn.{MayEndClass, HasEndedTurn, HasTakenClass};

use crate::offer::{Gathered, ReassSize};
use crate::rule::{GatheringRule, TakesClassTurn};
use crate::view::ReassView;
use atomic_table::{Play, Seat, Shared};
use npf_pieces::Piece;
use std::marker::{Brand, PhantomData};
use std::sync::Wait;
use std::thread::yield_now;

pub(crate) type ClassWords = Shared<Gathered, ReassView, ReassSize, GatheringRule>;

pub(crate) type ClassSeat = Seat<Gathered, ReassView>;

pub(crate) const FREE: u64 = 0;

const TAKEN: u64 = 1;

/// Takes the turn of the class, once it is free. After each refused try another thread may run.
pub(crate) fn take(rt: &impl Wait, words: &ClassWords, seat: &mut ClassSeat, class: u32)
    requires of { IsReassSeat words.now.key words.now.table_id seat.old.table_id }
    requires rests { IsRestingPass words.now.key seat.old.me }
    requires inside { class < words.now.key.classes }
    ensures of { IsReassSeat words.now.key words.now.table_id seat.new.table_id }
    ensures id { seat.new.id ≡ seat.old.id }
    ensures taken { HasTakenClass seat.old.me.0 class seat.new.me }
{
    let word = class as usize;
    for _ in rt.forever() {
        if words.peek(word) == FREE
            && words.compare_exchange::<TakesClassTurn>(seat, word, FREE, TAKEN) == FREE
        {
            return;
        }
        yield_now();
    }
}

/// What the end of a turn is told.
trait TurnEnd {
    ghost use Rattle.std.specs.Prelude.{ℕ, Option};
    ghost use Rattle.npf_pieces.specs.declared.piece.Piece.{Piece};

    ghost offered: { Option (ℕ × Piece) };
}

impl TurnEnd for Brand {
    ghost use Rattle.std.specs.Prelude.{None};

    ghost offered = { None };
}

struct EndsClassTurn<W> {
    aim: PhantomData<W>,
}

impl<W: TurnEnd> Play<Gathered, ReassView> for EndsClassTurn<W> {
    ghost use Rattle.npf_reass.specs.Turn.{EndsClassTurn};

    ghost then = { EndsClassTurn W.offered };
}

fn end_as<W: TurnEnd>(
    words: &ClassWords,
    seat: &mut ClassSeat,
    class: u32,
    offered: Option<(u64, Piece)>,
)
    requires of { IsReassSeat words.now.key words.now.table_id seat.old.table_id }
    requires inside { class < words.now.key.classes }
    requires aim { W.offered ≡ offered }
    requires may { MayEndClass words.now.key.classes class offered seat.old.me }
    ensures of { IsReassSeat words.now.key words.now.table_id seat.new.table_id }
    ensures ended { HasEndedTurn offered seat.old.me seat.new.me }
{
    words.store::<EndsClassTurn<W>>(seat, class as usize, FREE);
}

/// Ends the turn of the class: what was offered, if it was, stands.
pub(crate) fn end(
    words: &ClassWords,
    seat: &mut ClassSeat,
    class: u32,
    offered: Option<(u64, Piece)>,
)
    requires of { IsReassSeat words.now.key words.now.table_id seat.old.table_id }
    requires inside { class < words.now.key.classes }
    requires may { MayEndClass words.now.key.classes class offered seat.old.me }
    ensures of { IsReassSeat words.now.key words.now.table_id seat.new.table_id }
    ensures ended { HasEndedTurn offered seat.old.me seat.new.me }
{
    end_as::<Brand>(words, seat, class, offered);
}
