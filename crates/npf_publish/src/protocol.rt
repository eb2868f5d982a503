// The rule that `left_right` keeps over the published number and what each seat, the publisher's or a reader's, knows of it.
ghost use Rattle.std.specs.Prelude.{◌≡◌, max};
ghost use Rattle.npf_publish.specs.Protocol.{NeverFalls, SeesFirst, SeesNumber, renumbered, unseated};

use atomic_table::{Join, Split};
use crossbeam_utils::rule::{Outcome, Protocol};
use left_right::Absorb;
use std::alloc::AllocError;

/// What readers are shown. The last number stands here, since a rule is a type and knows no number of a run.
#[derive(Clone, Copy, Drop)]
pub struct Published {
    pub number: u64,
    pub last: u64,
}

impl Absorb<u64> for Published {
    type State = Published;

    ghost state = { λ published. published };

    ghost applied = { renumbered };

    ghost never_fails = { Unit {0} };

    fn absorb_first(&mut self, number: &u64, _other: &Published) -> Result<(), AllocError> {
        self.number = *number;
        Ok(())
    }
}

/// What a seat knows: the number that it saw shown last, the last number or one above it, and how often it has looked. No value of it
/// is made.
pub struct SeatView {
    pub seen: u64,
    pub last: u64,
    pub looks: u64,
}

pub struct PublishRule;

impl Protocol<Published, SeatView> for PublishRule {
    ghost holds = { NeverFalls };

    ghost first = { unseated };
}

/// The publisher's first step, which shows what is shown already: from then on its seat knows it.
pub struct FirstLook;

impl Outcome<Published, SeatView> for FirstLook {
    ghost then = { SeesFirst };
}

/// A read, or a step of the publisher.
pub struct LookStep;

impl Outcome<Published, SeatView> for LookStep {
    ghost then = { SeesNumber };
}

/// What one seat knows, known to a second one too.
pub struct Copied;

impl Split<SeatView> for Copied {
    ghost left = { λ view. view };

    ghost right = { λ view. view };
}

/// What two seats know, known to the first of them.
pub struct Combined;

impl Join<SeatView> for Combined {
    ghost both = { λ view told. record { seen = max view.seen told.seen; last = told.last; looks = view.looks } };

    ghost spent = { unseated };
}
