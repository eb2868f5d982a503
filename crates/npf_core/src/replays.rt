// Acts in order, with the replies that a legal history of them has. Replies need no equality so: what is compared is the history.
ghost use Rattle.std.specs.Prelude.{◌≡◌, IfOk, IfErr};
ghost use Rattle.npf_core.specs.History.{Legal};
ghost use Rattle.npf_core.specs.Replays.{asked_in, HasReplayFault};

use crate::act::Act;
use crate::entry::Entry;
use crate::law::Law;
use crate::plain_machine::PlainMachine;
use crate::plays::play;
use npf_types::NoMemory;
use std::alloc::{AllocFailed, Global};
use thiserror::Error;

/// An act that is asked for under a seat.
#[derive(Clone, Copy, Debug, PartialEq, Eq)]
pub struct Asked<S, A> {
    pub seat: u64,
    pub act: Act<S, A>,
}

/// Why acts have no history.
#[derive(Clone, Copy, Debug, PartialEq, Eq, Error)]
pub enum ReplayFault {
    /// The act at this place, from 0 on, isn't allowed after those before it.
    #[error("the act at {0} is not allowed")]
    NotAllowed(usize),
    #[error("out of memory")]
    NoMemory,
}

impl From<NoMemory> for ReplayFault {
    ghost use Rattle.npf_core.specs.declared.replays.ReplayFault.{ReplayFault};

    ghost from_gives = { λ _ fault. fault ≡ ReplayFault.NoMemory };

    fn from(_error: NoMemory) -> ReplayFault {
        ReplayFault::NoMemory
    }
}

impl<T: Drop> From<AllocFailed<T>> for ReplayFault {
    ghost use Rattle.npf_core.specs.declared.replays.ReplayFault.{ReplayFault};

    ghost from_gives = { λ _ fault. fault ≡ ReplayFault.NoMemory };

    fn from(_error: AllocFailed<T>) -> ReplayFault {
        ReplayFault::NoMemory
    }
}

/// The legal history of these acts, from the opening state of a machine with so many slots; or the place of the first act that isn't
/// allowed.
pub fn replay<L: Law>(
    alloc: Global,
    slots: u32,
    asked: &[Asked<L::State, L::Arg>],
) -> Result<Vec<Entry<L::State, L::Arg, L::Reply>>, ReplayFault>
    ensures legal { IfOk result (λ history. Legal L.meaning slots history.items) }
    ensures asked { IfOk result (λ history. asked_in history.items ≡ asked.now) }
    ensures fault { IfErr result (HasReplayFault L.meaning slots asked.now) }
{
    let mut machine = PlainMachine::new(alloc, slots)?;
    let mut history = Vec::new(alloc);
    for (at, next) in asked.iter().enumerate() {
        let Some(reply) = play::<L>(&mut machine, next.seat, &next.act)? else {
            return Err(ReplayFault::NotAllowed(at));
        };
        let entry = Entry {
            seat: next.seat,
            act: next.act,
            reply,
        };
        history.push(entry)?;
    }
    Ok(history)
}
