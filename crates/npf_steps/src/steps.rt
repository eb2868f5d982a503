// A count of steps and its end.
ghost use Rattle.std.specs.Prelude.{◌≡◌, ◌≤◌, ◌<◌, ◌+◌, ◌^◌, ◌-◌, IfOk, IsErrOf, min};

use npf_types::NoMemory;
use std::alloc::{AllocError, AllocFailed};
use thiserror::Error;

/// Why a question ended without an answer.
#[derive(Clone, Copy, Debug, PartialEq, Eq, Error)]
pub enum Stopped {
    #[error("out of memory")]
    NoMemory,
    /// More steps were wanted than may be taken.
    #[error("out of steps")]
    Spent,
}

impl From<NoMemory> for Stopped {
    ghost use Rattle.npf_steps.specs.declared.steps.Stopped.TheVariants.{NoMemory};

    ghost from_gives = { λ _ stopped. stopped ≡ NoMemory };

    fn from(_error: NoMemory) -> Stopped {
        Stopped::NoMemory
    }
}

impl From<AllocError> for Stopped {
    ghost use Rattle.npf_steps.specs.declared.steps.Stopped.TheVariants.{NoMemory};

    ghost from_gives = { λ _ stopped. stopped ≡ NoMemory };

    fn from(_error: AllocError) -> Stopped {
        Stopped::NoMemory
    }
}

impl<T: Drop> From<AllocFailed<T>> for Stopped {
    ghost use Rattle.npf_steps.specs.declared.steps.Stopped.TheVariants.{NoMemory};

    ghost from_gives = { λ _ stopped. stopped ≡ NoMemory };

    fn from(_error: AllocFailed<T>) -> Stopped {
        Stopped::NoMemory
    }
}

/// How many steps were taken, and how many may be.
#[derive(Clone, Copy, Debug, PartialEq, Eq)]
pub struct Steps {
    most: u64,
    taken: u64,
    ghost bounded: { most < 2 ^ 64 - 1 },
}

impl Steps {
    /// None of so many steps as may be taken, which are at most 2^64 - 2.
    pub fn new(most: u64) -> Steps
        ensures most { result.most ≡ min most (2 ^ 64 - 2) }
        ensures none_taken { result.taken ≡ 0 }
    {
        Steps {
            most: most.min(u64::MAX - 1),
            taken: 0,
        }
    }

    /// Takes so many steps.
    ///
    /// # Errors
    /// `Stopped::Spent` where they are more than are left; then none is left.
    pub fn take(&mut self, count: u64) -> Result<(), Stopped>
        ensures counted { IfOk result (λ _. self.new.taken ≡ self.old.taken + count) }
        ensures within { IfOk result (λ _. self.new.taken ≤ self.new.most) }
        ensures beyond { IsErrOf result Stopped.Spent → self.old.most < self.old.taken + count }
        ensures spent { IsErrOf result Stopped.Spent → self.new.most < self.new.taken }
        ensures allocates_nothing { IsErrOf result Stopped.NoMemory → ⊥ }
        ensures most { self.new.most ≡ self.old.most }
        ensures rises { self.old.taken ≤ self.new.taken }
    {
        match self.taken.checked_add(count) {
            Some(taken) if taken <= self.most => {
                self.taken = taken;
                Ok(())
            }
            _ => {
                self.taken = self.taken.max(self.most + 1);
                Err(Stopped::Spent)
            }
        }
    }

    /// How many steps were taken, or wanted where that is more than may be.
    pub fn taken(&self) -> u64
        ensures { result ≡ self.now.taken }
    {
        self.taken
    }

    /// How many steps may be taken.
    pub fn most(&self) -> u64
        ensures { result ≡ self.now.most }
    {
        self.most
    }
}
