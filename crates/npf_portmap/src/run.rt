// Numbers from one to another, in order.
ghost use Rattle.std.specs.Prelude.{◌≡◌, ◌≤◌, ◌-◌, ℕ, List, slice_get, drop};
ghost use Rattle.std.specs.List.{range_with_len};

use std::marker::Model;

/// Ports one behind the other, from `next` up to `end`, which doesn't belong to them. Contracts see
/// their list.
#[derive(Debug, Drop)]
pub struct Run {
    next: u32,
    end: u32,
}

impl Model for Run {
    ghost Value = { List ℕ };

    ghost view = { λ run. range_with_len run.next (run.end - run.next) };

    ghost invariant = { λ run. run.end ≤ 65536 };
}

impl Run {
    /// The ports from `next` up to `end`.
    pub fn of(next: u32, end: u32) -> Run
        requires { end ≤ 65536 }
        ensures { result ≡ range_with_len next (end - next) }
    {
        Run { next, end }
    }

    /// Takes the first port. None exactly where none is left.
    #[tactic(auto, using(crate::proofs::CandidateLemmas::taking))]
    pub fn take(&mut self) -> Option<u16>
        ensures port { result ≡ slice_get self.old 0 }
        ensures left { self.new ≡ drop 1 self.old }
    {
        if self.next >= self.end {
            return None;
        }
        let port = self.next as u16;
        self.next += 1;
        Some(port)
    }
}
