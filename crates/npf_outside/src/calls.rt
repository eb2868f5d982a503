// The calls of an object in memory, and those of them that are to fail.
ghost use Rattle.std.specs.Prelude.{◌≡◌, ◌↔◌, ◌++◌, [], ◌∷◌, IsTrue, OnOk, OnErr, Contains};

use npf_types::NoMemory;
use std::alloc::Global;

/// How many calls were made, and the numbers of those that are to fail. Calls are numbered from 1.
#[derive(Drop)]
pub(crate) struct Calls {
    made: u64,
    failing: Vec<u64>,
}

impl Calls {
    ghost use Rattle.npf_outside.specs.Calls.{planned, next_call};

    pub(crate) fn new(alloc: Global) -> Calls
        ensures made { result.made ≡ 0 }
        ensures planned { planned result ≡ [] }
    {
        Calls {
            made: 0,
            failing: Vec::new(alloc),
        }
    }

    /// Makes the call of this number fail.
    pub(crate) fn plan(&mut self, call: u64) -> Result<(), NoMemory>
        ensures planned { OnOk result (planned self.new ≡ planned self.old ++ call ∷ []) }
        ensures err { OnErr result (planned self.new ≡ planned self.old) }
        ensures made { self.new.made ≡ self.old.made }
    {
        self.failing.push(call)?;
        Ok(())
    }

    /// Counts a call, and tells whether it is to fail.
    pub(crate) fn begin(&mut self) -> bool
        ensures fails { IsTrue result ↔ Contains (planned self.old) (next_call self.old) }
        ensures made { self.new.made ≡ next_call self.old }
        ensures planned { planned self.new ≡ planned self.old }
    {
        self.made = self.made.saturating_add(1);
        self.failing.contains(&self.made)
    }
}
