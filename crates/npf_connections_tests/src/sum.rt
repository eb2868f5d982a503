// A law of the tests' own.
ghost use Rattle.npf_connections_tests.specs.Sum.{sum_law};

use npf_core::Law;
use npf_types::{Key, Way};

// A flow that adds up what its packets bring, answers with the sum before, and is due at the time that equals it.
pub(crate) struct Sum;

impl Law for Sum {
    type State = u32;

    type Arg = u32;

    type Reply = u32;

    ghost meaning = { sum_law };

    fn step(state: &u32, _way: Way, arg: &u32) -> (u32, u32) {
        (state.wrapping_add(*arg), *state)
    }

    fn due(state: &u32, now: u64) -> bool {
        u64::from(*state) <= now
    }
}

pub(crate) const KEY: Key = Key([17, 1, 2, 3, 4]);

pub(crate) const OTHER_KEY: Key = Key([17, 1, 2, 3, 5]);
