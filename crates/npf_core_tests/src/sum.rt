ghost use Rattle.std.specs.Prelude.{◌+◌, ◌%◌, ◌^◌, nat_le};

use npf_core::Law;
use npf_types::Way;

/// A flow that adds up what its packets bring, answers with the sum before, and is due at the time that equals it.
pub struct Sum;

impl Law for Sum {
    type State = u32;

    type Arg = u32;

    type Reply = u32;

    ghost meaning = { record {
      next = λ sum _ arg. (sum + arg) % 2 ^ 32;
      answer = λ sum _ _. sum;
      is_due = λ sum now. nat_le sum now;
    } };

    fn step(state: &u32, _way: Way, arg: &u32) -> (u32, u32) {
        (state.wrapping_add(*arg), *state)
    }

    fn due(state: &u32, now: u64) -> bool {
        u64::from(*state) <= now
    }
}
