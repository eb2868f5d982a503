ghost use Rattle.std.specs.Prelude.{◌||◌, ◌-◌, nat_le};
ghost use Rattle.npf_types.specs.declared.key.Way.TheVariants.{Backward};
ghost use Rattle.npf_core.specs.NextState.{is_way};

use npf_core::Law;
use npf_types::Way;

/// Two ends that send datagrams: whether the second one ever did, and the second of the last one. After thirty it is due.
#[derive(Clone, Copy, Debug, PartialEq, Eq)]
pub struct Talk {
    pub answered: bool,
    pub last: u64,
}

/// The law of such flows. A packet brings its second, and is answered whether the second end had answered before.
pub struct Datagrams;

impl Law for Datagrams {
    type State = Talk;

    type Arg = u64;

    type Reply = bool;

    ghost meaning = { record {
      next = λ talk way now. record { answered = talk.answered || is_way way Backward; last = now };
      answer = λ talk _ _. talk.answered;
      is_due = λ talk now. nat_le 30 (now - talk.last);
    } };

    fn step(state: &Talk, way: Way, arg: &u64) -> (Talk, bool) {
        let next = Talk {
            answered: state.answered || matches!(way, Way::Backward),
            last: *arg,
        };
        (next, state.answered)
    }

    fn due(state: &Talk, now: u64) -> bool {
        now.saturating_sub(state.last) >= 30
    }
}
