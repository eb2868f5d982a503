// What is expected of a configuration.
ghost use Rattle.std.specs.Prelude.{◌≡◌};
ghost use Rattle.npf_ctl_check.specs.Met.{wants_pass};

use npf_model::Rule;

/// How many packets of a class are to be treated so.
#[derive(Clone, Copy, Debug, PartialEq, Eq)]
pub enum Amount {
    /// Each one, also where there is none.
    Each,
    /// One at least.
    One,
}

/// How packets are to be treated.
#[derive(Clone, Copy, Debug, PartialEq, Eq)]
pub enum WantedDecision {
    Pass,
    Block,
}

impl WantedDecision {
    pub(crate) fn wants_pass(self) -> bool
        ensures { result ≡ wants_pass self }
    {
        match self {
            WantedDecision::Pass => true,
            WantedDecision::Block => false,
        }
    }
}

/// What a line expects: so many packets of a class are treated so.
#[derive(Debug, Drop)]
pub struct Expectation {
    /// The line's number, from 1.
    pub line: u32,
    pub amount: Amount,
    pub wanted: WantedDecision,
    /// The rule that describes the packets of the class.
    pub class: Rule,
}
