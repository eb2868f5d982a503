// What an answer says besides its text.
ghost use Rattle.std.specs.Prelude.{◌≡◌};
ghost use Rattle.npf_ctl.specs.Findings.{status_of_finding};

use crate::top::Status;

/// Whether an answer says what its question looks for.
#[derive(Clone, Copy, Debug, PartialEq, Eq)]
pub enum Finding {
    /// Nothing of it was found, or the command looks for nothing.
    Nothing,
    /// Something of it was found.
    Something,
}

impl Finding {
    /// The status that the program ends with where an answer was put: 0, or 10 where something was found.
    pub(crate) fn status(self) -> Status
        ensures { result ≡ status_of_finding self }
    {
        match self {
            Finding::Nothing => 0,
            Finding::Something => 10,
        }
    }
}
