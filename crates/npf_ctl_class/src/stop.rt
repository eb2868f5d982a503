// A search that ended without an answer.
ghost use Rattle.std.specs.Prelude.{◌≡◌};
ghost use Rattle.npf_ctl_class.specs.ClassFault.{stop_fault};

use npf_ctl_messages::CommandFault;
use npf_steps::{Steps, Stopped};

/// The fault of a search that ended for this reason, of which so many steps might have been taken: one more was wanted.
pub fn stop_fault(stopped: Stopped, steps: &Steps) -> CommandFault
    ensures { result ≡ stop_fault stopped steps.now.most }
{
    match stopped {
        Stopped::NoMemory => CommandFault::NoMemory,
        Stopped::Spent => CommandFault::Steps {
            count: steps.most() + 1,
            most: steps.most(),
        },
    }
}
