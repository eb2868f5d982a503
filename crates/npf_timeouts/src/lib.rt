// How long a connection may be idle before it is due, by what its packets have shown: seven times in whole seconds, as
// npf-params(7) has them for the states of TCP and for other protocols.
//
// The contract: `get` and `with` read and set one of the seven (specs/Timeouts), `DEFAULT` is what holds where nothing else is
// said, and `is_timeout` tells what a time can be set to.
#![tactic(auto)]

mod timeouts;

pub use timeouts::{Timeout, Timeouts, is_timeout};
