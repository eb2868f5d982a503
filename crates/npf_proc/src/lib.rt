// What the procedures of npf.conf(5) do to a packet. A procedure is what its text says; an action
// is what is done, without the procedure's name.
//
// The contract: the action of a rule has the `min-ttl`, `max-mss`, `no-df` and `log` of its
// procedure, each as it is, and none of them without a procedure.
#![tactic(auto)]

mod action;

pub use action::rule_action;
