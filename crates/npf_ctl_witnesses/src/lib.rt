// Packets of an answer as files, which `npfctl run` takes: captures, one for each interface and direction, and a script that plays them one by
// one (docs/npfctl.8, "--write").
//
// Witness k, counted from 1, is sent at k seconds in a phase of its own, and behind each phase is one that lets all connections expire, so
// that no connection of one takes the next. So line k of the run's report is by the rule that was told for witness k.
//
// `checksum`, `carried` and `packet` write a witness's bytes, `alike` says which pass on one interface in one direction, `capture` has
// their records, `script` the script, and `files` all of them.
//
// The contract: each text is that of specs/WitnessFiles. The captures are read back as the records of these packets, of whose bytes
// npf_possible proves that they decode to facts that agree with the witness in all that rules test. What passes a limit is refused.
#![tactic(auto)]

mod alike;
mod capture;
mod carried;
mod checksum;
mod files;
mod laws;
mod limits;
mod packet;
mod script;

pub use files::{WitnessFile, witness_files};
pub use laws::witnesses_are_in_files;
