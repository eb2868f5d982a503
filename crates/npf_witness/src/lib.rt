// One packet where it passes, as a line for people has it: in the words of a class of npf.conf(5), as
// `in on wm0 proto 6 flags S/FSRPAUEW from 192.0.2.1 port 1024 to 10.0.0.1 port 80`.
//
// The direction, the interface by its name, the protocol by its number; of a segment all control bits, of a message of ICMP its type and code; and
// both ends. What stands there is a class of npf_class of packets that are alike in all that rules ask, but for a segment without control bits,
// whose `flags none` no class can say. An interface that the run doesn't name is called by the first of cap0, cap1 and so on that it doesn't.
//
// The contract: the text is that of specs/WitnessText.
#![tactic(auto)]

mod address;
mod interface;
mod witness;

pub use interface::write_interface;
pub use witness::write_witness;
