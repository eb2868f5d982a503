// Rules compiled to classic BPF (McCanne and Jacobson 1993; bpf(4)), as NPF does: one program a rule.
//
// A program asks the coprocessor for the packet's header, and then tests one condition of the rule
// after another: family, protocols, flags, ICMP's type and code, and the addresses and ports of both
// ends. Where one doesn't hold it returns 0, and behind all of them 2^32 - 1. A list of members is
// tested one after another, and the first that holds jumps behind all of them. Direction and
// interface are tested by whoever walks the rules.
//
// The contract in words: on a packet whose facts the coprocessor tells, the program's value is
// 2^32 - 1 exactly where the rule's packet part describes the packet, and 0 otherwise. The program is
// valid, and has as many instructions as the rule's parts ask for, which the rule's weight bounds.
// `TooLong` comes exactly where the weight passes 4,096.
//
// A program is built from its end (src/tail.rt), so that a jump's distance is how far it has come. It
// is written in operations; npf_bpf's table gives the instruction of each.
#![tactic(auto)]

mod addr;
mod endpoint;
mod fault;
mod flag;
mod header;
mod icmp;
mod instruction;
mod port;
mod program;
mod rule_weight;
mod tail;

pub use fault::GenFault;
pub use program::compile;
pub use rule_weight::weight;
