// A class of packets, in the words of a rule of npf.conf(5) without `pass` or `block`: those that `pass CLASS` describes.
//
// The text is read as a rule that is added to a ruleset is (npf_config_changes), beside a model that is there: its tables and procedures are the
// model's, and no variable is defined. What `final` and `apply` add to a rule says nothing of its packets, and so nothing in a class; `stateful`
// asks of TCP for a segment that opens a connection.
//
// The contract: what is read is the rule that `pass CLASS` means, or it is refused for the fault of that rule, told at its place in the class's own
// text; a fault of the whole rule is told at the text's beginning. Want of memory says nothing.
#![tactic(auto)]

mod read;

pub use read::{MAX_CLASS_BYTES, read_class};
