// What `npfctl query` tells of a class of packets: a line for each rule that decides on some packet of the class, and one for none, each with a
// packet; and then whether all of the class pass, all are blocked, both, or the class is empty.
//
// A line has what the rule decides, its number, and the packet in the words of a class (npf_witness). Other commands tell deciders, or parts of such
// lines, too.
//
// The contract (specs/QueryText): the packets are those of an answer (npf_judge), the text is theirs, and what is said of the class as a whole
// holds of all of its packets that there can be.
#![tactic(auto)]

mod decision;
mod query;
mod says;
mod text;

pub use decision::rule_word;
pub use query::{ClassAnswer, query_class};
pub use text::{write_decider, write_ordinal, write_packet};
