// What `npfctl explain` says: why a configuration treats a packet of a class as it does, where the packet passes on an interface in a direction.
//
// A packet of the class is looked for among all packets that there can be (npf_reach). Its line, in the words of a class, is followed by a line for each
// group and each of its rules in the order of inspection, a line for each map, and what becomes of the packet: what is told of each is npf_explain's, and a
// rule or a map stands there as the canonical text has it.
//
// The contract: the text is that of the explanation of a packet that there can be, which the class's rule describes and which passes there (specs/Answer);
// or it is `empty`, exactly where there is no such packet. Only the end of the steps that the search may take comes besides, and want of memory.
#![tactic(auto)]

mod answer;
mod class;
mod lines;
mod outcome;
mod text;
mod words;

pub use answer::{Explained, explain_text};
pub use class::{Passage, packet_of_class};
pub use text::write_told;
