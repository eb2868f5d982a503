// What commands that ask about a class of packets have in common: the class that a word is, the tables of a configuration as blocks, and the fault
// of a search that ended without an answer.
//
// The contract (specs/ClassFault): a class is what npf_class reads, and its fault is told of the file `class`; nothing is said of want of memory.
#![tactic(auto)]

mod class;
mod stop;
mod tables;

pub use class::class_of;
pub use stop::stop_fault;
pub use tables::tables_of;
