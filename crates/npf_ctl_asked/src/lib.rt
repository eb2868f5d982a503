// What a question of a configuration is about: a class of packets, and the interfaces that they may pass on.
//
// Packets pass on the interfaces of the file of interfaces, on those that the configuration names, and on those that the question names itself; all
// others are alike to it, as no rule, map or class has their names. So these are put in one list, by which the configuration and the class are numbered.
//
// The contract: what is read is the class's rule and the configuration by that list, or it is refused for the first of these: the class is too long, has a
// fault, or there are too many interfaces. Want of memory says nothing.
#![tactic(auto)]

mod asked;

pub use asked::{AskedClass, read_asked};
