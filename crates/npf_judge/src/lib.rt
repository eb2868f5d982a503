// Which rules of a configuration decide on the packets of a class, with a packet of the class for each.
//
// The class's rule and the configuration's rules, in their order of precedence, are turned into boxes of cells for each kind of packets once
// (npf_reach). The packets of the class are then narrowed to those on which each rule decides, and to those on which none does, and of each one
// is asked for. The boxes that stand before a rule's are looked at for each, as npf_search does.
//
// The contract (specs/Deciders): a packet that is given can be, is of the class, and the rule decides on it by what the configuration means; and
// none is given exactly where there is none. A question that ends without an answer says so of its steps.
#![tactic(auto)]

mod deciders;
mod judge;
mod products;
mod question;
mod says;

pub use deciders::Deciders;
pub use judge::ask;
pub use question::decider_with;
pub use says::ClassSays;
