// The published number: the number of the configuration in force, which one publisher raises while readers in other threads read it.
//
// A gateway's packet path must not wait for an administrator who loads rules, so readers take the number without a lock from one
// of two copies, and the publisher changes the other and then swaps them: the `left_right` of Gjengset's crate of that name. Which
// configuration a number names is the caller's list; here it is a number between a first and a last one.
//
// The contract: a publisher publishes one number after the other, from its first to its last. A reader reads numbers in that
// range, and none below what it read before or was told. That is `left_right`'s rule (`specs/Protocol.antt`): the number never falls
// and never passes the last one, and what a seat has seen was shown. Contracts say nothing of how soon a reader sees a number
// that it wasn't told.
#![tactic(auto)]

mod conf_reader;
mod number_range;
mod protocol;
mod publisher;
mod told;

pub use conf_reader::ConfReader;
pub use number_range::NumberRange;
pub use publisher::Publisher;
pub use told::Told;
