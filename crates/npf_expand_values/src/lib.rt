// Values and variables: what the values of a configuration are where they stand (npf.conf(5)), once its variables are replaced by
// what they stand for, its lists spliced, its functions replaced by the addresses of interfaces and its words by numbers.
//
// A `Scope` is what names mean where a statement stands: the definitions before it (specs/Variable), the interfaces of the run
// (specs/Iface, Host), and the tables and procedures that the configuration declares (specs/Declarations). The contract: for each
// value that is written there it answers what it is (specs/Atom, Address, Port, Protocol), how many elements that makes, and the
// first fault that it has by itself or in its place (specs/Use). `Variables` keeps for a variable in a list the place of its
// definition, so that nothing is spliced before it is used (specs/Kept).
#![tactic(auto)]

mod address;
mod atom;
mod declarations;
mod host;
mod iface;
mod leader;
mod message;
mod name;
mod place;
mod role;
mod scope;
mod source;
mod summary;
mod uses;
mod variable;

pub use address::{block_of, items_of_each};
pub use atom::Atom;
pub use declarations::Declarations;
pub use iface::Interfaces;
pub use name::name_of;
pub use role::Role;
pub use scope::Scope;
pub use source::Source;
pub use summary::counted_both;
pub use uses::{empty_fault, listed_values};
pub use variable::{Def, Variables};
