// The tree of npf.conf(5): what a configuration says, by the lines of the grammar, before variables are replaced.
//
// Each line of the grammar with alternatives is an enum with a variant for each, and each other line a struct. Their
// fields are the parts of the line in its order, but for single quoted words: an optional part is an `Option`, an
// optional quoted word a `bool`, a repeated part a `List`, and a choice of quoted words an enum of them. A wide part stands
// behind a box (`Boxed`), which contracts do not see. Of what isn't built the tree keeps the place, and nothing of what is said there.
//
// The contract: these types say no more than their fields. Each has the span of the text that it was read from, from its
// first token to its last. And a word names an interface where an address is asked for exactly as specs/Reserved says.
#![tactic(auto)]

mod boxed;
mod filter;
mod group;
mod map;
mod procedure;
mod reserved;
mod rule;
mod stmt;
mod value;
mod word;

pub use boxed::Boxed;
pub use filter::{Addresses, Detail, EndsTree, Family, Filter, ProtoPart, Protocols, Where};
pub use group::{GroupHead, ItemTree};
pub use map::{ArrowTree, MapKind, SideTree};
pub use procedure::{Call, LogName, Opt};
pub use reserved::is_iface_word;
pub use rule::{BlockReturn, Direction, RuleAction, RuleTree, Stateful};
pub use stmt::{Setting, Stmt, TableType, Tree};
pub use value::{Function, IfaceTree, One, OneList, Value, ValueList, Values};
pub use word::{Address, Number, Str, Var, Word};
