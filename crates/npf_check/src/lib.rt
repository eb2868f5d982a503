// The checks of a configuration that means something (npf.conf(5)): faults that show once its variables are replaced, from a
// missing default group to a limit that is passed.
//
// One rule of the language a file, in src/ and in specs/, each a list of faults told of the tree and of its model. The contract:
// `check` accepts exactly where there is no fault at all, and otherwise answers the fault that stands first in the text, of two at
// one place that with the smaller number. It keeps the names of the text and which variables are tables, and no other memory.
// `check_rule` does the same for one rule that stands in no text, whose tables and procedure have numbers, and takes no memory.
#![tactic(auto)]

mod default;
mod duplicate;
mod family;
mod fault;
mod limit;
mod lone_rule;
mod map;
mod name;
mod parameter;
mod port;
mod unbuilt;
mod undefined;
mod written_map;
mod written_rule;

pub use fault::check;
pub use lone_rule::check_rule;
