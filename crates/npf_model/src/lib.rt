// The meaning of a configuration as plain data, in the words of npf.conf(5), and what it says of a packet.
//
// The types say no more than their fields. Beside them stand the definitions that every layer above cites, apart from
// any code: which packets a rule describes (specs/Describes), which rule decides (specs/Verdict), which map applies
// (specs/MapOf), what the number of an interface is (specs/Numbering), what settings are chosen (specs/Settings), and a
// configuration as data (specs/Configuration).
//
// The contract: a copy is equal to what was copied, and the names and values of settings are those of specs/Settings.
#![tactic(auto)]

mod copy;
mod ends;
mod group;
mod iface;
mod map;
mod model;
mod procedure;
mod rule;
mod settings;
mod table;

pub use ends::{AddrItem, Ends, some_allow};
pub use group::{Group, Item};
pub use iface::{Iface, Ifaces, number_of_name, number_of_place};
pub use map::{Algo, Arrow, Map, Side};
pub use model::Model;
pub use procedure::Procedure;
pub use rule::{OnIf, Rule, StateOpt};
pub use settings::{Choice, Parameter, PortBound, Settings, Switch, switch_number, switch_word};
pub use table::{Kind, TableDecl};
