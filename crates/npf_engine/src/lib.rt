// One packet: its outcome, and what is sent of it (npf.conf(5); the order of work is docs/FORMATS.md, "Outcomes").
//
// A packet of IP is a step of the live connection that holds its key, on its interface or on every interface. Where there is none,
// one published configuration is asked. With the ICMP gateway an error of ICMP goes with the live connection whose packet it quotes.
// Otherwise a rule decides, and where it keeps the packet or a dynamic map translates it, a connection is opened. What passes is
// normalised and then translated, in place, and an error with what it quotes.
//
// The contract: `packet` adds to the history of connections what explains its outcome, and nothing else (specs/Handles): the
// outcome, the bytes that are sent and the entries stand in the relation `Explains`, which doesn't speak of how a
// packet is worked on. It is proved from the contracts of `Connections`, of the published number and of the layers below alone. It takes no
// memory. `laws`: an explanation holds in a longer history too.
#![tactic(auto)]

mod answer;
mod connection;
mod crossing;
mod gateway;
mod handler;
pub mod laws;
mod open;
mod outcome;
mod rules;
mod send;

pub use handler::packet;
pub use npf_engine_opening::Refusal;
pub use outcome::Outcome;
