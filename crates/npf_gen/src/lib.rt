// A large run that is made from a number: a configuration, a script and a capture of 20,000 packets.
//
// The capture has a datagram of UDP each millisecond, from 4,096 hosts to 64 servers of names (the servers are of
// TEST-NET-2, RFC 5737). They go out through a dynamic map to one address, so nearly each opens a connection and draws a port
// of its own; the script lets the first 10,000 connections expire before the others come. Hosts, ports and servers are drawn
// by a linear congruential generator of 64 bits with the constants of Knuth's MMIX ("The Art of Computer Programming",
// volume 2, section 3.3.4), of which the upper 31 bits count.
//
// `draw` is the generator, `datagram` the packets, `workload` the texts and the capture; `laws` says what holds of each.
//
// The contract: each of the three texts is the one that its definition names for the number, so two runs with one number have
// the same bytes. The capture has 880,024 bytes, reads again to the 20,000 records, and their sums verify.
#![tactic(auto)]

mod datagram;
mod draw;
mod laws;
mod workload;

pub use laws::{capture_has_length, capture_reads_again, sums_verify};
pub use workload::{Workload, generate};
