// Which facts a packet can have, whatever its bytes are, for questions that are asked of all packets at once.
//
// An answer of 'no packet' counts packets alone and no combination of numbers that none has: IPv6 has no packet with the protocol of an
// extension header, for one. An answer of 'this packet' is shown by bytes that decode to it.
//
// The contract is laws. What decodes is possible; what is possible has bytes of at most 60 that decode to it, up to what no rule tests;
// and rules and maps tell packets apart by what they test alone, so that packets which agree in that have one verdict. Beside them
// `is_carried` tells which protocols are a packet's.
#![tactic(auto)]

mod carried;
mod laws;

pub use carried::is_carried;
pub use laws::{decided_alike, decoded_is_possible, possible_has_witness, tested_alike};
