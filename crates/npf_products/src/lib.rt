// What rules, maps and classes say of packets, as boxes of cells by kind of packet.
//
// npf.conf(5) asks of a packet its place, its addresses, its ports or message, and its control bits. Of packets of one kind, which is a
// version of IP and TCP, UDP, the version's ICMP or something else, each of these is a number, so that a packet is six numbers (specs/Number).
// What a rule or a map asks of them is a list of conditions on one number each (specs/Condition): ranges, and tables, which are sets of their
// own. A `Space` cuts the six dimensions into the classes that all of these sets tell apart, and makes each product a box of cells. Products of
// several configurations and a class are put to one space, so that their boxes can be compared.
//
// The contract (specs/Space): the box of a product has the cell of a packet that there can be exactly where the product holds of the packet by
// the definitions of npf_model and npf_precedence; each of these boxes lies in the box of all such packets, and each cell of that is the cell
// of one, which `packet_of` gives.
#![tactic(auto)]

mod add;
mod axes;
mod axis;
mod block;
mod condition;
mod ends;
mod full_box;
mod kind;
mod lists;
mod map;
mod narrow;
mod packet;
mod place;
mod product;
mod rule;
mod sets;
mod space;
mod tables;

pub use kind::{Carried, IpFamily, PacketKind, kinds};
pub use packet::CellPacket;
pub use product::{Product, Subject};
pub use space::Space;
pub use tables::TableSpan;
