// The file of a run's interfaces (npfctl(8)): on each line a name and the addresses of the interface, parted by spaces. Blank
// lines are skipped, and comments from `#` to a line's end.
//
// specs/IfaceFile says which interfaces the bytes of a file are. The contract of `read_ifaces`: it answers those, in the order of
// the lines and none twice, and refuses any other file at the first byte of its first line that is bad, unless memory runs out.
#![tactic(auto)]

mod iface_file;

pub use iface_file::read_ifaces;
