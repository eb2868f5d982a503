// Captures in the pcap format, version 2.4, read and written whole (pcap-savefile(5)).
//
// A capture is a header of 24 bytes and then records, each with its time and bytes. Its numbers stand in either
// byte order, its fractions of a second are microseconds or nanoseconds, and the magic number tells which. Of the
// link types Ethernet (1) and raw IP (101) are known.
//
// The contract: what is read is spelled so, each byte of it; what is spelled so is read, unless memory runs out;
// and each fault is that of the first test which the bytes fail. What is written is the one spelling that
// `write_capture` names, and it reads again to link `Raw` and the same records.
#![tactic(auto)]

mod capture;
mod extent;
mod fault;
mod format;
pub mod laws;
mod read;
mod write;

pub use capture::{Capture, Record};
pub use extent::{Extent, Extents};
pub use fault::CaptureFault;
pub use format::{Endianness, Format, Precision};
pub use read::{read_capture, read_extents};
pub use write::{append_header, append_record, write_capture};
