// What a run puts out: its report on the standard output, line by line (docs/npfctl.8, "The report"), and the capture of
// the packets that it let pass; and it writes a file.
//
// A run writes over the bytes of its packets, so `ip_extents` notes before it where each record has its IP packet, and `PassedPackets` cuts
// the sent bytes by these notes after it. The capture is given part by part: it is never whole in memory.
//
// The contract: what is put is the report's text, whole, or a front of it where the sink refuses or memory runs out; and the
// capture has exactly the packets that passed, in order, with their times, each as it was sent, from its IP header to the IP
// packet's end.
#![tactic(auto)]

mod capture;
mod crossings;
mod extent;
mod file;
mod file_parts;
mod laws;
mod passed;
mod report;
mod sink_text;

pub use extent::ip_extents;
pub use file::write_file;
pub use file_parts::write_parts;
pub use laws::played_are_outputs;
pub use passed::PassedPackets;
pub use report::{put_report, put_total};
pub use sink_text::put_text;
