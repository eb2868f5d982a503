// The ICMP gateway: an error of ICMP or ICMPv6 goes with the connection of the packet that it
// quotes, and both of its headers are translated.
//
// Errors are those of RFC 792 and RFC 4443 section 3; what a translation does to them is RFC 5508
// section 4. Where fields stand is npf_packet's to say, what bytes are once words are written and
// what a sum is then npf_rewrite's.
//
// The contract: `inner_of` answers what a packet quotes exactly where it is an error that quotes a
// packet of TCP or UDP or an echo; `inner_key` is the key of what answers that packet; and
// `translate_error` writes the words and the sums that `ErrorTranslated` names, with the values
// that it names, and changes no other byte. None takes memory or can be refused.
//
// Laws say that the sum of an error of ICMP, or of ICMPv6 with its pseudo-header, which verified
// still verifies, where the change isn't neutral.
#![tactic(auto)]

mod error;
mod error_translated;
mod header;
mod laws;
mod quoted;

pub use error::{Inner, inner_key, inner_of};
pub use error_translated::translate_error;
pub use laws::{error_sum_follows, icmpv6_error_sum_follows};
