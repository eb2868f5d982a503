// What becomes of the packets of a run when its fragments are put together (RFC 791 section 3.2, RFC 8200 section 4.5).
//
// From the sets of all classes the run's packets follow: the last piece of a whole set becomes its datagram, the other pieces of a
// set are held, and so is a fragment of no datagram. All other packets stay.
//
// The contract: `put_together` gives the packets of `Whole`, in which a packet's fate follows from what it is seen as and from its
// set. It takes memory for the datagrams alone.
#![tactic(auto)]

mod laws;
mod whole;

pub use laws::{no_fragments_stay, whole_keeps};
pub use whole::put_together;
