// Stays of readers, and the epoch, over the words of the table without locks.
//
// A reader enters in three steps: it loads the epoch, pins it in its reader word, and loads the epoch again. What it may meet from
// then on is fixed by the second load: until it leaves, the epoch is at most one more (the rule of `npf_cells`). The epoch is raised
// by one who found each reader word idle or pinned in the epoch that it had loaded before. See Fraser, "Practical lock-freedom"
// (2004), section 5.2.3.
#![tactic(auto)]

mod stay;
mod tries;

pub use stay::{enter, leave};
pub use tries::{scan_readers, try_advance};
