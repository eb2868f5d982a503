// Items are dealt to lanes, one lane for each worker, and gathered again in the order in which they stood.
//
// Which lane an item goes to is the caller's: a list of lanes, one for each item. A lane has its items in the order of the whole.
//
// The contract: `deal` gives each lane the items whose place in that list names it, and `gather` gives back the one list of which
// the lanes have these items, whatever became of them in between (specs/Lanes). Where there is one lane, `append` needs no such list.
//
// Lanes get room for just their items, and `deal` gives back the list that it emptied, into which `roomier` lets them be gathered again.
// `gather`, `append` and `roomier` take no memory. Where nothing was there before and the lane has as much room, `append` moves no item.
// No clause says so.
#![tactic(auto)]

mod lanes;

pub use lanes::{append, deal, gather, roomier};
