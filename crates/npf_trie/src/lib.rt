// Keys looked up and held in the trie of the table.
//
// The trie is a hash array mapped trie (https://en.wikipedia.org/wiki/Hash_array_mapped_trie) that many passes read and change at once.
// A look walks from the root along the key's digits, loads a place at each level, and ends at the first that has no node. What stands
// there is the answer from that load on: nothing, or one leaf, whose connection holds the key only if the five words of its own key agree.
// A hold walks the same path. It puts its leaf in the place where the path ends, under that place's lock; where the leaf of another key
// stands there, it grows a node for each level down to the one at which the two keys part, and hangs the first of them in the place.
// Where it meets the mark of an emptied node it leaves its stay, tries to raise the epoch, enters again, clears the mark if it may, and walks anew;
// a look ends there with nobody.
//
// The contract: a look adds its entry to the history of the pass, with the answer as reply, and loads 95 places and five words of keys at
// most. It takes no lock, and waits for nobody. A hold's entry is the pass's one new and ends its history as it was seen: Done, or Taken by
// the key's holder. A hold for which too few nodes are left adds none, has published nothing, and met another key at a place that it
// loaded. After each answer the pass has neither a node, a lock nor a turn.
// A hold waits for the lock of each place in which it tries to put its leaf or its nodes, and goes by what stands there then. Before it moves
// the leaf of another key it waits for the turn of that leaf's slot, and for the lock behind it; the other way round `wait_turn` of npf_turn
// refuses. No clause says that it has one lock at a time, and that the note of each leaf is stored right before the store that puts the leaf
// there, and so it is.
#![tactic(auto)]

mod branch;
mod fill;
mod grow;
mod holds;
mod keys;
mod looks;
mod meet;
mod nodes;
mod step;
mod walk;

pub use holds::hold;
pub use looks::look;
