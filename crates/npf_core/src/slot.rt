// The state of a slot.
//
// Only its last incarnation can be claimed; an identity of any other is Vacant, freed or not yet claimed.
use crate::stage::Stage;

/// A place for a connection: the incarnation that was claimed there last, 0 before the first claim, and what it is at.
#[derive(Clone, Copy, Debug, PartialEq, Eq)]
pub struct Slot<S> {
    pub inc: u64,
    pub stage: Stage<S>,
}
