// A slot's connection.
use crate::phase::SlotPhase;

/// The last connection of a slot. Incarnations count from 1 per slot.
#[derive(Clone, Copy, Debug, PartialEq, Eq)]
pub struct Connection<S> {
    pub inc: u64,
    pub phase: SlotPhase<S>,
}
