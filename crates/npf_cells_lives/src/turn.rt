// What a pass knows of the slot whose turn it has.
use npf_core::Slot;

/// A note of a held way whose leaf is yet to be moved: the pass has stored the number of the place to which it is about to move the leaf.
pub struct Ahead {
    pub field: u32,
    pub value: u64,
}

/// What a note said when the pass loaded it under a slot's turn.
pub struct Said {
    pub field: u32,
    pub value: u64,
}

/// A slot's turn that a pass has. While it has it, no other pass steps, starts or kills a connection there.
pub struct Turn<S> {
    pub slot: u32,
    /// What the slot was at when the pass got the turn.
    pub was: Slot<S>,
    /// What the phase's word says.
    pub phase: u64,
    /// The note of which it is ahead, if any.
    pub ahead: Option<Ahead>,
    /// What the note said that it loaded last under this turn, if any.
    pub said: Option<Said>,
}
