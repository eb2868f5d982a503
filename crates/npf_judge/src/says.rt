// What a configuration does to a class as a whole.

/// All packets of the class pass, all are blocked, some pass and some are blocked, or the class has no packets.
#[derive(Clone, Copy, Debug, PartialEq, Eq)]
pub enum ClassSays {
    Pass,
    Block,
    Both,
    Empty,
}
