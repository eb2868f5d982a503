// What is told of packets that are treated unlike.
use npf_products::CellPacket;

/// The rule that decides on a packet by the old configuration and the one by the new, as places in the order of inspection, from 0; none where no rule decides.
/// What they do is not the same.
#[derive(Clone, Copy, Debug, PartialEq, Eq)]
pub struct RuleDifference {
    pub old: Option<usize>,
    pub new: Option<usize>,
    pub packet: CellPacket,
}
