// What is found of a rule.
use npf_products::CellPacket;

/// Whether a packet that there can be has a rule for its answer, and whether one would be treated otherwise without the rule. Places of rules are counted
/// from 0 in the order of inspection, and the lowest stands first.
#[derive(Debug, Drop)]
pub enum RuleFinding {
    /// This one has, and would be treated otherwise.
    Reached(CellPacket),
    /// Some have, and each of them would be treated alike.
    Redundant(Replacement),
    /// None has: none matches the rule where it stands.
    Impossible,
    /// None has: each that matches the rule has one of the rules at these places for its answer.
    Covered(Vec<usize>),
}

/// What would answer the packets that a rule answers, if it weren't there.
#[derive(Debug, Drop)]
pub struct Replacement {
    /// A packet that has the rule for its answer.
    pub packet: CellPacket,
    /// The rules at these places would have one.
    pub others: Vec<usize>,
    /// No rule would have one.
    pub none: bool,
}
