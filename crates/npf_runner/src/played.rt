// What a run came to.
use npf_engine::Outcome;
use npf_traffic::Packet;
use npf_types::List;

/// What a run made of its packets, in their order: each packet's outcome, and its bytes as they then stand.
#[derive(Drop)]
pub struct Played<'a> {
    pub outcomes: List<Outcome>,
    pub packets: List<Packet<'a>>,
}

/// The same of the packets so far, with room for those that are to come.
#[derive(Drop)]
pub struct Answers<'a> {
    pub outcomes: Vec<Outcome>,
    pub packets: Vec<Packet<'a>>,
}
