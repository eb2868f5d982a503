// What follows of the list of candidates.
ghost use Rattle.npf_portmap.specs.Laws.{EachPortOnce};

/// Where the first candidate lies in the range, each port of the range is a candidate once, and no other port is one.
#[tactic(auto, using(crate::proofs::CandidateLemmas::counting))]
pub fn each_port_once()
    ensures { EachPortOnce }
{}
