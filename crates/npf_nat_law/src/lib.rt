// The law of `npt66`: a packet that such a map translates still verifies, and so does the answer to it (RFC 6296 section 3.6). The
// functions do nothing: each is a theorem.
//
// `npf_nat` says that the address that a map gives has the sum of the one that it takes, over numbers. `npf_rewrite` says that sums still
// verify after a neutral change that keeps the sum of the address words, over bytes. Here stands that the changes of `plan` are such.
#![tactic(auto)]

ghost use Rattle.npf_nat_law.specs.Neutral.{AnswerIsSent, AnswerKeepsSums, PacketIsSent, PacketKeepsSums};

/// A packet that a map with `npt66` translates keeps its sums, and the answer to it does under the change back.
pub fn npt66_keeps_sums()
    ensures packet { PacketKeepsSums }
    ensures answer { AnswerKeepsSums }
{}

/// So what is sent of either is that packet with the ends of the change, and the sums that verified verify.
pub fn npt66_sent_is_packet()
    ensures packet { PacketIsSent }
    ensures answer { AnswerIsSent }
{}
