// The classes of segments that the table of phases tells apart.
ghost use Rattle.std.specs.Prelude.{◌≡◌};

use crate::flag::{has_ack, has_fin, has_rst, has_syn};

/// What a segment is to the table of phases, by its flags.
#[derive(Clone, Copy, Debug, PartialEq, Eq)]
pub enum SegmentClass {
    Rst,
    Syn,
    SynAck,
    Ack,
    Fin,
    /// SYN with FIN, or none of RST, SYN, FIN and ACK.
    Invalid,
}

impl SegmentClass {
    ghost use Rattle.npf_tcp.specs.Class.{segment_class};

    #[tactic(auto, unfolding(crate::specs::Class::segment_class))]
    pub fn of(flags: u8) -> SegmentClass
        ensures { result ≡ segment_class flags }
    {
        if has_rst(flags) {
            return SegmentClass::Rst;
        }
        match (has_syn(flags), has_fin(flags), has_ack(flags)) {
            (true, true, _) => SegmentClass::Invalid,
            (true, false, true) => SegmentClass::SynAck,
            (true, false, false) => SegmentClass::Syn,
            (false, true, _) => SegmentClass::Fin,
            (false, false, true) => SegmentClass::Ack,
            (false, false, false) => SegmentClass::Invalid,
        }
    }
}
